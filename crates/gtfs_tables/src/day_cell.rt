ghost use Rattle.std.specs.Prelude.{IfOk};
ghost use Rattle.gtfs_records.specs.Faults.{told_fault};
ghost use Rattle.gtfs_records.specs.Table.{read_of};
ghost use Rattle.jiff_core.specs.Calendar.{IsEpochDay};
ghost use Rattle.otp_base.specs.Answers.{Gives};
ghost use Rattle.otp_model.specs.Day.{day_of};

use gtfs_records::{RowCells, TableFault};
use otp_model::{DayNo, parse_day};

/// The cell of a column as a day of service.
pub fn day(cells: &RowCells, column: usize) -> Result<DayNo, TableFault>
    ensures day { Gives (λ x. x) told_fault result (read_of day_of cells.now column) }
    ensures range { IfOk result IsEpochDay }
{
    cells.accepted(column, parse_day(cells.text(column)?))
}
