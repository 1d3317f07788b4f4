ghost use Rattle.gtfs_tables.specs.Rows.{date_kind};
ghost use Rattle.otp_model.specs.Rows.{IsDateRow};

use crate::day_cell::day;
use crate::table::TableRow;
use gtfs_records::{RowCells, TableFault};
use otp_model::{DateRow, FeedFile};
use std::alloc::Global;

/// The records of `calendar_dates.txt`.
impl TableRow for DateRow {
    ghost kind = { date_kind };

    ghost is_read = { IsDateRow };

    fn file() -> FeedFile {
        FeedFile::CalendarDates
    }

    fn columns() -> &'static [&'static str] {
        &["service_id", "date", "exception_type"]
    }

    fn needed_columns() -> usize {
        3
    }

    #[tactic(auto, unfolding(crate::specs::Rows::date_at))]
    fn read(alloc: Global, cells: &RowCells) -> Result<DateRow, TableFault> {
        let service_id = cells.filled(alloc, 0)?;
        let date = day(cells, 1)?;
        let exception_type = cells.code(1, 2, 2)?;
        Ok(DateRow {
            service_id,
            date,
            exception_type,
        })
    }
}
