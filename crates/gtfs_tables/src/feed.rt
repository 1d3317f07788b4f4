ghost use Rattle.std.specs.Prelude.{◌≡◌, ◌≤◌, IfOk, IfSome};
ghost use Rattle.otp_base.specs.Answers.{Gives};
ghost use Rattle.otp_base.specs.Faults.{Rose};
ghost use Rattle.otp_model.specs.FeedFaults.{told_of};
ghost use Rattle.otp_model.specs.Rows.{AreRead, AreTables, IsCalendarRow, IsDateRow};
ghost use Rattle.gtfs_tables.specs.Feed.{calendars_in, either_calendar, tables_of};

use crate::feed_file::{fault_of_file, found_rows, optional_rows, required_rows};
use otp_base::{Folder, List};
use otp_model::{
    AgencyRow, CalendarRow, DateRow, FeedCause, FeedFault, FeedFile, FrequencyRow, RouteRow,
    StopRow, StopTimeRow, Tables, TransferLine, TripRow,
};
use std::alloc::Global;

/// Reads the files of a feed from a folder: `agency.txt`, `stops.txt`, `routes.txt`, `trips.txt`,
/// `stop_times.txt`, `calendar.txt`, `calendar_dates.txt`, `transfers.txt` and `frequencies.txt`, numbered so
/// from 1 on (GTFS Schedule reference, "Dataset Files"). The first five must be there, and one of the two
/// calendar files. Other files and other columns are passed over.
///
/// # Errors
///
/// `At` with the first fault, exactly: file by file, in each that it is missing (cause 1), that it has more
/// than 536,870,912 bytes (5), the first column that the header lacks (2), and then by row, in each by
/// column, that a field isn't UTF-8 (3) or that its reader refuses it (4). Where both calendar files are
/// missing it is cause 1 of file 6. `Read` where a read failed, and the folder counted it.
#[tactic(auto, unfolding(crate::specs::Feed::tables_of))]
pub fn read_tables<F: Folder>(
    alloc: Global,
    folder: &mut F,
    path: &str,
) -> Result<Tables, FeedFault>
    ensures tables { IfSome (F.files folder.old)
        (λ files. Gives (λ tables. tables) told_of result (tables_of path.now files)) }
    ensures unchanged { F.files folder.new ≡ F.files folder.old }
    ensures later { F.faults folder.old ≤ F.faults folder.new }
    ensures cause { result ≡ Err FeedFault.Read → Rose (F.faults folder.old) (F.faults folder.new) }
    ensures are_read { IfOk result AreTables }
{
    let agencies = required_rows::<F, AgencyRow>(alloc, folder, path)?;
    let stops = required_rows::<F, StopRow>(alloc, folder, path)?;
    let routes = required_rows::<F, RouteRow>(alloc, folder, path)?;
    let trips = required_rows::<F, TripRow>(alloc, folder, path)?;
    let stop_times = required_rows::<F, StopTimeRow>(alloc, folder, path)?;
    let (calendars, dates) = calendar_rows(alloc, folder, path)?;
    let transfers = optional_rows::<F, TransferLine>(alloc, folder, path)?;
    let frequencies = optional_rows::<F, FrequencyRow>(alloc, folder, path)?;
    Ok(Tables {
        agencies,
        stops,
        routes,
        trips,
        stop_times,
        calendars,
        dates,
        transfers,
        frequencies,
    })
}

/// The rows of `calendar.txt` and `calendar_dates.txt`, of which one may be missing.
fn calendar_rows<F: Folder>(
    alloc: Global,
    folder: &mut F,
    path: &str,
) -> Result<(List<CalendarRow>, List<DateRow>), FeedFault>
    ensures rows { IfSome (F.files folder.old)
        (λ files. Gives (λ rows. rows) told_of result (calendars_in path.now files)) }
    ensures unchanged { F.files folder.new ≡ F.files folder.old }
    ensures later { F.faults folder.old ≤ F.faults folder.new }
    ensures cause { result ≡ Err FeedFault.Read → Rose (F.faults folder.old) (F.faults folder.new) }
    ensures calendars { IfOk result (λ rows. AreRead IsCalendarRow rows.0) }
    ensures dates { IfOk result (λ rows. AreRead IsDateRow rows.1) }
{
    let calendars = found_rows::<F, CalendarRow>(alloc, folder, path)?;
    let dates = found_rows::<F, DateRow>(alloc, folder, path)?;
    either_calendar(alloc, calendars, dates)
}

/// The rows of the two calendar files: where both are missing, `calendar.txt` is.
fn either_calendar(
    alloc: Global,
    calendars: Option<List<CalendarRow>>,
    dates: Option<List<DateRow>>,
) -> Result<(List<CalendarRow>, List<DateRow>), FeedFault>
    requires calendars { IfSome calendars (AreRead IsCalendarRow) }
    requires dates { IfSome dates (AreRead IsDateRow) }
    ensures rows { Gives (λ rows. rows) told_of result (either_calendar calendars dates) }
    ensures fine { result ≡ Err FeedFault.Read → ⊥ }
    ensures calendars { IfOk result (λ rows. AreRead IsCalendarRow rows.0) }
    ensures dates { IfOk result (λ rows. AreRead IsDateRow rows.1) }
{
    match (calendars, dates) {
        (None, None) => Err(fault_of_file(alloc, FeedCause::MissingFile, FeedFile::Calendar)),
        (None, Some(dates)) => Ok((List::new(alloc), dates)),
        (Some(calendars), None) => Ok((calendars, List::new(alloc))),
        (Some(calendars), Some(dates)) => Ok((calendars, dates)),
    }
}
