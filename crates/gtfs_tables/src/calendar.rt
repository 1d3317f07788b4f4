ghost use Rattle.gtfs_tables.specs.Rows.{calendar_kind};
ghost use Rattle.otp_model.specs.Rows.{IsCalendarRow};

use crate::day_cell::day;
use crate::table::TableRow;
use gtfs_records::{RowCells, TableFault};
use otp_model::{CalendarRow, FeedFile};
use std::alloc::Global;

/// The records of `calendar.txt`.
impl TableRow for CalendarRow {
    ghost kind = { calendar_kind };

    ghost is_read = { IsCalendarRow };

    fn file() -> FeedFile {
        FeedFile::Calendar
    }

    fn columns() -> &'static [&'static str] {
        &[
            "service_id",
            "monday",
            "tuesday",
            "wednesday",
            "thursday",
            "friday",
            "saturday",
            "sunday",
            "start_date",
            "end_date",
        ]
    }

    fn needed_columns() -> usize {
        10
    }

    #[tactic(auto, unfolding(crate::specs::Rows::calendar_at))]
    fn read(alloc: Global, cells: &RowCells) -> Result<CalendarRow, TableFault> {
        let service_id = cells.filled(alloc, 0)?;
        let monday = cells.code(0, 1, 1)?;
        let tuesday = cells.code(0, 1, 2)?;
        let wednesday = cells.code(0, 1, 3)?;
        let thursday = cells.code(0, 1, 4)?;
        let friday = cells.code(0, 1, 5)?;
        let saturday = cells.code(0, 1, 6)?;
        let sunday = cells.code(0, 1, 7)?;
        let start_date = day(cells, 8)?;
        let end_date = day(cells, 9)?;
        Ok(CalendarRow {
            service_id,
            monday,
            tuesday,
            wednesday,
            thursday,
            friday,
            saturday,
            sunday,
            start_date,
            end_date,
        })
    }
}
