ghost use Rattle.gtfs_tables.specs.Rows.{stop_time_kind};
ghost use Rattle.otp_model.specs.Rows.{IsStopTimeRow};

use crate::table::TableRow;
use gtfs_records::{RowCells, TableFault};
use otp_model::{FeedFile, StopTimeRow};
use std::alloc::Global;

/// The records of `stop_times.txt`.
impl TableRow for StopTimeRow {
    ghost kind = { stop_time_kind };

    ghost is_read = { IsStopTimeRow };

    fn file() -> FeedFile {
        FeedFile::StopTimes
    }

    fn columns() -> &'static [&'static str] {
        &[
            "trip_id",
            "arrival_time",
            "departure_time",
            "stop_id",
            "stop_sequence",
            "pickup_type",
            "drop_off_type",
        ]
    }

    fn needed_columns() -> usize {
        5
    }

    #[tactic(auto, unfolding(crate::specs::Rows::stop_time_at))]
    fn read(alloc: Global, cells: &RowCells) -> Result<StopTimeRow, TableFault> {
        let trip_id = cells.filled(alloc, 0)?;
        let arrival_time = cells.clock_or_none(1)?;
        let departure_time = cells.clock_or_none(2)?;
        let stop_id = cells.any(alloc, 3)?;
        let stop_sequence = cells.count(4)?;
        let pickup_type = cells.choice(3, 5)?;
        let drop_off_type = cells.choice(3, 6)?;
        Ok(StopTimeRow {
            trip_id,
            arrival_time,
            departure_time,
            stop_id,
            stop_sequence,
            pickup_type,
            drop_off_type,
        })
    }
}
