ghost use Rattle.gtfs_tables.specs.Rows.{stop_kind};
ghost use Rattle.otp_model.specs.Rows.{IsStopRow};

use crate::table::TableRow;
use gtfs_records::{RowCells, TableFault};
use otp_model::{FeedFile, StopRow};
use std::alloc::Global;

/// The records of `stops.txt`.
impl TableRow for StopRow {
    ghost kind = { stop_kind };

    ghost is_read = { IsStopRow };

    fn file() -> FeedFile {
        FeedFile::Stops
    }

    fn columns() -> &'static [&'static str] {
        &[
            "stop_id",
            "stop_name",
            "stop_lat",
            "stop_lon",
            "location_type",
            "parent_station",
        ]
    }

    fn needed_columns() -> usize {
        1
    }

    #[tactic(auto, unfolding(crate::specs::Rows::stop_at))]
    fn read(alloc: Global, cells: &RowCells) -> Result<StopRow, TableFault> {
        let stop_id = cells.filled(alloc, 0)?;
        let stop_name = cells.any(alloc, 1)?;
        let stop_lat = cells.degrees(90_000_000, 4, 2)?;
        let stop_lon = cells.degrees(180_000_000, 4, 3)?;
        let location_type = cells.choice(4, 4)?;
        let parent_station = cells.any(alloc, 5)?;
        Ok(StopRow {
            stop_id,
            stop_name,
            stop_lat,
            stop_lon,
            location_type,
            parent_station,
        })
    }
}
