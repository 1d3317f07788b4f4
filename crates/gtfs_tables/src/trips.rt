ghost use Rattle.gtfs_tables.specs.Rows.{trip_kind};
ghost use Rattle.otp_model.specs.Rows.{IsTripRow};

use crate::table::TableRow;
use gtfs_records::{RowCells, TableFault};
use otp_model::{FeedFile, TripRow};
use std::alloc::Global;

/// The records of `trips.txt`.
impl TableRow for TripRow {
    ghost kind = { trip_kind };

    ghost is_read = { IsTripRow };

    fn file() -> FeedFile {
        FeedFile::Trips
    }

    fn columns() -> &'static [&'static str] {
        &["route_id", "service_id", "trip_id"]
    }

    fn needed_columns() -> usize {
        3
    }

    #[tactic(auto, unfolding(crate::specs::Rows::trip_at))]
    fn read(alloc: Global, cells: &RowCells) -> Result<TripRow, TableFault> {
        let route_id = cells.filled(alloc, 0)?;
        let service_id = cells.filled(alloc, 1)?;
        let trip_id = cells.filled(alloc, 2)?;
        Ok(TripRow {
            route_id,
            service_id,
            trip_id,
        })
    }
}
