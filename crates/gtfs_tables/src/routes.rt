ghost use Rattle.gtfs_tables.specs.Rows.{route_kind};
ghost use Rattle.otp_model.specs.Rows.{IsRouteRow};

use crate::table::TableRow;
use gtfs_records::{RowCells, TableFault};
use otp_model::{FeedFile, RouteRow};
use std::alloc::Global;

/// The records of `routes.txt`.
impl TableRow for RouteRow {
    ghost kind = { route_kind };

    ghost is_read = { IsRouteRow };

    fn file() -> FeedFile {
        FeedFile::Routes
    }

    fn columns() -> &'static [&'static str] {
        &["route_id"]
    }

    fn needed_columns() -> usize {
        1
    }

    #[tactic(auto, unfolding(crate::specs::Rows::route_at))]
    fn read(alloc: Global, cells: &RowCells) -> Result<RouteRow, TableFault> {
        let route_id = cells.filled(alloc, 0)?;
        Ok(RouteRow { route_id })
    }
}
