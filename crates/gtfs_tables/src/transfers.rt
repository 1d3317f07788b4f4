ghost use Rattle.gtfs_tables.specs.Rows.{transfer_kind};
ghost use Rattle.otp_model.specs.Rows.{IsTransferLine};

use crate::table::TableRow;
use gtfs_records::{RowCells, TableFault};
use otp_model::{FeedFile, TransferLine};
use std::alloc::Global;

/// The records of `transfers.txt`.
impl TableRow for TransferLine {
    ghost kind = { transfer_kind };

    ghost is_read = { IsTransferLine };

    fn file() -> FeedFile {
        FeedFile::Transfers
    }

    fn columns() -> &'static [&'static str] {
        &[
            "from_stop_id",
            "to_stop_id",
            "transfer_type",
            "min_transfer_time",
            "from_route_id",
            "to_route_id",
            "from_trip_id",
            "to_trip_id",
        ]
    }

    fn needed_columns() -> usize {
        0
    }

    #[tactic(auto, unfolding(crate::specs::Rows::transfer_at))]
    fn read(alloc: Global, cells: &RowCells) -> Result<TransferLine, TableFault> {
        let from_stop_id = cells.any(alloc, 0)?;
        let to_stop_id = cells.any(alloc, 1)?;
        let transfer_type = cells.choice(5, 2)?;
        let min_transfer_time = cells.count_or_none(3)?;
        let from_route_id = cells.any(alloc, 4)?;
        let to_route_id = cells.any(alloc, 5)?;
        let from_trip_id = cells.any(alloc, 6)?;
        let to_trip_id = cells.any(alloc, 7)?;
        Ok(TransferLine {
            from_stop_id,
            to_stop_id,
            transfer_type,
            min_transfer_time,
            from_route_id,
            to_route_id,
            from_trip_id,
            to_trip_id,
        })
    }
}
