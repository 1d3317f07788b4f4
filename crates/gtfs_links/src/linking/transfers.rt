ghost use Rattle.std.specs.Prelude.{◌≡◌, ◌<◌, ◌^◌, IfOk, map, length, not};
ghost use Rattle.std.specs.List.{All};
ghost use Rattle.otp_model.specs.Rows.{IsTransferLine};
ghost use Rattle.gtfs_links.specs.Linked.{transfer_at};
ghost use Rattle.gtfs_links.specs.Rules.{is_empty};

use super::stops::number_if;
use name_index::Names;
use otp_base::{List, Memory, Text};
use otp_model::{TransferLine, TransferRow};
use std::alloc::Global;

/// The rows of `transfers.txt`, with their stops by number.
pub fn linked_transfers(
    alloc: Global,
    stops: &Names,
    rows: &[TransferLine],
) -> Result<List<TransferRow>, Memory>
    requires few { length stops.now < 2 ^ 32 }
    requires rows { All IsTransferLine rows.now }
    ensures { IfOk result (λ linked. linked ≡ map (transfer_at stops.now) rows.now) }
{
    let mut linked = List::new(alloc);
    for row in rows {
        linked.push(linked_transfer(stops, row))?;
    }
    Ok(linked)
}

fn linked_transfer(stops: &Names, row: &TransferLine) -> TransferRow
    requires few { length stops.now < 2 ^ 32 }
    requires row { IsTransferLine row.now }
    ensures { result ≡ transfer_at stops.now row.now }
{
    TransferRow {
        from: number_if(stops, &row.from_stop_id),
        to: number_if(stops, &row.to_stop_id),
        kind: row.transfer_type as u8,
        minimum: row.min_transfer_time,
        narrow: is_filled(&row.from_route_id)
            || is_filled(&row.to_route_id)
            || is_filled(&row.from_trip_id)
            || is_filled(&row.to_trip_id),
    }
}

fn is_filled(id: &Text) -> bool
    ensures { result ≡ not (is_empty id.now) }
{
    id.as_str().len() != 0
}
