ghost use Rattle.std.specs.Prelude.{◌≡◌, ◌≤◌, IfOk, count_by, length};
ghost use Rattle.std.specs.List.{All};
ghost use Rattle.otp_model.specs.Limits.{most_records};
ghost use Rattle.gtfs_links.specs.Index.{HasId, trip_of_time};
ghost use Rattle.gtfs_links.specs.Kept.{AreCounts};
ghost use Rattle.gtfs_links.specs.Keys.{numbers_in};
ghost use Rattle.gtfs_links.specs.Linked.{is_unnamed};

use name_index::Names;
use otp_base::{List, Memory};
use otp_model::StopTimeRow;
use std::alloc::Global;

/// How many calls each trip has: rows that name a stop, of which `numbers` has the trips.
pub fn call_counts(
    alloc: Global,
    trips: &Names,
    numbers: &[u32],
    rows: &[StopTimeRow],
) -> Result<List<u32>, Memory>
    requires few { length rows.now ≤ most_records }
    requires numbers { numbers.now ≡ numbers_in trips.now trip_of_time rows.now }
    requires known { All (HasId trips.now trip_of_time) rows.now }
    ensures { IfOk result (AreCounts trips.now rows.now) }
{
    let mut counts = vec![in alloc; 0u32; trips.len()]?;
    for (place, row) in rows.iter().enumerate() {
        if is_unnamed(row) {
            continue;
        }
        counts[numbers[place] as usize] += 1;
    }
    Ok(List::from_vec(counts))
}

/// How many rows name no stop.
pub fn count_unnamed(rows: &[StopTimeRow]) -> usize
    ensures { result ≡ count_by is_unnamed rows.now }
{
    rows.iter().filter(|row| is_unnamed(row)).count()
}

/// Whether a row names no stop.
pub fn is_unnamed(row: &StopTimeRow) -> bool
    ensures { result ≡ is_unnamed row.now }
{
    row.stop_id.as_str().len() == 0
}
