ghost use Rattle.std.specs.Prelude.{◌≡◌, ◌≤◌, ◌<◌, ◌*◌, IfOk, length};
ghost use Rattle.std.specs.List.{All};
ghost use Rattle.end_bounds.specs.Found.{IsEndNumber};
ghost use Rattle.end_bounds.specs.Scans.{IsLowered, far, number_at};

use crate::far::FAR;
use crate::table::blank;
use otp_base::Memory;
use std::alloc::Global;
use walk_table::Reach;

/// Lowers the number at a place of the table, if it has the place.
fn lower_at(table: &mut Vec<u32>, place: usize, number: u32)
    ensures size { length table.new.items ≡ length table.old.items }
    ensures lowered { IsLowered table.old.items table.new.items }
    ensures most { place < length table.old.items → number_at table.new.items place ≤ number }
{
    if place < table.len() && number < table[place] {
        table[place] = number;
    }
}

/// The walk of a reach at a rate, at most 2^32 - 2.
fn walked(reach: &Reach, rate: u32) -> u32
    ensures within { result < far }
    ensures most { result ≤ rate * reach.now.seconds }
{
    rate.saturating_mul(reach.seconds).min(FAR - 1)
}

/// By stop, the egress from it at a rate a second.
pub fn from_exits(
    alloc: Global,
    stops: usize,
    egress: &[Reach],
    rate: u32,
) -> Result<Vec<u32>, Memory>
    ensures size { IfOk result (λ table. length table.items ≡ stops) }
    ensures ends { IfOk result (λ table. All (IsEndNumber rate table.items) egress.now) }
{
    let mut table = blank(alloc, stops, 1)?;
    for reach in egress {
        lower_at(&mut table, reach.stop as usize, walked(reach, rate));
    }
    Ok(table)
}
