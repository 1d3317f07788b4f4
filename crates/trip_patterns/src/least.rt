ghost use Rattle.std.specs.Prelude.{◌≡◌, ◌<◌, [], IfOk, length, slice_index};
ghost use Rattle.trip_patterns.specs.Hops.{AreLeast, IsLowered, dwell_in, hop_in, seconds_between as seconds_of};

use otp_base::Memory;
use otp_model::{Call, Time};
use std::alloc::Global;

/// The greatest that a least time is told as; `u32::MAX` is left for a place that can't be reached.
pub const MOST_SECONDS: u32 = u32::MAX - 1;

/// By position, the least times of the rows of a lane: from the departure there to the next arrival, and from the arrival there
/// to the departure.
#[derive(Debug, Drop)]
pub struct LeastTimes {
    pub hops: Vec<u32>,
    pub dwells: Vec<u32>,
}

impl LeastTimes {
    /// Those of no rows.
    pub fn new(alloc: Global, positions: usize) -> Result<LeastTimes, Memory>
        ensures { IfOk result (λ least. AreLeast positions [] least.hops.items least.dwells.items) }
    {
        let hops = vec![in alloc; MOST_SECONDS; positions]?;
        let dwells = vec![in alloc; MOST_SECONDS; positions]?;
        Ok(LeastTimes { hops, dwells })
    }
}

/// Lowers each hop to that of one more row.
pub fn lower_hops(hops: &mut [u32], calls: &[Call])
    requires { length hops.old ≡ length calls.now }
    ensures { IsLowered (hop_in calls.now) hops.old hops.new }
{
    for position in 0..calls.len() {
        hops[position] = hops[position].min(hop(calls, position));
    }
}

/// Lowers each dwell to that of one more row.
pub fn lower_dwells(dwells: &mut [u32], calls: &[Call])
    requires { length dwells.old ≡ length calls.now }
    ensures { IsLowered (dwell_in calls.now) dwells.old dwells.new }
{
    for position in 0..calls.len() {
        dwells[position] = dwells[position].min(dwell(calls, position));
    }
}

/// Lowers each time to another at its position.
pub fn lower(times: &mut [u32], others: &[u32])
    requires { length times.old ≡ length others.now }
    ensures { IsLowered (slice_index others.now) times.old times.new }
{
    for position in 0..others.len() {
        times[position] = times[position].min(others[position]);
    }
}

/// The seconds from the departure at a position to the next arrival, or the most where there is none.
fn hop(calls: &[Call], position: usize) -> u32
    requires { position < length calls.now }
    ensures { result ≡ hop_in calls.now position }
{
    let here = &calls[position];
    match calls.get(position + 1) {
        Some(next) => seconds_between(&here.departure, &next.arrival),
        None => MOST_SECONDS,
    }
}

/// The seconds from the arrival at a position to the departure there.
fn dwell(calls: &[Call], position: usize) -> u32
    requires { position < length calls.now }
    ensures { result ≡ dwell_in calls.now position }
{
    let here = &calls[position];
    seconds_between(&here.arrival, &here.departure)
}

/// How many seconds a time is behind another, at most `MOST_SECONDS`; 0 where it is before it.
fn seconds_between(from: &Time, to: &Time) -> u32
    ensures { result ≡ seconds_of from.now to.now }
{
    if *to < *from {
        return 0;
    }
    to.abs_diff(*from).min(u64::from(MOST_SECONDS)) as u32
}
