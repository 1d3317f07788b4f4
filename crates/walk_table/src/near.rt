//! Which stops may be within reach of another, without a look at all of them.

ghost use Rattle.std.specs.Prelude.{◌≡◌, ◌+◌, ◌<◌, ◌≤◌, ◌-ℤ◌, ◌^◌, unsigned_abs, length, slice_get, slice_index_or, Some, IfOk, OnOk};
ghost use Rattle.std.specs.List.Sorted.{IsNonDecreasingBy, IsPermutation};
ghost use Rattle.otp_base.specs.EachAt.{EachAt};
ghost use Rattle.walk_table.specs.Near.{AreAllNumbers, AreCandidates, AreNumbersAround, AreNumbersFrom, AreStandings, IsStandingAt};

use crate::ground::{Ground, Numbered};
use otp_base::Memory;
use otp_model::{Stop, StopNo, TransferRow};
use std::alloc::Global;

/// How far north of the southernmost stop a stop is, in millimetres.
#[derive(Clone, Copy, Debug)]
pub struct Standing {
    pub north: u64,
    pub number: StopNo,
}

/// The stops from south to north.
#[derive(Debug, Drop)]
pub struct Northward {
    /// The southernmost stop's distance north of the origin, in millimetres.
    pub south: i64,
    pub standings: Vec<Standing>,
}

/// The stops from south to north.
pub fn northward_of(alloc: Global, stops: &[Stop]) -> Result<Northward, Memory>
    requires { length stops.now < 2 ^ 32 }
    ensures { IfOk result (λ northward. AreStandings northward.south stops.now northward.standings.items) }
{
    let south = south_of(stops);
    let mut standings = standings_in_order(alloc, south, stops)?;
    sort_northward(&mut standings)?;
    Ok(Northward { south, standings })
}

/// The southernmost stop's distance north of the origin. Any line would do; north of none, it tells the most apart.
fn south_of(stops: &[Stop]) -> i64 {
    let mut south = i64::MAX;
    for stop in stops {
        if stop.y < south {
            south = stop.y;
        }
    }
    south
}

fn sort_northward(standings: &mut Vec<Standing>) -> Result<(), Memory>
    ensures permutation { IsPermutation standings.old.items standings.new.items }
    ensures rise { OnOk result (IsNonDecreasingBy (λ standing. standing.north) standings.new.items) }
{
    standings.sort_by_key(|standing| standing.north)?;
    Ok(())
}

fn standings_in_order(alloc: Global, south: i64, stops: &[Stop]) -> Result<Vec<Standing>, Memory>
    requires { length stops.now < 2 ^ 32 }
    ensures count { IfOk result (λ standings. length standings.items ≡ length stops.now) }
    ensures each { IfOk result (λ standings. EachAt (IsStandingAt south stops.now) standings.items) }
{
    let mut standings = Vec::new(alloc);
    for (number, stop) in stops.iter().enumerate() {
        standings.push(standing_of(south, number as StopNo, stop))?;
    }
    Ok(standings)
}

fn standing_of(south: i64, number: StopNo, stop: &Stop) -> Standing
    ensures number { result.number ≡ number }
    ensures north { result.north ≡ unsigned_abs (stop.now.y -ℤ south) }
{
    Standing {
        north: stop.y.abs_diff(south),
        number,
    }
}

/// The stops that there may be an edge to from a stop, by rising number: where rows leave the stop all, else those
/// around it.
pub fn candidates(
    alloc: Global,
    ground: &Ground,
    northward: &Northward,
    rows: &[TransferRow],
    from: &Numbered,
) -> Result<Vec<StopNo>, Memory>
    requires stands { AreStandings northward.now.south ground.now.stops.now northward.now.standings.items }
    requires stops { length ground.now.stops.now < 2 ^ 32 }
    requires stop { slice_get ground.now.stops.now from.now.number ≡ Some from.now.stop.now }
    ensures { IfOk result (λ numbers. AreCandidates ground.now.stops.now rows.now ground.now.profile.now from.now.number from.now.stop.now numbers.items) }
{
    if !rows.is_empty() {
        return all_numbers(alloc, ground.stops.len());
    }
    let north = from.stop.y.abs_diff(northward.south);
    numbers_around(alloc, &northward.standings, north, ground.profile.reach)
}

/// The numbers of so many stops.
fn all_numbers(alloc: Global, count: usize) -> Result<Vec<StopNo>, Memory>
    requires { count < 2 ^ 32 }
    ensures { IfOk result (λ numbers. AreAllNumbers count numbers.items) }
{
    let mut numbers = Vec::new(alloc);
    for number in 0..count {
        numbers.push(number as StopNo)?;
    }
    Ok(numbers)
}

/// The numbers of all stops that stand no farther north or south of a place than the reach, and maybe of others, by
/// rising number.
fn numbers_around(
    alloc: Global,
    standings: &[Standing],
    north: u64,
    reach: u32,
) -> Result<Vec<StopNo>, Memory>
    requires { IsNonDecreasingBy (λ standing. standing.north) standings.now }
    ensures { IfOk result (λ numbers. AreNumbersAround standings.now north reach numbers.items) }
{
    let low = north.saturating_sub(u64::from(reach));
    let start = first_north(standings, low);
    let mut numbers = numbers_from(alloc, standings, start, north, u64::from(reach))?;
    numbers.sort_unstable();
    numbers.dedup();
    Ok(numbers)
}

/// The first place of the list that is no farther south.
fn first_north(standings: &[Standing], low: u64) -> usize
    requires { IsNonDecreasingBy (λ standing. standing.north) standings.now }
    ensures { (place : _) (d : _) → place < result → (slice_index_or standings.now place d).north < low }
{
    standings.partition_point(|standing| standing.north < low)
}

/// The numbers of the stops from a place of the list on, up to the last that stands no farther north of a
/// place than the reach.
fn numbers_from(
    alloc: Global,
    standings: &[Standing],
    start: usize,
    north: u64,
    reach: u64,
) -> Result<Vec<StopNo>, Memory>
    requires { IsNonDecreasingBy (λ standing. standing.north) standings.now }
    ensures { IfOk result (λ numbers. AreNumbersFrom standings.now start (north + reach) numbers.items) }
{
    let mut numbers = Vec::new(alloc);
    let mut at = start;
    while at < standings.len() && standings[at].north.saturating_sub(north) <= reach {
        numbers.push(standings[at].number)?;
        at += 1;
    }
    Ok(numbers)
}
