ghost use Rattle.std.specs.Prelude.{◌≡◌, ℕ, ◌<◌, length, OnOk, IfOk, ◌↔◌};
ghost use Rattle.std.specs.List.{Contains};
ghost use Rattle.otp_base.specs.Adds.{Adds, IsOnly};
ghost use Rattle.plain_search.specs.Rides.{IsRideAmong, IsRideBetween, IsRideFrom, IsRideIn};

use otp_base::{Copied, Memory, push_some};
use otp_model::{Call, Run, RunName};
use std::alloc::Global;

/// A ride of the schedule.
#[derive(Debug, Drop)]
pub struct Ride {
    pub name: RunName,
    pub board: Call,
    pub alight: Call,
}

/// All rides of a schedule.
pub fn rides_of(alloc: Global, runs: &[Run]) -> Result<Vec<Ride>, Memory>
    ensures { IfOk result (λ rides. (ride : _) → Contains rides.items ride ↔ IsRideAmong runs.now ride) }
{
    let mut rides = Vec::new(alloc);
    for run in runs {
        add_rides_in(alloc, run, &mut rides)?;
    }
    Ok(rides)
}

/// Adds the rides of a run.
fn add_rides_in(alloc: Global, run: &Run, rides: &mut Vec<Ride>) -> Result<(), Memory>
    ensures { OnOk result (Adds (IsRideIn run.now) rides.old.items rides.new.items) }
{
    for from in 0..run.calls.len() {
        add_rides_from(alloc, run, from, rides)?;
    }
    Ok(())
}

/// Adds the rides of a run that board at a place.
fn add_rides_from(
    alloc: Global,
    run: &Run,
    from: usize,
    rides: &mut Vec<Ride>,
) -> Result<(), Memory>
    requires { from < length run.now.calls }
    ensures { OnOk result (Adds (IsRideFrom run.now from) rides.old.items rides.new.items) }
{
    let count = run.calls.len();
    for to in from + 1..count {
        push_some(rides, ride_between(alloc, run, from, to)?)?;
    }
    Ok(())
}

/// The ride from one call of a run to a later one, if both are allowed.
fn ride_between(alloc: Global, run: &Run, from: usize, to: usize) -> Result<Option<Ride>, Memory>
    requires before { from < to }
    requires within { to < length run.now.calls }
    ensures { IfOk result (IsOnly (IsRideBetween run.now from to)) }
{
    let calls = run.calls.as_slice();
    let board = calls[from];
    let alight = calls[to];
    if !board.board || !alight.alight {
        return Ok(None);
    }
    let name = run.name.copy(alloc)?;
    Ok(Some(Ride {
        name,
        board,
        alight,
    }))
}
