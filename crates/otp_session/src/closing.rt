//! The end of a world.
ghost use Rattle.std.specs.Prelude.{◌≡◌, None, length};
ghost use Rattle.otp_workers.specs.Served.{AllFit};
ghost use Rattle.otp_session.specs.Closing.{AllMet, HasMet};
ghost use Rattle.otp_session.specs.Grounds.{IsAt, place_of};

use crate::naming::{Named, World};
use crate::session::Session;
use commit_desk::Desk;
use commit_history::TakeFault;
use otp_workers::Worker;

/// Takes the desk out of its lock, and lets each session see its whole published history. The first refusal is answered with the
/// desk. It takes no memory and waits for nobody.
pub fn close_world<N: Named, P>(
    world: World<N>,
    workers: &mut [Worker<P, Session>],
) -> (Desk, Option<TakeFault>)
    requires { AllFit (IsAt N.place) workers.old }
    ensures desk { place_of result.0 ≡ N.place }
    ensures met { AllMet result.0.state.history result.1 workers.old workers.new }
    ensures length { length workers.new ≡ length workers.old }
{
    let mut desk = world.close();
    let first = meet_all(&mut desk, workers);
    (desk, first)
}

/// Lets each session meet the desk, and gives the first refusal.
fn meet_all<P>(desk: &mut Desk, workers: &mut [Worker<P, Session>]) -> Option<TakeFault>
    requires { AllFit (IsAt (place_of desk.old)) workers.old }
    ensures desk { desk.new ≡ desk.old }
    ensures met { AllMet desk.old.state.history result workers.old workers.new }
    ensures length { length workers.new ≡ length workers.old }
{
    let mut first = None;
    for i in 0..workers.len() {
        first = meet_one(desk, &mut workers[i], first);
    }
    first
}

fn meet_one<P>(
    desk: &mut Desk,
    worker: &mut Worker<P, Session>,
    first: Option<TakeFault>,
) -> Option<TakeFault>
    requires { IsAt (place_of desk.old) worker.old.seat }
    ensures desk { desk.new ≡ desk.old }
    ensures met { HasMet desk.old.state.history result worker.old worker.new }
    ensures first { result ≡ None → first ≡ None }
{
    match worker.seat.meet(desk) {
        Ok(()) => first,
        Err(fault) => Some(first.unwrap_or(fault)),
    }
}
