ghost use Rattle.std.specs.Prelude.{OnOk};
ghost use Rattle.std.specs.List.{All};
ghost use Rattle.otp_base.specs.Adds.{FromSome};
ghost use Rattle.otp_model.specs.Ranges.{IsRequestInRange, IsTimely};
ghost use Rattle.raptor_rounds.specs.RunBounds.{AreRideBounds};
ghost use Rattle.raptor_rounds.specs.Scans.{IsStartedBy, StartsBy};
ghost use Rattle.raptor_rounds.specs.States.{IsOpenAt, Settles, bounds_of};

use crate::board::board;
use crate::ready::ready_at;
use crate::state::RoundState;
use otp_base::Memory;
use otp_model::{Request, Time};
use std::alloc::Global;
use trip_patterns::Timetable;
use walk_table::Reach;

/// Takes the first rides of the journeys that depart at this moment.
pub fn start_all<T: Timetable>(
    alloc: Global,
    timetable: &T,
    request: &Request,
    starts: &[Reach],
    departure: &Time,
    state: &mut RoundState,
) -> Result<(), Memory>
    requires timely { All IsTimely (T.runs timetable.now) }
    requires request { IsRequestInRange request.now }
    requires open { IsOpenAt request.now departure.now state.old }
    requires bounds { AreRideBounds (T.blocks timetable.now) request.now (bounds_of state.old) }
    ensures { OnOk result (Settles request.now departure.now (FromSome (StartsBy (T.runs timetable.now) request.now departure.now) starts.now) (FromSome (IsStartedBy (T.blocks timetable.now) request.now departure.now) starts.now) state.old state.new) }
{
    for reach in starts {
        start_by(alloc, timetable, request, reach, departure, state)?;
    }
    Ok(())
}

fn start_by<T: Timetable>(
    alloc: Global,
    timetable: &T,
    request: &Request,
    reach: &Reach,
    departure: &Time,
    state: &mut RoundState,
) -> Result<(), Memory>
    requires timely { All IsTimely (T.runs timetable.now) }
    requires request { IsRequestInRange request.now }
    requires open { IsOpenAt request.now departure.now state.old }
    requires bounds { AreRideBounds (T.blocks timetable.now) request.now (bounds_of state.old) }
    ensures { OnOk result (Settles request.now departure.now (StartsBy (T.runs timetable.now) request.now departure.now reach.now) (IsStartedBy (T.blocks timetable.now) request.now departure.now reach.now) state.old state.new) }
{
    match ready_at(request, departure, reach) {
        None => Ok(()),
        Some(ready) => {
            board(alloc, timetable, request, &ready, state)?;
            Ok(())
        }
    }
}
