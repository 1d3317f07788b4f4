ghost use Rattle.std.specs.Prelude.{IfOk};
ghost use Rattle.std.specs.List.{All};
ghost use Rattle.raptor_rounds.specs.States.{finals_of};
ghost use Rattle.range_search.specs.Searches.{AreOffers, IsKept, IsOfferOf};

use otp_base::Memory;
use otp_model::Found;
use raptor_rounds::{Final, RoundState, journey_of};
use std::alloc::Global;
use trip_patterns::Timetable;

/// The journeys that a search found, with their values.
pub fn offers_of<T: Timetable>(
    alloc: Global,
    timetable: &T,
    state: &RoundState,
) -> Result<Vec<Found>, Memory>
    requires { All (IsKept (T.blocks timetable.now) state.now) (finals_of state.now) }
    ensures { IfOk result (λ offers. AreOffers (T.runs timetable.now) (T.blocks timetable.now) state.now (finals_of state.now) offers.items) }
{
    let mut offers = Vec::new(alloc);
    for last in state.finals() {
        offers.push(offer_of(alloc, timetable, state, last)?)?;
    }
    Ok(offers)
}

fn offer_of<T: Timetable>(
    alloc: Global,
    timetable: &T,
    state: &RoundState,
    last: &Final,
) -> Result<Found, Memory>
    requires { IsKept (T.blocks timetable.now) state.now last.now }
    ensures { IfOk result (IsOfferOf (T.runs timetable.now) (T.blocks timetable.now) state.now last.now) }
{
    let journey = journey_of(alloc, timetable, state, last.label, last.egress)?;
    Ok(Found {
        value: last.value,
        journey,
    })
}
