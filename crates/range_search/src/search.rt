ghost use Rattle.std.specs.Prelude.{◌≡◌, ◌-◌, [], IfOk, OnOk};
ghost use Rattle.std.specs.List.{AllPairs};
ghost use Rattle.otp_model.specs.Ranges.{CanSearch};
ghost use Rattle.otp_model.specs.Whole.{IsWhole};
ghost use Rattle.walk_table.specs.Reaches.{AreReached};
ghost use Rattle.raptor_rounds.specs.Moments.{IsEarlier};
ghost use Rattle.raptor_rounds.specs.States.{departures_of};
ghost use Rattle.raptor_rounds.specs.Searched.{IsSearched};
ghost use Rattle.range_search.specs.Searches.{AreSearched};

use crate::offers::offers_of;
use end_bounds::end_bounds;
use otp_base::Memory;
use otp_model::{Edges, Found, Request, Time};
use pareto_front::front_of;
use raptor_rounds::{RoundState, moments_of, rounds};
use std::alloc::Global;
use trip_patterns::Timetable;
use walk_table::{Reach, reach_of};

/// The whole list of a request: one journey for each value of a journey over the timetable that departs in the window and that
/// no such journey's value dominates, in the order of values.
pub fn best<T: Timetable>(
    alloc: Global,
    timetable: &T,
    edges: &Edges,
    request: &Request,
) -> Result<Vec<Found>, Memory>
    requires { CanSearch (T.runs timetable.now) edges.now request.now }
    ensures { IfOk result (λ list. IsWhole (T.runs timetable.now) edges.now request.now list.items) }
{
    let access = reach_of(alloc, edges, &request.from)?;
    let egress = reach_of(alloc, edges, &request.to)?;
    let bounds = end_bounds(alloc, timetable, edges, request, &egress)?;
    let moments = moments_of(alloc, timetable, request, &access)?;
    let mut state = RoundState::new(alloc, edges.stops.len(), request.rides, egress, bounds)?;
    search_all(
        alloc, timetable, edges, request, &access, &moments, &mut state,
    )?;
    let offers = offers_of(alloc, timetable, &state)?;
    front_of(alloc, offers)
}

/// Searches the journeys that depart at these moments, the last one first.
fn search_all<T: Timetable>(
    alloc: Global,
    timetable: &T,
    edges: &Edges,
    request: &Request,
    access: &[Reach],
    moments: &[Time],
    state: &mut RoundState,
) -> Result<(), Memory>
    requires search { CanSearch (T.runs timetable.now) edges.now request.now }
    requires access { AreReached edges.now request.now.from access.now }
    requires rise { AllPairs IsEarlier moments.now }
    requires searched { IsSearched (T.runs timetable.now) (T.blocks timetable.now) edges.now request.now state.old }
    requires unseen { departures_of state.old ≡ [] }
    ensures { OnOk result (AreSearched (T.runs timetable.now) (T.blocks timetable.now) edges.now request.now moments.now 0 state.new) }
{
    let count = moments.len();
    for seen in 0..count {
        let departure = &moments[count - 1 - seen];
        rounds(alloc, timetable, edges, request, access, departure, state)?;
    }
    Ok(())
}
