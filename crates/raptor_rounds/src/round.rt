ghost use Rattle.std.specs.Prelude.{◌≡◌, ◌++◌, [], ◌∷◌, ◌≤◌, ◌<ℤ◌, List, length, OnOk, ℤ};
ghost use Rattle.std.specs.List.{All};
ghost use Rattle.otp_model.specs.Ranges.{CanSearch};
ghost use Rattle.walk_table.specs.Reaches.{AreReached};
ghost use Rattle.raptor_rounds.specs.States.{AreFinalsEnough, IsBefore, IsRound, departures_of};
ghost use Rattle.raptor_rounds.specs.Marks.{AreMarks};
ghost use Rattle.raptor_rounds.specs.Searched.{IsLastRound, IsSearched};

use crate::marks::Marks;
use crate::start::start_all;
use crate::state::RoundState;
use crate::walk::walk_all;
use otp_base::Memory;
use otp_model::{Edges, Request, Time};
use std::alloc::Global;
use std::mem::replace;
use trip_patterns::Timetable;
use walk_table::Reach;

/// Searches the journeys that depart at one moment, which is before each that the state saw. `starts` are the stops that
/// are reached from the request's place of departure. After an `Err` the state is of no more use.
pub fn rounds<T: Timetable>(
    alloc: Global,
    timetable: &T,
    edges: &Edges,
    request: &Request,
    starts: &[Reach],
    departure: &Time,
    state: &mut RoundState,
) -> Result<(), Memory>
    requires search { CanSearch (T.runs timetable.now) edges.now request.now }
    requires starts { AreReached edges.now request.now.from starts.now }
    requires searched { IsSearched (T.runs timetable.now) (T.blocks timetable.now) edges.now request.now state.old }
    requires later { All (IsBefore departure.now) (departures_of state.old) }
    ensures searched { OnOk result (IsSearched (T.runs timetable.now) (T.blocks timetable.now) edges.now request.now state.new) }
    ensures departures { OnOk result (departures_of state.new ≡ departures_of state.old ++ departure.now ∷ []) }
    ensures finals { OnOk result (AreFinalsEnough (T.runs timetable.now) edges.now request.now state.new) }
{
    let first = state.arena.len();
    state.departures.push(*departure)?;
    let mut marks = replace(&mut state.marks, Marks::new(alloc));
    start_all(alloc, timetable, request, starts, departure, state)?;
    walk_rounds(
        alloc, timetable, edges, request, departure, first, &mut marks, state,
    )?;
    state.marks = marks;
    Ok(())
}

/// Goes on from the labels of one ride, which stand from a number on, round by round.
fn walk_rounds<T: Timetable>(
    alloc: Global,
    timetable: &T,
    edges: &Edges,
    request: &Request,
    departure: &Time,
    first: usize,
    marks: &mut Marks,
    state: &mut RoundState,
) -> Result<(), Memory>
    requires search { CanSearch (T.runs timetable.now) edges.now request.now }
    requires round { IsRound (T.runs timetable.now) (T.blocks timetable.now) edges.now request.now departure.now state.old.departures.items first 1 state.old }
    requires marks { AreMarks (T.runs timetable.now) request.now state.old departure.now marks.old }
    ensures round { OnOk result (IsLastRound (T.runs timetable.now) (T.blocks timetable.now) edges.now request.now departure.now state.old.departures.items state.new) }
    ensures marks { OnOk result (AreMarks (T.runs timetable.now) request.now state.new departure.now marks.new) }
{
    let mut first = first;
    for rides in 1..request.rides {
        let next = state.arena.len();
        walk_all(
            alloc, timetable, edges, request, first, rides, departure, marks, state,
        )?;
        first = next;
    }
    Ok(())
}
