ghost use Rattle.std.specs.Prelude.{◌<◌, length, OnOk};
ghost use Rattle.std.specs.List.{All};
ghost use Rattle.otp_base.specs.Adds.{FromBelow, FromSome};
ghost use Rattle.otp_base.specs.EachAt.{EachAt};
ghost use Rattle.otp_model.specs.Ranges.{IsRequestInRange, IsTimely};
ghost use Rattle.raptor_rounds.specs.Marks.{AreMarks};
ghost use Rattle.raptor_rounds.specs.Rides.{IsNodeInRange};
ghost use Rattle.raptor_rounds.specs.RunBounds.{AreRideBounds};
ghost use Rattle.raptor_rounds.specs.Scans.{GoesOn, GoesOnAt, IsNext, IsNextOf, IsWalkedBy, WalksBy};
ghost use Rattle.raptor_rounds.specs.States.{IsOfRound, IsOpenAt, Settles, bounds_of};

use crate::board::board;
use crate::lost::is_lost_stop;
use crate::marks::{Marks, is_marked, mark_of, put_mark};
use crate::node::Node;
use crate::ready::ready_by;
use crate::state::RoundState;
use otp_base::Memory;
use otp_model::{Edge, Edges, Request, Time};
use std::alloc::Global;
use trip_patterns::Timetable;

/// Takes the further rides of the labels from one number on, which have so many rides.
pub fn walk_all<T: Timetable>(
    alloc: Global,
    timetable: &T,
    edges: &Edges,
    request: &Request,
    first: usize,
    rides: u32,
    departure: &Time,
    marks: &mut Marks,
    state: &mut RoundState,
) -> Result<(), Memory>
    requires timely { All IsTimely (T.runs timetable.now) }
    requires request { IsRequestInRange request.now }
    requires few { rides < request.now.rides }
    requires round { EachAt (IsOfRound departure.now first rides) state.old.arena.items }
    requires open { IsOpenAt request.now departure.now state.old }
    requires bounds { AreRideBounds (T.blocks timetable.now) request.now (bounds_of state.old) }
    requires marks { AreMarks (T.runs timetable.now) request.now state.old departure.now marks.old }
    ensures settles { OnOk result (Settles request.now departure.now (FromBelow (GoesOnAt (T.runs timetable.now) edges.now request.now state.old.arena.items first) (length state.old.arena.items)) (IsNext (T.blocks timetable.now) edges.now request.now state.old.arena.items first) state.old state.new) }
    ensures marks { OnOk result (AreMarks (T.runs timetable.now) request.now state.new departure.now marks.new) }
{
    let end = state.arena.len();
    for number in first..end {
        let node = state.arena[number];
        walk_from(
            alloc, timetable, edges, request, number, &node, marks, state,
        )?;
    }
    Ok(())
}

/// Takes the further rides of a label, which has this number.
fn walk_from<T: Timetable>(
    alloc: Global,
    timetable: &T,
    edges: &Edges,
    request: &Request,
    number: usize,
    node: &Node,
    marks: &mut Marks,
    state: &mut RoundState,
) -> Result<(), Memory>
    requires timely { All IsTimely (T.runs timetable.now) }
    requires request { IsRequestInRange request.now }
    requires node { IsNodeInRange request.now node.now }
    requires few { node.now.rides < request.now.rides }
    requires open { IsOpenAt request.now node.now.departure state.old }
    requires bounds { AreRideBounds (T.blocks timetable.now) request.now (bounds_of state.old) }
    requires marks { AreMarks (T.runs timetable.now) request.now state.old node.now.departure marks.old }
    ensures settles { OnOk result (Settles request.now node.now.departure (GoesOn (T.runs timetable.now) edges.now request.now node.now) (IsNextOf (T.blocks timetable.now) edges.now request.now number node.now) state.old state.new) }
    ensures marks { OnOk result (AreMarks (T.runs timetable.now) request.now state.new node.now.departure marks.new) }
{
    let Some(row) = edges.from.as_slice().get(node.stop as usize) else {
        return Ok(());
    };
    walk_edges(
        alloc,
        timetable,
        request,
        number,
        node,
        row.as_slice(),
        marks,
        state,
    )?;
    Ok(())
}

/// Takes the rides after each of these edges.
fn walk_edges<T: Timetable>(
    alloc: Global,
    timetable: &T,
    request: &Request,
    number: usize,
    node: &Node,
    row: &[Edge],
    marks: &mut Marks,
    state: &mut RoundState,
) -> Result<(), Memory>
    requires timely { All IsTimely (T.runs timetable.now) }
    requires request { IsRequestInRange request.now }
    requires node { IsNodeInRange request.now node.now }
    requires few { node.now.rides < request.now.rides }
    requires open { IsOpenAt request.now node.now.departure state.old }
    requires bounds { AreRideBounds (T.blocks timetable.now) request.now (bounds_of state.old) }
    requires marks { AreMarks (T.runs timetable.now) request.now state.old node.now.departure marks.old }
    ensures settles { OnOk result (Settles request.now node.now.departure (FromSome (WalksBy (T.runs timetable.now) request.now number node.now) row.now) (FromSome (IsWalkedBy (T.blocks timetable.now) request.now number node.now) row.now) state.old state.new) }
    ensures marks { OnOk result (AreMarks (T.runs timetable.now) request.now state.new node.now.departure marks.new) }
{
    for edge in row {
        walk_by(alloc, timetable, request, number, node, edge, marks, state)?;
    }
    Ok(())
}

fn walk_by<T: Timetable>(
    alloc: Global,
    timetable: &T,
    request: &Request,
    number: usize,
    node: &Node,
    edge: &Edge,
    marks: &mut Marks,
    state: &mut RoundState,
) -> Result<(), Memory>
    requires timely { All IsTimely (T.runs timetable.now) }
    requires request { IsRequestInRange request.now }
    requires node { IsNodeInRange request.now node.now }
    requires few { node.now.rides < request.now.rides }
    requires open { IsOpenAt request.now node.now.departure state.old }
    requires bounds { AreRideBounds (T.blocks timetable.now) request.now (bounds_of state.old) }
    requires marks { AreMarks (T.runs timetable.now) request.now state.old node.now.departure marks.old }
    ensures settles { OnOk result (Settles request.now node.now.departure (WalksBy (T.runs timetable.now) request.now number node.now edge.now) (IsWalkedBy (T.blocks timetable.now) request.now number node.now edge.now) state.old state.new) }
    ensures marks { OnOk result (AreMarks (T.runs timetable.now) request.now state.new node.now.departure marks.new) }
{
    let ready = ready_by(request, number, node, edge);
    if is_lost_stop(request, &ready, state) {
        return Ok(());
    }
    let mark = mark_of(&ready);
    if is_marked(&mark, marks) {
        return Ok(());
    }
    board(alloc, timetable, request, &ready, state)?;
    put_mark(alloc, &mark, marks)?;
    Ok(())
}
