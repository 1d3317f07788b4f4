ghost use Rattle.std.specs.Prelude.{◌≡◌, ◌<◌, ◌≤◌, ◌++◌, [], ◌∷◌, IfOk, OnOk, List, Some, length, slice_get};
ghost use Rattle.std.specs.List.{Contains};
ghost use Rattle.otp_model.specs.Beginnings.{Hop, legs_onto};
ghost use Rattle.otp_model.specs.Limits.{least_walk_points};
ghost use Rattle.otp_model.specs.declared.journey.Request.{Request as RequestOf};
ghost use Rattle.otp_model.specs.declared.timetable.Edges.{Edges as EdgesOf};
ghost use Rattle.raptor_rounds.specs.declared.node.Final.{Final as FinalOf};
ghost use Rattle.raptor_rounds.specs.Labels.{HasChain, IsChain, IsFound, IsHopOf, KeepsHop};
ghost use Rattle.raptor_rounds.specs.States.{arena_of, finals_of};
ghost use Rattle.raptor_rounds.specs.Searched.{IsSearched};

use crate::node::Node;
use crate::state::RoundState;
use otp_base::{Copied, Memory};
use otp_model::{Journey, Leg};
use std::alloc::Global;
use trip_patterns::Timetable;

/// The journey of a label, which ends in an egress of so many seconds. The rows of the timetable are read that the label
/// keeps; where they are those that a search over some edges and request kept, the journey of a final has its value.
pub fn journey_of<T: Timetable>(
    alloc: Global,
    timetable: &T,
    state: &RoundState,
    label: usize,
    egress: u32,
) -> Result<Journey, Memory>
    requires { HasChain (T.blocks timetable.now) (arena_of state.now) label }
    ensures legs { IfOk result (λ journey. (hops : List Hop) → IsChain (T.blocks timetable.now) (arena_of state.now) label hops → journey.legs ≡ legs_onto hops (Leg.Walk egress ∷ [])) }
    ensures found { IfOk result (λ journey. (edges : EdgesOf) (r : RequestOf) (f : FinalOf) → least_walk_points ≤ r.walk_points → IsSearched (T.runs timetable.now) (T.blocks timetable.now) edges r state.now → Contains (finals_of state.now) f → f.label ≡ label → f.egress ≡ egress → IsFound (T.runs timetable.now) edges r f.value journey.legs) }
{
    let mut legs = Vec::new(alloc);
    push_label(alloc, timetable, &state.arena, label, &mut legs)?;
    legs.push(Leg::Walk { seconds: egress })?;
    Ok(Journey {
        legs: otp_base::List::from_vec(legs),
    })
}

/// Adds the walks and rides of a label.
fn push_label<T: Timetable>(
    alloc: Global,
    timetable: &T,
    arena: &[Node],
    label: usize,
    legs: &mut Vec<Leg>,
) -> Result<(), Memory>
    requires { HasChain (T.blocks timetable.now) arena.now label }
    ensures { OnOk result ((hops : List Hop) → IsChain (T.blocks timetable.now) arena.now label hops → legs.new.items ≡ legs.old.items ++ legs_onto hops []) }
{
    let node = node_at(arena, label);
    match node.parent {
        None => {
            push_hop(alloc, timetable, &node, legs)?;
            Ok(())
        }
        Some(parent) => {
            push_label(alloc, timetable, arena, parent, legs)?;
            push_hop(alloc, timetable, &node, legs)?;
            Ok(())
        }
    }
}

fn node_at(arena: &[Node], label: usize) -> Node
    requires { label < length arena.now }
    ensures { slice_get arena.now label ≡ Some result }
{
    arena[label]
}

/// Adds the walk and the ride that a label keeps.
fn push_hop<T: Timetable>(
    alloc: Global,
    timetable: &T,
    node: &Node,
    legs: &mut Vec<Leg>,
) -> Result<(), Memory>
    requires { KeepsHop (T.blocks timetable.now) node.now }
    ensures { OnOk result ((hop : Hop) → IsHopOf (T.blocks timetable.now) node.now hop → legs.new.items ≡ legs.old.items ++ legs_onto (hop ∷ []) []) }
{
    let lane = &timetable.block(node.block)[node.lane];
    let name = lane.name(node.row).copy(alloc)?;
    legs.push(Leg::Walk { seconds: node.walk })?;
    legs.push(Leg::Ride {
        name,
        board: lane.call(node.row, node.board),
        alight: lane.call(node.row, node.alight),
    })?;
    Ok(())
}
