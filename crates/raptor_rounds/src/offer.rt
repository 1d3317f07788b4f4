ghost use Rattle.std.specs.Prelude.{◌≡◌, ◌+◌, ◌<◌, ◌≤◌, OnOk};
ghost use Rattle.std.specs.List.{Contains};
ghost use Rattle.otp_base.specs.Adds.{Adds, FromSome, IsOnly};
ghost use Rattle.otp_model.specs.Ranges.{IsRequestInRange};
ghost use Rattle.raptor_rounds.specs.Labels.{IsFinalBy, entry_of, final_by as final_of};
ghost use Rattle.raptor_rounds.specs.Rides.{IsNodeInRange};
ghost use Rattle.raptor_rounds.specs.States.{IsEntryOf, IsItself, IsOpenAt, Settles};

use crate::bags::{is_met, put_label};
use crate::fronts::note_finals;
use crate::lost::is_lost_label;
use crate::node::{Final, Node};
use crate::state::RoundState;
use otp_base::{Memory, push_some};
use otp_model::{Request, Value};
use std::alloc::Global;
use walk_table::Reach;

/// Keeps a label and its finals, unless it is lost or some label is no worse.
pub fn offer(
    alloc: Global,
    request: &Request,
    node: &Node,
    state: &mut RoundState,
) -> Result<(), Memory>
    requires request { IsRequestInRange request.now }
    requires node { IsNodeInRange request.now node.now }
    requires open { IsOpenAt request.now node.now.departure state.old }
    ensures { OnOk result (Settles request.now node.now.departure (IsEntryOf node.now) (IsItself node.now) state.old state.new) }
{
    if is_lost_label(request, node, state) {
        return Ok(());
    }
    if is_met(&state.bags, node) {
        return Ok(());
    }
    let number = state.arena.len();
    put_label(alloc, node, number, &mut state.bags)?;
    state.arena.push(*node)?;
    let count = state.finals.len();
    push_finals(request, node, number, &state.aim.egress, &mut state.finals)?;
    note_finals(&state.finals, count, &mut state.fronts)?;
    Ok(())
}

/// Adds the journey of the label and each egress from its stop.
fn push_finals(
    request: &Request,
    node: &Node,
    number: usize,
    egress: &[Reach],
    finals: &mut Vec<Final>,
) -> Result<(), Memory>
    requires request { IsRequestInRange request.now }
    requires node { IsNodeInRange request.now node.now }
    ensures { OnOk result (Adds (FromSome (IsFinalBy request.now number node.now) egress.now) finals.old.items finals.new.items) }
{
    for reach in egress {
        push_some(finals, final_at(request, node, number, reach))?;
    }
    Ok(())
}

/// The journey of the label and the egress, if it begins at the label's stop.
fn final_at(request: &Request, node: &Node, number: usize, reach: &Reach) -> Option<Final>
    requires request { IsRequestInRange request.now }
    requires node { IsNodeInRange request.now node.now }
    ensures { IsOnly (IsFinalBy request.now number node.now reach.now) result }
{
    if reach.stop != node.stop {
        return None;
    }
    Some(final_by(request, node, number, reach))
}

fn final_by(request: &Request, node: &Node, number: usize, reach: &Reach) -> Final
    requires request { IsRequestInRange request.now }
    requires node { IsNodeInRange request.now node.now }
    ensures { result ≡ final_of request.now number node.now reach.now }
{
    let arrival = node.time + i64::from(reach.seconds);
    let elapsed = arrival.abs_diff(node.departure);
    let walking = u64::from(request.walk_points - 100) * u64::from(reach.seconds);
    Final {
        value: Value {
            departure: node.departure,
            arrival,
            rides: node.rides,
            cost: 100 * elapsed + (node.penalty + walking),
        },
        label: number,
        egress: reach.seconds,
    }
}
