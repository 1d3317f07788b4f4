ghost use Rattle.std.specs.Prelude.{◌≡◌, ◌^◌, ◌<◌, IfOk, List, OnOk, pos};
ghost use Rattle.std.specs.List.{Contains};
ghost use Rattle.raptor_rounds.specs.States.{AreFronts, step_of as step_in};
ghost use Rattle.raptor_rounds.specs.declared.node.Final.{Final as FinalOf};

use crate::node::Final;
use final_fronts::{Front, Step};
use otp_base::Memory;
use std::alloc::Global;

/// A front without steps for each number of rides up to this one.
pub fn new_fronts(alloc: Global, rides: u32) -> Result<Vec<Front>, Memory>
    ensures { IfOk result (λ fronts. (finals : List FinalOf) → AreFronts finals fronts.items) }
{
    let mut fronts = Vec::new(alloc);
    for _ in 0..rides as usize + 1 {
        fronts.push(Front::new(alloc))?;
    }
    Ok(fronts)
}

/// Adds the finals from a number on to the fronts of as many rides and more.
pub fn note_finals(finals: &[Final], first: usize, fronts: &mut Vec<Front>) -> Result<(), Memory>
    ensures { OnOk result (AreFronts finals.now fronts.old.items → AreFronts finals.now fronts.new.items) }
{
    for number in first..finals.len() {
        let found = &finals[number];
        note_final(found, fronts)?;
    }
    Ok(())
}

/// The greatest cost of a step. No final costs more, and a front need not have each.
const MOST_COST: u64 = (1 << 63) - 1;

fn note_final(found: &Final, fronts: &mut Vec<Front>) -> Result<(), Memory>
    ensures { OnOk result ((finals : List FinalOf) → Contains finals found.now → AreFronts finals fronts.old.items → AreFronts finals fronts.new.items) }
{
    if found.value.cost > MOST_COST {
        return Ok(());
    }
    let step = step_of(found);
    for rides in found.value.rides as usize..fronts.len() {
        let front = &mut fronts[rides];
        front.add(&step)?;
    }
    Ok(())
}

fn step_of(found: &Final) -> Step
    requires { found.now.value.cost < 2 ^ 63 }
    ensures { result ≡ step_in found.now }
{
    Step {
        arrival: found.value.arrival,
        cost: found.value.cost as i64,
    }
}
