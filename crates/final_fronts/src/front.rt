ghost use Rattle.std.specs.Prelude.{◌≡◌, [], IsTrue, OnOk};
ghost use Rattle.std.specs.List.{Contains};
ghost use Rattle.final_fronts.specs.Fronts.{HasOnly, IsPassed};
ghost use Rattle.final_fronts.specs.declared.step.Step.{Step as StepOf};

use crate::search::{arrived_by, passes};
use crate::step::Step;
use otp_base::Memory;
use std::alloc::Global;
use std::marker::Model;

/// Steps of which none passes another, by rising arrival and falling cost. Contracts see the list of them.
#[derive(Debug, Drop)]
pub struct Front {
    steps: Vec<Step>,
}

impl Model for Front {
    ghost use Rattle.std.specs.Prelude.{List};
    ghost use Rattle.final_fronts.specs.declared.step.Step.{Step as StepOf};

    ghost Value = { List StepOf };

    ghost view = { λ front. front.steps.items };
}

impl Front {
    /// A front without steps, which takes no memory.
    pub fn new(alloc: Global) -> Front
        ensures { result ≡ [] }
    {
        Front {
            steps: Vec::new(alloc),
        }
    }

    /// Whether some step arrives no later than this one, at no greater a cost.
    pub fn passes(&self, by: &Step) -> bool
        ensures { IsTrue result → IsPassed self.now by.now.arrival by.now.cost }
    {
        passes(&self.steps, by)
    }

    /// Adds a step that none passes, in place of those that it passes.
    pub fn add(&mut self, step: &Step) -> Result<(), Memory>
        ensures { OnOk result (HasOnly self.old step.now self.new) }
    {
        add(&mut self.steps, step)?;
        Ok(())
    }
}

fn add(steps: &mut Vec<Step>, step: &Step) -> Result<(), Memory>
    ensures { OnOk result (HasOnly steps.old.items step.now steps.new.items) }
{
    if passes(steps, step) {
        return Ok(());
    }
    drop_passed(steps, step);
    let place = arrived_by(steps, &step.arrival);
    steps.insert(place, *step)?;
    Ok(())
}

fn drop_passed(steps: &mut Vec<Step>, step: &Step)
    ensures { (x : StepOf) → Contains steps.new.items x → Contains steps.old.items x }
{
    steps.retain(|other| other.arrival < step.arrival || other.cost < step.cost);
}
