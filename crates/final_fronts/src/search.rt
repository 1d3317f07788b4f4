ghost use Rattle.std.specs.Prelude.{◌≡◌, ◌-◌, ◌<◌, ◌≤◌, ◌≤ℤ◌, Some, length, slice_get, IsTrue};
ghost use Rattle.final_fronts.specs.Fronts.{IsPassed};
ghost use Rattle.final_fronts.specs.declared.step.Step.{Step as StepOf};

use crate::step::Step;
use otp_model::Time;

/// How many steps arrive by the time, where they stand by rising arrival.
pub fn arrived_by(steps: &[Step], time: &Time) -> usize
    ensures within { result ≤ length steps.now }
    ensures last { (step : StepOf) → 0 < result → slice_get steps.now (result - 1) ≡ Some step → step.arrival ≤ℤ time.now }
{
    let mut low = 0;
    let mut high = steps.len();
    while low < high {
        let middle = low + (high - low) / 2;
        if steps[middle].arrival <= *time {
            low = middle + 1;
        } else {
            high = middle;
        }
    }
    low
}

/// Whether some step arrives no later, at no greater a cost.
pub fn passes(steps: &[Step], by: &Step) -> bool
    ensures { IsTrue result → IsPassed steps.now by.now.arrival by.now.cost }
{
    let count = arrived_by(steps, &by.arrival);
    if count == 0 {
        return false;
    }
    steps[count - 1].cost <= by.cost
}
