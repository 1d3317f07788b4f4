//! One kept view.
ghost use Rattle.std.specs.Prelude.{◌≡◌, ◌==◌, option_copied};
ghost use Rattle.std.specs.List.{find};

use commit_history::{Pass, View};
use std::snapshot::Snapshot as Ghost;

/// A view, and the pass that took it, as it was then. The pass has no bytes.
#[derive(Drop)]
pub struct Pin {
    pub view: View,
    pub pass: Ghost<Pass>,
}

/// The first with this number.
pub fn find_pin(pins: &[Pin], number: u64) -> Option<&Pin>
    ensures { option_copied result ≡ find (λ pin. pin.view.number == number) pins.now }
{
    pins.iter().find(|pin| pin.view.number == number)
}
