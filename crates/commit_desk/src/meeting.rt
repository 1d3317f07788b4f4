ghost use Rattle.std.specs.Prelude.{◌≡◌, ◌+◌, ◌-◌, ◌++◌, ◌∷◌, ◌^◌, [], Err, OnOk, min};
ghost use Rattle.otp_model.specs.Core.{HasSeen};
ghost use Rattle.commit_desk.specs.Desks.{MeetsAt};

use crate::desk::Desk;
use commit_history::{Pass, TakeFault};

/// Lets a pass see the whole published history, and takes a view. It waits for nobody. After any answer the pass has seen the
/// history.
///
/// # Errors
///
/// Those of the taking: `Turned` only where the pass's count of `turned` rose in this call (or stands at the greatest number), and
/// `Memory`.
pub fn meet(desk: &mut Desk, pass: &mut Pass) -> Result<(), TakeFault>
    requires feed { pass.old.feed ≡ desk.old.feed }
    requires cell { pass.old.cell ≡ desk.old.cell }
    ensures desk { desk.new ≡ desk.old }
    ensures ok { OnOk result ((history : _) × MeetsAt pass.old pass.new desk.old.state.history history) }
    ensures turned { result ≡ Err TakeFault.Turned
        → pass.new ≡ record pass.old { known = pass.old.known ++ desk.old.state.history ∷ []; turned = min (pass.old.turned + 1) (2 ^ 64 - 1) } }
    ensures memory { result ≡ Err TakeFault.Memory → (history : _) × MeetsAt pass.old pass.new desk.old.state.history history }
    ensures seen { HasSeen pass.new.known desk.old.state.history }
{
    pass.learn(desk.note());
    if let Err(fault) = pass.take() {
        return Err(fault);
    }
    Ok(())
}
