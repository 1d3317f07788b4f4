ghost use Rattle.std.specs.Prelude.{◌≡◌, ◌+◌, ◌<◌, ◌≤◌, ◌^◌, IsTrue, length, slice_index_or};
ghost use Rattle.final_fronts.specs.Fronts.{IsBeaten, IsBeatenOn, IsLostBy, IsStandingInRange};

use crate::front::Front;
use crate::standing::Standing;

/// Seconds to a destination that isn't reached.
pub const FAR: u32 = 0xffff_ffff;

/// Whether a sequence is lost: with each number of rides more, up to `last` in all, it takes at least so many seconds and points
/// to the destination, and some journey that was found with no more rides arrives no later, at no greater a cost. `fronts` has
/// by number of rides those journeys that have no more. Where `seconds` ends no destination is reached, and where `points` ends
/// none are needed.
pub fn is_lost(fronts: &[Front], at: &Standing, last: u32, seconds: &[u32], points: &[u32]) -> bool
    requires at { IsStandingInRange at.now }
    requires few { at.now.rides ≤ last }
    ensures { IsTrue result → IsLostBy fronts.now at.now last seconds.now points.now }
{
    let levels = seconds.len().min((last - at.rides) as usize + 1);
    for more in 0..levels {
        if !is_beaten_on(fronts, at, more, seconds[more], points) {
            return false;
        }
    }
    true
}

/// Whether the destination isn't reached so, or some journey is as good.
fn is_beaten_on(fronts: &[Front], at: &Standing, more: usize, seconds: u32, points: &[u32]) -> bool
    requires at { IsStandingInRange at.now }
    requires few { more < 2 ^ 33 }
    ensures { IsTrue result → IsBeatenOn fronts.now at.now more seconds points.now }
{
    if seconds == FAR {
        return true;
    }
    is_beaten(fronts, at, more, seconds, points_at(points, more))
}

fn is_beaten(fronts: &[Front], at: &Standing, more: usize, seconds: u32, points: u32) -> bool
    requires at { IsStandingInRange at.now }
    requires few { more < 2 ^ 33 }
    ensures { IsTrue result → IsBeaten fronts.now at.now more seconds points }
{
    match fronts.get(at.rides as usize + more) {
        None => false,
        Some(front) => front.passes(&at.after(seconds, points)),
    }
}

fn points_at(points: &[u32], more: usize) -> u32
    ensures { result ≡ slice_index_or points.now more 0 }
{
    match points.get(more) {
        None => 0,
        Some(least) => *least,
    }
}
