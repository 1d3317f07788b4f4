ghost use Rattle.std.specs.Prelude.{◌≡◌, ◌+◌, ◌≤◌, ◌↔◌, length, IsTrue};
ghost use Rattle.std.specs.Bool.{MatchBool};
ghost use Rattle.lane_kernels.specs.Columns.{SomeCovers};
ghost use Rattle.lane_kernels.specs.Lanes.{covers, marks, SomeWithin, NoneWithin};

use crate::lanes::{GROUP, any, at_most, both, either, pair};
use crate::plain;
use std::simd::prelude::*;

/// Whether some index has a time of at most `t` and a penalty of at most `p`.
pub fn any_covers(times: &[i64], pens: &[i64], t: i64, p: i64) -> bool
    requires { length times.now ≡ length pens.now }
    ensures { IsTrue result ↔ SomeCovers times.now pens.now t p }
{
    let mut at = 0;
    while times.len() - at >= GROUP {
        if any_in_group(times, pens, at, t, p) {
            return true;
        }
        at += GROUP;
    }
    plain::any_covers(&times[at..], &pens[at..], t, p)
}

// Whether an entry of the group at `at` covers.
fn any_in_group(times: &[i64], pens: &[i64], at: usize, t: i64, p: i64) -> bool
    requires { (at + 8 ≤ length times.now) × (at + 8 ≤ length pens.now) }
    ensures { MatchBool result (SomeWithin (covers times.now pens.now t p) at (at + 8)) (NoneWithin (covers times.now pens.now t p) at (at + 8)) }
{
    let front = either(
        covering(times, pens, at, t, p),
        covering(times, pens, at + 2, t, p),
    );
    let back = either(
        covering(times, pens, at + 4, t, p),
        covering(times, pens, at + 6, t, p),
    );
    any(either(front, back))
}

fn covering(times: &[i64], pens: &[i64], at: usize, t: i64, p: i64) -> mask64x2
    requires { (at + 2 ≤ length times.now) × (at + 2 ≤ length pens.now) }
    ensures { result ≡ marks (λ i. covers times.now pens.now t p (at + i)) 2 }
{
    both(at_most(pair(times, at), t), at_most(pair(pens, at), p))
}
