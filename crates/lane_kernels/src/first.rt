ghost use Rattle.std.specs.Prelude.{◌+◌, ◌≤◌, length};
ghost use Rattle.std.specs.Bool.{MatchBool};
ghost use Rattle.lane_kernels.specs.Columns.{IsFirstAtLeast};
ghost use Rattle.lane_kernels.specs.Lanes.{is_above, SomeWithin, NoneWithin};

use crate::lanes::{GROUP, above, any, either, pair};
use crate::plain;

/// The least index whose entry is at least `t`, or the length where there is none. The column may rise or not; groups of eight
/// are passed over by lanes, and the first that has an answer ends the search.
pub fn first_at_least(column: &[i64], t: i64) -> usize
    ensures { IsFirstAtLeast column.now t result }
{
    if t == i64::MIN {
        return plain::first_at_least(column, t);
    }
    let mut at = 0;
    while column.len() - at >= GROUP && !any_above(column, at, t - 1) {
        at += GROUP;
    }
    at + plain::first_at_least(&column[at..], t)
}

// Whether an entry of the group at `at` is above `limit`. To ask for one above t - 1 takes an instruction less than at least t.
fn any_above(column: &[i64], at: usize, limit: i64) -> bool
    requires { at + 8 ≤ length column.now }
    ensures { MatchBool result (SomeWithin (is_above column.now limit) at (at + 8)) (NoneWithin (is_above column.now limit) at (at + 8)) }
{
    let front = either(
        above(pair(column, at), limit),
        above(pair(column, at + 2), limit),
    );
    let back = either(
        above(pair(column, at + 4), limit),
        above(pair(column, at + 6), limit),
    );
    any(either(front, back))
}
