ghost use Rattle.std.specs.Prelude.{◌≡◌, ◌*◌, ◌^◌, ◌<◌, ◌≤◌, MatchOption};
ghost use Rattle.otp_model.specs.Limits.{most_reach};
ghost use Rattle.otp_model.specs.Plane.{square_apart, IsDistance};
ghost use Rattle.otp_model.specs.Ranges.{CanWalk};
ghost use Rattle.otp_base.specs.Adds.{IsOnly};
ghost use Rattle.walk_table.specs.Walks.{IsWalkOver, IsWalkTo, lesser, IsLeastWalk};

use otp_model::{Point, Profile};

/// How far a row of `transfers.txt` reaches and walks may, in millimetres.
pub const FARTHEST: u64 = 5_000_000;

/// The square of the distance of two points, if they are within reach.
pub fn square_within(reach: u64, p: &Point, q: &Point) -> Option<u64>
    requires { reach ≤ most_reach }
    ensures { MatchOption result (reach * reach < square_apart p.now q.now) (λ square. (square ≡ square_apart p.now q.now) × (square ≤ reach * reach)) }
{
    let dx = p.x.abs_diff(q.x);
    let dy = p.y.abs_diff(q.y);
    if dx > reach || dy > reach {
        return None;
    }
    let square = dx * dx + dy * dy;
    if square > reach * reach {
        return None;
    }
    Some(square)
}

fn distance(square: u64) -> u64
    requires { square ≤ 2 ^ 46 }
    ensures { IsDistance square result }
{
    let root = square.isqrt();
    if root * root < square { root + 1 } else { root }
}

/// The seconds of a walk over a distance with this square.
pub fn seconds_over(speed: u32, square: u64) -> u32
    requires speed { 0 < speed }
    requires square { square ≤ 2 ^ 46 }
    ensures { IsWalkOver speed square result }
{
    distance(square).div_ceil(u64::from(speed)) as u32
}

/// The seconds of a walk between two points, if they are within reach.
pub fn walk_between(profile: &Profile, p: &Point, q: &Point) -> Option<u32>
    requires walks { CanWalk profile.now }
    ensures { IsOnly (IsWalkTo profile.now p.now q.now) result }
{
    let square = square_within(u64::from(profile.reach), p, q)?;
    Some(seconds_over(profile.speed, square))
}

pub fn lesser(a: Option<u32>, b: Option<u32>) -> Option<u32>
    ensures { result ≡ lesser a b }
{
    match (a, b) {
        (Some(a), Some(b)) => Some(a.min(b)),
        (Some(a), None) => Some(a),
        (None, b) => b,
    }
}

/// The least seconds of a walk from one of the points.
pub fn least_walk(profile: &Profile, points: &[Point], q: &Point) -> Option<u32>
    requires walks { CanWalk profile.now }
    ensures { IsLeastWalk profile.now points.now q.now result }
{
    let mut least = None;
    for p in points {
        least = lesser(least, walk_between(profile, p, q));
    }
    least
}
