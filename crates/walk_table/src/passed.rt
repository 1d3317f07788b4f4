ghost use Rattle.std.specs.Prelude.{◌≡◌, ◌↔◌, ◌≤◌, ◌*◌, IsTrue, IfOk, Some, slice_get};
ghost use Rattle.std.specs.List.{Any, Contains};
ghost use Rattle.walk_table.specs.Passed.{AreBothFilled, Counts, HasMeantPoint, HoldsSomewhere, IsNear, IsNearSome, IsPassedOver};

use crate::reach::{child_points, one_point};
use crate::walks::{FARTHEST, square_within};
use otp_base::Memory;
use otp_model::{Point, Stop, StopNo, TransferRow};
use std::alloc::Global;

/// How many rows hold for no pair of stops.
pub fn passed_over(alloc: Global, stops: &[Stop], transfers: &[TransferRow]) -> Result<u64, Memory>
    ensures { IfOk result (λ passed. Counts (IsPassedOver stops.now) transfers.now passed) }
{
    let mut passed = 0;
    for row in transfers {
        if !holds_somewhere(alloc, stops, row)? {
            passed += 1;
        }
    }
    Ok(passed)
}

/// Whether the row holds for some pair of stops.
fn holds_somewhere(alloc: Global, stops: &[Stop], row: &TransferRow) -> Result<bool, Memory>
    ensures { IfOk result (λ holds. IsTrue holds ↔ HoldsSomewhere stops.now row.now) }
{
    if row.narrow || row.is_in_seat() {
        return Ok(false);
    }
    let from = meant_points(alloc, stops, row.from)?;
    let to = meant_points(alloc, stops, row.to)?;
    if row.bars() {
        return Ok(are_both_filled(&from, &to));
    }
    Ok(are_some_near(&from, &to))
}

/// The points of the stops that a row means by a stop that it names.
fn meant_points(alloc: Global, stops: &[Stop], side: Option<StopNo>) -> Result<Vec<Point>, Memory>
    ensures { IfOk result (λ points. (p : _) → Contains points.items p ↔ HasMeantPoint stops.now side p) }
{
    let Some(named) = side else {
        return Ok(Vec::new(alloc));
    };
    match stops.get(named as usize) {
        Some(place) => points_meant_by(alloc, stops, named, place),
        None => Ok(Vec::new(alloc)),
    }
}

fn points_meant_by(
    alloc: Global,
    stops: &[Stop],
    named: StopNo,
    place: &Stop,
) -> Result<Vec<Point>, Memory>
    requires { slice_get stops.now named ≡ Some place.now }
    ensures { IfOk result (λ points. (p : _) → Contains points.items p ↔ HasMeantPoint stops.now (Some named) p) }
{
    match place.kind {
        0 => one_point(alloc, place.point()),
        1 => child_points(alloc, named, stops),
        _ => Ok(Vec::new(alloc)),
    }
}

fn are_both_filled(from: &[Point], to: &[Point]) -> bool
    ensures { IsTrue result ↔ AreBothFilled from.now to.now }
{
    from.len() != 0 && to.len() != 0
}

/// Whether a point of the one list is near a point of the other.
fn are_some_near(from: &[Point], to: &[Point]) -> bool
    ensures { IsTrue result ↔ Any (IsNearSome to.now) from.now }
{
    from.iter().any(|p| is_near_some(p, to))
}

fn is_near_some(p: &Point, to: &[Point]) -> bool
    ensures { IsTrue result ↔ IsNearSome to.now p.now }
{
    to.iter().any(|q| is_near(p, q))
}

fn is_near(p: &Point, q: &Point) -> bool
    ensures { IsTrue result ↔ IsNear p.now q.now }
{
    square_within(FARTHEST, p, q).is_some()
}
