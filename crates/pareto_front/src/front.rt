ghost use Rattle.std.specs.Prelude.{◌≡◌, ◌↔◌, IsTrue, IfOk, OnOk, map};
ghost use Rattle.std.specs.Bool.{MatchBool};
ghost use Rattle.std.specs.List.{Any};
ghost use Rattle.std.specs.List.Sorted.{IsPermutation, IsSortedByKey};
ghost use Rattle.otp_model.specs.Whole.{Dominates, IsWhole, value_cmp};
ghost use Rattle.pareto_front.specs.Front.{AreEnough, IsFront, IsKeptOrPassed, IsPassed, IsWanted};

use otp_base::Memory;
use otp_model::{Found, Value};
use std::alloc::Global;

/// The best of the journeys that are offered, one for each value, in the order of values. Where the
/// offers are enough of a schedule's journeys, that is the whole list.
pub fn front_of(alloc: Global, mut offers: Vec<Found>) -> Result<Vec<Found>, Memory>
    ensures front { IfOk result (λ list. IsFront offers.items list.items) }
    ensures whole { IfOk result (λ list. (runs : _) (edges : _) (r : _) → AreEnough runs edges r offers.items
        → IsWhole runs edges r list.items) }
{
    sort_by_value(&mut offers)?;
    let values = values_of(alloc, &offers)?;
    let mut list = Vec::new(alloc);
    for offer in offers {
        keep_if_wanted(&values, &mut list, offer)?;
    }
    Ok(list)
}

/// Puts the offers in order.
fn sort_by_value(offers: &mut Vec<Found>) -> Result<(), Memory>
    ensures permutation { IsPermutation offers.old.items offers.new.items }
    ensures sorted { OnOk result (IsSortedByKey (λ offer. offer.value) value_cmp offers.new.items) }
{
    offers.sort_by_key(|offer| offer.value)?;
    Ok(())
}

/// The values of what is offered.
fn values_of(alloc: Global, offers: &[Found]) -> Result<Vec<Value>, Memory>
    ensures { IfOk result (λ values. values.items ≡ map (λ offer. offer.value) offers.now) }
{
    let values = offers.iter().map(|offer| offer.value).collect(alloc)?;
    Ok(values)
}

/// Puts an offer at the end of the list, if it is wanted.
fn keep_if_wanted(values: &[Value], list: &mut Vec<Found>, offer: Found) -> Result<(), Memory>
    ensures { OnOk result (IsKeptOrPassed values.now list.old.items offer list.new.items) }
{
    if is_wanted(values, list, &offer.value) {
        list.push(offer)?;
    }
    Ok(())
}

/// Whether the value is neither dominated nor there already.
fn is_wanted(values: &[Value], list: &[Found], value: &Value) -> bool
    ensures { MatchBool result (IsWanted values.now list.now value.now) (IsPassed values.now list.now value.now) }
{
    !is_dominated(values, value) && !has_value(list, value)
}

/// Whether one of the values dominates this one.
fn is_dominated(values: &[Value], value: &Value) -> bool
    ensures { IsTrue result ↔ Any (λ v. Dominates v value.now) values.now }
{
    values.iter().any(|other| other.dominates(value))
}

/// Whether an entry of the list has this value.
fn has_value(list: &[Found], value: &Value) -> bool
    ensures { IsTrue result ↔ Any (λ found. found.value ≡ value.now) list.now }
{
    list.iter().any(|found| is_same(&found.value, value))
}

fn is_same(a: &Value, b: &Value) -> bool
    ensures { IsTrue result ↔ (a.now ≡ b.now) }
{
    a == b
}
