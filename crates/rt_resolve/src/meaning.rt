ghost use Rattle.std.specs.Prelude.{◌≡◌, ◌<◌, ◌≤◌, length, drop, IfOk, IfSome, map, IsTrue};
ghost use Rattle.std.specs.Str.{bytes_eq};
ghost use Rattle.std.specs.Option.{option_copied};
ghost use Rattle.std.specs.List.{All, position_from};
ghost use Rattle.otp_model.specs.Moves.{are_events, behind, here, means, meant_from, names_call, stop_id};
ghost use Rattle.rt_resolve.specs.Meaning.{HasEvents, MeansWithEvents, meant_of};

use otp_base::Memory;
use otp_model::{Call, Stop, StopUpdate};
use std::alloc::Global;

/// An update, and the place of the call that it means.
#[derive(Clone, Copy)]
pub struct Meant<'a> {
    pub place: usize,
    pub update: &'a StopUpdate,
}

/// Whether the call is at the stop of this id.
fn is_at(stops: &[Stop], call: &Call, id: &str) -> bool
    ensures { result ≡ bytes_eq (stop_id stops.now call.now.stop) id.now }
{
    match stops.get(call.stop as usize) {
        Some(stop) => stop.id.is(id),
        None => id.len() == 0,
    }
}

/// Whether an update may mean a call: by its sequence, or without one by its stop.
fn names_call(stops: &[Stop], update: &StopUpdate, call: &Call) -> bool
    ensures { result ≡ names_call stops.now update.now.seq update.now.stop_id call.now }
{
    if let Some(seq) = update.seq {
        return u64::from(call.seq) == seq;
    }
    match &update.stop_id {
        Some(id) => is_at(stops, call, id.as_str()),
        None => false,
    }
}

/// The greatest relation of an update that is read: 0 is SCHEDULED, 1 SKIPPED and 2 NO_DATA.
const LAST_RELATION: u64 = 2;

fn means(stops: &[Stop], update: &StopUpdate, call: &Call) -> bool
    ensures { result ≡ means stops.now update.now call.now }
{
    update.relation <= LAST_RELATION && names_call(stops, update, call)
}

/// The first place from `from` on of a call that an update may mean.
fn place_meant(stops: &[Stop], update: &StopUpdate, calls: &[Call], from: usize) -> Option<usize>
    ensures place { result ≡ position_from (means stops.now update.now) from (drop from calls.now) }
    ensures within { IfSome result (λ place. place < length calls.now) }
{
    for place in from..calls.len() {
        if means(stops, update, &calls[place]) {
            return Some(place);
        }
    }
    None
}

/// The updates that mean a call, each the first such call behind the one that the update before it means.
pub fn meant_by<'a>(
    alloc: Global,
    stops: &[Stop],
    calls: &[Call],
    updates: &'a [StopUpdate],
) -> Result<Vec<Meant<'a>>, Memory>
    requires { IsTrue (are_events updates.now) }
    ensures same { IfOk result (λ meant. map meant_of meant.items ≡ meant_from stops.now calls.now 0 updates.now) }
    ensures events { IfOk result (λ meant. All MeansWithEvents meant.items) }
{
    let mut meant = Vec::new(alloc);
    let mut from = 0;
    for update in updates {
        let Some(place) = place_meant(stops, update, calls, from) else {
            continue;
        };
        meant.push(Meant { place, update })?;
        from = place + 1;
    }
    Ok(meant)
}

/// The update of the call at this place, if the first of those that are left is.
pub fn here<'a>(left: &[Meant<'a>], place: usize) -> Option<&'a StopUpdate>
    ensures same { option_copied result ≡ here place (map meant_of left.now) }
    ensures events { All MeansWithEvents left.now → IfSome (option_copied result) HasEvents }
{
    match left {
        [meant, ..] if meant.place == place => Some(meant.update),
        _ => None,
    }
}

/// Those that are left behind the call at this place.
pub fn behind<'s, 'a>(left: &'s [Meant<'a>], place: usize) -> &'s [Meant<'a>]
    ensures same { map meant_of result.now ≡ behind place (map meant_of left.now) }
    ensures events { All MeansWithEvents left.now → All MeansWithEvents result.now }
{
    match left {
        [meant, rest @ ..] if meant.place == place => rest,
        _ => left,
    }
}
