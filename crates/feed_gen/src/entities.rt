//! The trip updates of messages.
ghost use Rattle.std.specs.Prelude.{◌≡◌, ◌<◌, ◌≤◌, ◌+◌, ◌*◌, suc, IfOk, decimal, string_bytes};
ghost use Rattle.feed_gen.specs.Draws.{start_of, state_after};
ghost use Rattle.feed_gen.specs.Messages.{after_entity, canceled, delay_of, entity_from, entity_of, late, late_call, trip_on_day, update_at};

use crate::draws::Draws;
use crate::texts::trip_id;
use crate::wire::{bytes_field, in_order, number_field};
use otp_base::Memory;
use std::alloc::{AllocError, Global};

/// CANCELED of a trip's relation to the schedule.
const CANCELED: u64 = 3;

/// The entity of a place in a message of the part, counted from 0.
pub fn entity(
    alloc: Global,
    seed: u64,
    part: u32,
    entity: u32,
    draws: &mut Draws,
) -> Result<Vec<u8>, Memory>
    requires { entity < 20 }
    ensures bytes { IfOk result (λ bytes. (place : _) → draws.old.state ≡ state_after (start_of seed part) place → bytes.items ≡ entity_from seed part place entity) }
    ensures state { (place : _) → draws.old.state ≡ state_after (start_of seed part) place → draws.new.state ≡ state_after (start_of seed part) (after_entity seed part place) }
{
    let trip = draws.draw(6_000);
    let update = update(alloc, seed, part, trip, draws)?;
    entity_of(alloc, entity + 1, &update)
}

/// An entity with its id.
fn entity_of(alloc: Global, id: u32, update: &[u8]) -> Result<Vec<u8>, Memory>
    ensures { IfOk result (λ bytes. bytes.items ≡ entity_of id update.now) }
{
    let text = id_text(alloc, id)?;
    let id = bytes_field(alloc, 1, text.as_bytes())?;
    let update = bytes_field(alloc, 3, update)?;
    let content = in_order(alloc, &id, &update)?;
    bytes_field(alloc, 2, &content)
}

fn id_text(alloc: Global, id: u32) -> Result<String, AllocError>
    ensures { IfOk result (λ text. string_bytes text ≡ decimal id) }
{
    format!(in alloc; "{id}")
}

/// The update of a trip that was drawn.
fn update(
    alloc: Global,
    seed: u64,
    part: u32,
    trip: u32,
    draws: &mut Draws,
) -> Result<Vec<u8>, Memory>
    requires { trip < 6000 }
    ensures bytes { IfOk result (λ bytes. (place : _) → draws.old.state ≡ state_after (start_of seed part) (suc place) → bytes.items ≡ update_at seed part place trip) }
    ensures state { (place : _) → draws.old.state ≡ state_after (start_of seed part) (suc place) → draws.new.state ≡ state_after (start_of seed part) (after_entity seed part place) }
{
    let (line, trip) = (trip / 100, trip % 100);
    if draws.draw(10) == 0 {
        return canceled(alloc, line, trip);
    }
    let sequence = 1 + draws.draw(12);
    let seconds = draws.draw(900);
    late(alloc, line, trip, sequence, seconds)
}

fn canceled(alloc: Global, line: u32, trip: u32) -> Result<Vec<u8>, Memory>
    ensures { IfOk result (λ bytes. bytes.items ≡ canceled line trip) }
{
    let trip = trip_on_day(alloc, line, trip)?;
    let relation = number_field(alloc, 4, CANCELED)?;
    let content = in_order(alloc, &trip, &relation)?;
    bytes_field(alloc, 1, &content)
}

fn late(alloc: Global, line: u32, trip: u32, sequence: u32, seconds: u32) -> Result<Vec<u8>, Memory>
    requires { seconds < 900 }
    ensures { IfOk result (λ bytes. bytes.items ≡ late line trip sequence seconds) }
{
    let trip = trip_on_day(alloc, line, trip)?;
    let descriptor = bytes_field(alloc, 1, &trip)?;
    let call = late_call(alloc, sequence, seconds)?;
    in_order(alloc, &descriptor, &call)
}

fn late_call(alloc: Global, sequence: u32, seconds: u32) -> Result<Vec<u8>, Memory>
    requires { seconds < 900 }
    ensures { IfOk result (λ bytes. bytes.items ≡ late_call sequence seconds) }
{
    let sequence = number_field(alloc, 1, u64::from(sequence))?;
    let delay = number_field(alloc, 1, delay_of(seconds))?;
    let arrival = bytes_field(alloc, 2, &delay)?;
    let content = in_order(alloc, &sequence, &arrival)?;
    bytes_field(alloc, 2, &content)
}

/// A minute less than so many seconds, in two's complement of 64 bits.
fn delay_of(seconds: u32) -> u64
    requires { seconds < 900 }
    ensures { result ≡ delay_of seconds }
{
    if seconds < 60 {
        u64::MAX - u64::from(59 - seconds)
    } else {
        u64::from(seconds - 60)
    }
}

fn trip_on_day(alloc: Global, line: u32, trip: u32) -> Result<Vec<u8>, Memory>
    ensures { IfOk result (λ bytes. bytes.items ≡ trip_on_day line trip) }
{
    let id = trip_id(alloc, line, trip)?;
    let id = bytes_field(alloc, 1, id.as_bytes())?;
    let day = bytes_field(alloc, 3, "20240506".as_bytes())?;
    in_order(alloc, &id, &day)
}
