ghost use Rattle.std.specs.Prelude.{◌≡◌, ◌≤◌, ◌<◌, IfOk};
ghost use Rattle.feed_gen.specs.Messages.{entity_at, header, message_bytes};
ghost use Rattle.feed_gen.specs.Texts.{joined};

use crate::draws::Draws;
use crate::entities::entity;
use crate::wire::{bytes_field, in_order, number_field};
use otp_base::Memory;
use std::alloc::Global;

/// 2024-05-06 00:00 UTC in seconds since 1970.
const MIDNIGHT: u64 = 1_714_953_600;

/// The message of a commit, from 1 to 20, and a real-time feed, from 1 to 10.
pub fn message(alloc: Global, seed: u64, commit: u32, feed: u32) -> Result<Vec<u8>, Memory>
    requires { (commit ≤ 20) × (feed ≤ 10) }
    ensures { IfOk result (λ bytes. bytes.items ≡ message_bytes seed commit feed) }
{
    let header = header(alloc, commit)?;
    let entities = entities(alloc, seed, 1_000 + 100 * commit + feed)?;
    in_order(alloc, &header, &entities)
}

fn header(alloc: Global, commit: u32) -> Result<Vec<u8>, Memory>
    requires { commit ≤ 20 }
    ensures { IfOk result (λ bytes. bytes.items ≡ header commit) }
{
    let version = bytes_field(alloc, 1, "2.0".as_bytes())?;
    let timestamp = number_field(alloc, 3, MIDNIGHT + 60 * u64::from(commit))?;
    let content = in_order(alloc, &version, &timestamp)?;
    bytes_field(alloc, 1, &content)
}

/// The entities of a message.
#[tactic(auto, unfolding(crate::specs::Texts::joined, crate::specs::Messages::place_of, crate::specs::Draws::state_after))]
fn entities(alloc: Global, seed: u64, part: u32) -> Result<Vec<u8>, Memory>
    ensures { IfOk result (λ bytes. bytes.items ≡ joined (entity_at seed part) 20) }
{
    let mut draws = Draws::of(seed, part);
    let mut bytes = Vec::new(alloc);
    for place in 0..20u32 {
        let more = entity(alloc, seed, part, place, &mut draws)?;
        bytes.extend_from_slice(&more)?;
    }
    Ok(bytes)
}
