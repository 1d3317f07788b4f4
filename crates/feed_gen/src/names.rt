ghost use Rattle.std.specs.Prelude.{◌≡◌, ℕ, ◌≤◌, IfOk, MatchOption, string_bytes};
ghost use Rattle.feed_gen.specs.Messages.{message_name};

use otp_base::Memory;
use std::alloc::{AllocError, Global};

/// A commit and a real-time feed.
#[derive(Clone, Copy, Debug)]
pub struct MessageNumber {
    pub commit: u32,
    pub feed: u32,
}

/// The name of the file of a message.
pub fn message_name(alloc: Global, commit: u32, feed: u32) -> Result<String, AllocError>
    ensures { IfOk result (λ text. string_bytes text ≡ message_name commit feed) }
{
    format!(in alloc; "message-{commit}-{feed}.pb")
}

/// The message whose file has the name, if there is one.
pub fn message_named(alloc: Global, name: &str) -> Result<Option<MessageNumber>, Memory>
    ensures { IfOk result (λ found. MatchOption found
        ((commit feed : ℕ) → 1 ≤ commit → commit ≤ 20 → 1 ≤ feed → feed ≤ 10 → name.now ≡ message_name commit feed → ⊥)
        (λ at. (name.now ≡ message_name at.commit at.feed) × ((1 ≤ at.commit) × (1 ≤ at.feed)) × ((at.commit ≤ 20) × (at.feed ≤ 10)))) }
{
    for commit in 1..21u32 {
        if let Some(feed) = feed_named(alloc, name, commit)? {
            return Ok(Some(MessageNumber { commit, feed }));
        }
    }
    Ok(None)
}

/// The real-time feed whose message of the commit has its file under the name, if there is one.
fn feed_named(alloc: Global, name: &str, commit: u32) -> Result<Option<u32>, Memory>
    ensures { IfOk result (λ found. MatchOption found
        ((feed : ℕ) → 1 ≤ feed → feed ≤ 10 → name.now ≡ message_name commit feed → ⊥)
        (λ feed. (name.now ≡ message_name commit feed) × (1 ≤ feed) × (feed ≤ 10))) }
{
    for feed in 1..11u32 {
        let wanted = message_name(alloc, commit, feed)?;
        if name == wanted.as_str() {
            return Ok(Some(feed));
        }
    }
    Ok(None)
}
