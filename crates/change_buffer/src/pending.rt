ghost use Rattle.std.specs.Prelude.{◌≡◌, ◌<◌, ◌^◌, ◌++◌, IfOk, OnOk, length};
ghost use Rattle.change_buffer.specs.Commits.{numbered, pending_of};

use crate::feed_state::FeedState;
use otp_base::{Copied, List, Memory};
use otp_model::Message;
use std::alloc::Global;

/// The pending messages with the numbers of their feeds, which count from 1.
pub fn pending_messages(alloc: Global, states: &[FeedState]) -> Result<List<(u32, Message)>, Memory>
    requires { length states.now < 2 ^ 32 }
    ensures { IfOk result (λ messages. messages ≡ pending_of states.now) }
{
    let mut messages = List::new(alloc);
    for (place, state) in states.iter().enumerate() {
        push_numbered(alloc, &mut messages, place as u32 + 1, &state.pending)?;
    }
    Ok(messages)
}

fn push_numbered(
    alloc: Global,
    messages: &mut List<(u32, Message)>,
    number: u32,
    message: &Option<Message>,
) -> Result<(), Memory>
    ensures { OnOk result (messages.new ≡ messages.old ++ numbered number message.now) }
{
    let Some(message) = message else {
        return Ok(());
    };
    let copy = message.copy(alloc)?;
    messages.push((number, copy))
}
