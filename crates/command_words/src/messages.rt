ghost use Rattle.std.specs.Prelude.{◌≡◌, IfErr, IfOk, IfSome, Some, length, map, option_map};
ghost use Rattle.std.specs.List.{All};
ghost use Rattle.command_words.specs.Commands.{Refuses};
ghost use Rattle.command_words.specs.Messages.{IsOf, all_asked, asked_by, message_in, messages_in};

use crate::command::WordsFault;
use otp_base::number_in;
use std::alloc::Global;

/// A word N=NAME: the file of a message, and the number of its real-time feed, from 1 on.
#[derive(Clone, Copy, Debug, PartialEq, Eq)]
pub struct MessageWord<'a> {
    pub feed_no: u32,
    pub name: &'a str,
}

/// The messages that words name, of so many real-time feeds.
///
/// # Errors
///
/// `Words` where a word isn't N=NAME, cut at its first `=`, with N from 1 to `feeds` and NAME not empty.
pub fn messages_in<'a>(
    alloc: Global,
    feeds: u32,
    words: &[&'a str],
) -> Result<Vec<MessageWord<'a>>, WordsFault>
    ensures reads { IfOk result (λ found. messages_in feeds (map (λ word. word.now) words.now) ≡ Some (all_asked found.items)) }
    ensures refuses { IfErr result (Refuses (messages_in feeds (map (λ word. word.now) words.now))) }
    ensures range { IfOk result (λ found. All (IsOf feeds) found.items) }
    ensures count { IfOk result (λ found. length found.items ≡ length words.now) }
{
    let mut messages = Vec::new(alloc);
    for word in words {
        let Some(message) = message_in(feeds, word) else {
            return Err(WordsFault::Words);
        };
        messages.push(message)?;
    }
    Ok(messages)
}

fn message_in(feeds: u32, word: &str) -> Option<MessageWord<'_>>
    ensures message { option_map asked_by result ≡ message_in feeds word.now }
    ensures range { IfSome result (IsOf feeds) }
{
    let (number, name) = word.split_once('=')?;
    let feed_no = number_in(1, u64::from(feeds), number)?;
    if name.len() == 0 {
        return None;
    }
    Some(MessageWord {
        feed_no: feed_no as u32,
        name,
    })
}
