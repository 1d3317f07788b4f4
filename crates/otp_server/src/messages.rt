ghost use Rattle.std.specs.Prelude.{◌≡◌, ◌≤◌, List, Err, IfErr, IfOk, OnOk, length};
ghost use Rattle.std.specs.List.{All};
ghost use Rattle.command_words.specs.Messages.{IsOf, all_asked};
ghost use Rattle.otp_base.specs.Faults.{Rose};
ghost use Rattle.otp_model.specs.Limits.{most_messages};
ghost use Rattle.otp_model.specs.Sound.{IsSound};
ghost use Rattle.rt_reader.specs.Spelling.{SpellsMessage};
ghost use Rattle.otp_server.specs.Messages.{IsAfter, IsAfterSome, IsAfterWords, IsMessageFault, IsNext, IsOfFile, IsOlder, IsTakenBy, IsUnreadFile, IsUnspelt, IsUntakenBy, IsWordOf, Told};

use crate::committed::{Committed, Uncommitted};
use crate::refusal::{Refusal, Untaken};
use command_words::MessageWord;
use otp_base::{FileFault, Folder, read_file};
use otp_model::{Feed, Message};
use rt_reader::{MessageFault, read_message};
use rt_resolve::{FeedIndex, Lookup};
use std::alloc::Global;

/// The most bytes of a message.
const MOST_BYTES: u64 = 16_777_216;

/// Commits the messages that words name, one after the other, over a feed with so many real-time feeds.
pub fn committed<F: Folder>(
    alloc: Global,
    folder: &mut F,
    feed: &Feed,
    feeds: u32,
    words: &[MessageWord<'_>],
) -> Result<Committed, Refusal>
    requires sound { IsSound feed.now }
    requires words { All (IsOf feeds) words.now }
    requires few { length words.now ≤ most_messages }
    ensures done { IfOk result (IsAfterWords (F.files folder.old) feed.now feeds (all_asked words.now)) }
    ensures refused { IfErr result (IsMessageFault (F.files folder.old) (all_asked words.now)) }
    ensures cause { result ≡ Err Refusal.Read → Rose (F.faults folder.old) (F.faults folder.new) }
    ensures unchanged { F.files folder.new ≡ F.files folder.old }
    ensures later { F.faults folder.old ≤ F.faults folder.new }
{
    let index = FeedIndex::of(alloc, feed)?;
    commit_words(alloc, folder, &Lookup::of(feed, &index), feeds, words)
}

/// The same over the indices of the feed.
fn commit_words<F: Folder>(
    alloc: Global,
    folder: &mut F,
    lookup: &Lookup<'_>,
    feeds: u32,
    words: &[MessageWord<'_>],
) -> Result<Committed, Refusal>
    requires words { All (IsOf feeds) words.now }
    requires few { length words.now ≤ most_messages }
    ensures done { IfOk result (IsAfterWords (F.files folder.old) lookup.now feeds (all_asked words.now)) }
    ensures refused { IfErr result (IsMessageFault (F.files folder.old) (all_asked words.now)) }
    ensures cause { result ≡ Err Refusal.Read → Rose (F.faults folder.old) (F.faults folder.new) }
    ensures unchanged { F.files folder.new ≡ F.files folder.old }
    ensures later { F.faults folder.old ≤ F.faults folder.new }
{
    let mut committed = Committed::new(alloc, lookup.feed(), feeds)?;
    for (place, word) in words.iter().enumerate() {
        match take_word(alloc, folder, lookup, &mut committed, word) {
            Ok(()) => {}
            Err(Stop::Untaken(why)) => {
                return Err(Refusal::Message {
                    place: place + 1,
                    why,
                });
            }
            Err(Stop::Read) => return Err(Refusal::Read),
            Err(Stop::Memory) => return Err(Refusal::Memory),
        }
    }
    Ok(committed)
}

/// Why the messages go no further.
#[derive(Debug, Drop)]
pub enum Stop {
    /// A word brings no message.
    Untaken(Untaken),
    /// A read of the folder failed.
    Read,
    /// Memory ran out.
    Memory,
}

/// Commits the message that a word names.
fn take_word<F: Folder>(
    alloc: Global,
    folder: &mut F,
    lookup: &Lookup<'_>,
    committed: &mut Committed,
    word: &MessageWord<'_>,
) -> Result<(), Stop>
    requires of { IsWordOf (length committed.old.buffer) word.now }
    requires after { IsAfterSome lookup.now (length committed.old.buffer) committed.old }
    ensures ok { OnOk result ((told : List Told) → IsAfter lookup.now (length committed.old.buffer) told committed.old
        → IsTakenBy (F.files folder.old) lookup.now (length committed.old.buffer) told word.now committed.new) }
    ensures stops { IfErr result (λ stop. (told : List Told) → IsAfter lookup.now (length committed.old.buffer) told committed.old
        → IsUntakenBy (F.files folder.old) told word.now stop) }
    ensures cause { result ≡ Err Stop.Read → Rose (F.faults folder.old) (F.faults folder.new) }
    ensures unchanged { F.files folder.new ≡ F.files folder.old }
    ensures later { F.faults folder.old ≤ F.faults folder.new }
{
    match message_of(alloc, folder, word.name) {
        Ok(message) => take(alloc, lookup, committed, word.feed_no, message),
        Err(stop) => Err(stop),
    }
}

/// Commits a message.
fn take(
    alloc: Global,
    lookup: &Lookup<'_>,
    committed: &mut Committed,
    feed_no: u32,
    message: Message,
) -> Result<(), Stop>
    requires first { 1 ≤ feed_no }
    requires last { feed_no ≤ length committed.old.buffer }
    requires after { IsAfterSome lookup.now (length committed.old.buffer) committed.old }
    ensures ok { OnOk result ((told : List Told) → IsAfter lookup.now (length committed.old.buffer) told committed.old
        → IsNext lookup.now (length committed.old.buffer) told feed_no message committed.new) }
    ensures stops { IfErr result (λ stop. (told : List Told) → IsAfter lookup.now (length committed.old.buffer) told committed.old → IsOlder told feed_no message stop) }
{
    match committed.commit(alloc, lookup, feed_no, message) {
        Ok(()) => Ok(()),
        Err(Uncommitted::Older { have }) => Err(Stop::Untaken(Untaken::Older { have })),
        Err(Uncommitted::Memory) => Err(Stop::Memory),
    }
}

/// The message that a file spells.
fn message_of<F: Folder>(alloc: Global, folder: &mut F, name: &str) -> Result<Message, Stop>
    ensures file { IfOk result (IsOfFile (F.files folder.old) name.now) }
    ensures stops { IfErr result (IsUnreadFile (F.files folder.old) name.now) }
    ensures cause { result ≡ Err Stop.Read → Rose (F.faults folder.old) (F.faults folder.new) }
    ensures unchanged { F.files folder.new ≡ F.files folder.old }
    ensures later { F.faults folder.old ≤ F.faults folder.new }
{
    match read_file(alloc, folder, name, MOST_BYTES) {
        Ok(bytes) => spelt(alloc, bytes.as_slice()),
        Err(FileFault::Missing) => Err(Stop::Untaken(Untaken::Missing)),
        Err(FileFault::TooLarge) => Err(Stop::Untaken(Untaken::Large)),
        Err(FileFault::ReadFault) => Err(Stop::Read),
        Err(FileFault::Memory) => Err(Stop::Memory),
    }
}

/// The message that bytes spell.
fn spelt(alloc: Global, bytes: &[u8]) -> Result<Message, Stop>
    ensures message { IfOk result (SpellsMessage bytes.now) }
    ensures fault { IfErr result (IsUnspelt bytes.now) }
{
    match read_message(alloc, bytes) {
        Ok(message) => Ok(message),
        Err(MessageFault::Memory) => Err(Stop::Memory),
        Err(fault) => Err(Stop::Untaken(Untaken::Unread(fault))),
    }
}
