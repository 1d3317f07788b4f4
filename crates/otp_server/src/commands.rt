ghost use Rattle.std.specs.Prelude.{◌≡◌, ◌≤◌, IfErr, IfOk, Err, Ok, length};
ghost use Rattle.std.specs.List.{All};
ghost use Rattle.command_words.specs.Messages.{IsOf, all_asked};
ghost use Rattle.feed_load.specs.Loaded.{IsFeedOf};
ghost use Rattle.feed_load.specs.Runs.{call_count};
ghost use Rattle.otp_base.specs.Faults.{Rose};
ghost use Rattle.otp_model.specs.Limits.{most_calls, most_messages};
ghost use Rattle.otp_model.specs.Ranges.{AreOptionsInRange};
ghost use Rattle.otp_server.specs.Commands.{Checks, IsFeedFault, IsPlanFault, Plans, Spells, counts_of};
ghost use Rattle.reply_bodies.specs.Plans.{IsSearchable};

use crate::counts::counts_line;
use crate::refusal::Refusal;
use crate::reply::planned;
use command_words::MessageWord;
use feed_load::{Loaded, load};
use otp_base::{Folder, List, Memory};
use otp_model::{FeedFault, Options};
use std::alloc::Global;

/// Counts what is in the feed of a folder.
pub fn check<F: Folder>(
    alloc: Global,
    folder: &mut F,
    path: &str,
    options: &Options,
) -> Result<List<u8>, Refusal>
    requires { AreOptionsInRange options.now }
    ensures done { IfOk result (Checks (F.files folder.old) path.now options.now) }
    ensures refused { IfErr result (IsFeedFault (F.files folder.old) path.now options.now) }
    ensures cause { result ≡ Err (Refusal.Feed FeedFault.Read) → Rose (F.faults folder.old) (F.faults folder.new) }
    ensures unchanged { F.files folder.new ≡ F.files folder.old }
    ensures later { F.faults folder.old ≤ F.faults folder.new }
{
    match open(alloc, folder, path, options) {
        Ok(loaded) => Ok(counts(alloc, &loaded)?),
        Err(refusal) => Err(refusal),
    }
}

/// Plans the journeys that a query asks for over the feed of a folder, once these messages are committed.
pub fn plan<F: Folder>(
    alloc: Global,
    folder: &mut F,
    path: &str,
    options: &Options,
    query: &str,
    messages: &[MessageWord<'_>],
) -> Result<List<u8>, Refusal>
    requires options { AreOptionsInRange options.now }
    requires words { All (IsOf options.now.feeds) messages.now }
    requires few { length messages.now ≤ most_messages }
    ensures done { IfOk result (Plans (F.files folder.old) path.now options.now (all_asked messages.now) query.now) }
    ensures refused { IfErr result (IsPlanFault (F.files folder.old) path.now options.now (all_asked messages.now) query.now) }
    ensures cause { result ≡ Err (Refusal.Feed FeedFault.Read) → Rose (F.faults folder.old) (F.faults folder.new) }
    ensures cause_message { result ≡ Err Refusal.Read → Rose (F.faults folder.old) (F.faults folder.new) }
    ensures unchanged { F.files folder.new ≡ F.files folder.old }
    ensures later { F.faults folder.old ≤ F.faults folder.new }
{
    match open(alloc, folder, path, options) {
        Ok(loaded) => planned(alloc, folder, &loaded, options.feeds, query, messages),
        Err(refusal) => Err(refusal),
    }
}

/// Loads the feed.
fn open<F: Folder>(
    alloc: Global,
    folder: &mut F,
    path: &str,
    options: &Options,
) -> Result<Loaded, Refusal>
    requires { AreOptionsInRange options.now }
    ensures spelt { IfOk result (λ loaded. Spells (F.files folder.old) path.now options.now (Ok loaded)) }
    ensures searchable { IfOk result (λ loaded. IsSearchable loaded.feed loaded.edges) }
    ensures few { IfOk result (λ loaded. call_count loaded.feed.runs ≤ 40000000) }
    ensures refused { IfErr result (IsFeedFault (F.files folder.old) path.now options.now) }
    ensures cause { result ≡ Err (Refusal.Feed FeedFault.Read) → Rose (F.faults folder.old) (F.faults folder.new) }
    ensures unchanged { F.files folder.new ≡ F.files folder.old }
    ensures later { F.faults folder.old ≤ F.faults folder.new }
{
    match load(alloc, folder, path, options) {
        Ok(loaded) => Ok(loaded),
        Err(fault) => Err(Refusal::Feed(fault)),
    }
}

/// The line of counts.
fn counts(alloc: Global, loaded: &Loaded) -> Result<List<u8>, Memory>
    requires { call_count loaded.now.feed.runs ≤ most_calls }
    ensures { IfOk result (λ text. text ≡ counts_of loaded.now) }
{
    let line = counts_line(alloc, &loaded.feed, loaded.passed)?;
    let bytes = Vec::from_slice(alloc, line.as_bytes())?;
    Ok(List::from_vec(bytes))
}
