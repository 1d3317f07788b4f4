ghost use Rattle.std.specs.Prelude.{◌≡◌, IfOk};
ghost use Rattle.otp_model.specs.Ranges.{AreOptionsInRange};
ghost use Rattle.otp_model.specs.Sound.{IsSound};
ghost use Rattle.rt_resolve.specs.Indices.{IsIndexOf};
ghost use Rattle.commit_bench.specs.Ready.{IsReady};

use crate::commits::{applied, buffer_of_one, prepared, settle};
use crate::resident::resident;
use crate::stop::Stop;
use change_buffer::Buffer;
use command_words::MessageWord;
use feed_load::load;
use otp_base::{DiskFolder, Folder, read_file};
use otp_model::{Feed, Message, Options};
use rt_reader::read_message;
use rt_resolve::{FeedIndex, Lookup};
use snapshot_store::Snapshot;
use std::alloc::Global;
use std::marker::Brand;
use std::sync::ledger::Blank;
use std::time::Instant;
use trip_patterns::Timetable;

/// The most bytes of a message.
const MOST_BYTES: u64 = 16_777_216;

/// Loads a feed, builds its snapshot and commits the messages that words name, one after the other, all as those of one
/// real-time feed.
pub fn run(
    rt: &HostRuntime,
    path: &str,
    timed: bool,
    words: &[MessageWord<'_>],
    options: &Options,
) -> Result<(), Stop>
    requires { AreOptionsInRange options.now }
{
    let mut folder = DiskFolder::new(rt);
    let start = Instant::now(rt)?;
    let loaded = load(rt.alloc(), &mut folder, path, options)?;
    let took = start.elapsed(rt)?.as_micros();
    if timed {
        println!(rt; "load us={took}")?;
    }
    println!(rt; "feed runs={}", loaded.feed.runs.len())?;
    commit_all(rt, timed, &loaded.feed, words)
}

/// Commits the messages that words name. As in a server, the snapshot before the latest one is kept, which readers may still have.
fn commit_all(
    rt: &HostRuntime,
    timed: bool,
    feed: &Feed,
    words: &[MessageWord<'_>],
) -> Result<(), Stop>
    requires { IsSound feed.now }
{
    let alloc = rt.alloc();
    let mut buffer = buffer_of_one(alloc)?;
    let index = indexed(rt, timed, feed)?;
    let lookup = Lookup::of(feed, &index);
    let mut latest = built(rt, timed, feed)?;
    let mut earlier = None;
    for word in words {
        let next = committed(rt, timed, &lookup, &mut buffer, &latest, word.name)?;
        earlier = Some(latest);
        latest = next;
    }
    let kept = if earlier.is_some() { 2 } else { 1 };
    println!(rt; "kept snapshots={kept}")?;
    Ok(())
}

/// The index of a feed.
fn indexed(rt: &HostRuntime, timed: bool, feed: &Feed) -> Result<FeedIndex, Stop>
    requires { IsSound feed.now }
    ensures { IfOk result (IsIndexOf feed.now) }
{
    let start = Instant::now(rt)?;
    let index = FeedIndex::of(rt.alloc(), feed)?;
    let took = start.elapsed(rt)?.as_micros();
    if timed {
        println!(rt; "index us={took}")?;
    }
    Ok(index)
}

/// The snapshot of a feed.
fn built(rt: &HostRuntime, timed: bool, feed: &Feed) -> Result<Snapshot, Stop> {
    let mut folder = DiskFolder::new(rt);
    let before = resident(rt.alloc(), &mut folder)?;
    let start = Instant::now(rt)?;
    let snapshot = Snapshot::build(rt.alloc(), feed)?;
    let took = start.elapsed(rt)?.as_micros();
    let after = resident(rt.alloc(), &mut folder)?;
    if timed {
        println!(rt; "build us={took} kilobytes_before={before} kilobytes={after}")?;
    }
    println!(rt; "snapshot blocks={}", snapshot.block_count())?;
    Ok(snapshot)
}

/// The snapshot after the message of a file.
fn committed(
    rt: &HostRuntime,
    timed: bool,
    lookup: &Lookup<'_>,
    buffer: &mut Buffer,
    latest: &Snapshot,
    name: &str,
) -> Result<Snapshot, Stop>
    requires { IsReady lookup.now buffer.old }
    ensures { IsReady lookup.now buffer.new }
{
    let alloc = rt.alloc();
    let mut folder = DiskFolder::new(rt);
    let start = Instant::now(rt)?;
    let message = message_of(alloc, &mut folder, name)?;
    let read = start.elapsed(rt)?.as_micros();
    let start = Instant::now(rt)?;
    let prepared = prepared(alloc, lookup, buffer, message)?;
    let prepare = start.elapsed(rt)?.as_micros();
    let start = Instant::now(rt)?;
    let snapshot = applied::<Brand>(alloc, latest, prepared.changes.as_slice(), Blank::new(1))?;
    settle(buffer);
    let apply = start.elapsed(rt)?.as_micros();
    let held = resident(alloc, &mut folder)?;
    if timed {
        println!(rt;
            "commit read_us={read} prepare_us={prepare} apply_us={apply} kilobytes={held}"
        )?;
    }
    println!(rt;
        "message changes={} blocks={}",
        prepared.changes.len(),
        snapshot.block_count()
    )?;
    Ok(snapshot)
}

/// The message of a file.
fn message_of<F: Folder>(alloc: Global, folder: &mut F, name: &str) -> Result<Message, Stop> {
    let Ok(bytes) = read_file(alloc, folder, name, MOST_BYTES) else {
        return Err(Stop::Message);
    };
    match read_message(alloc, bytes.as_slice()) {
        Ok(message) => Ok(message),
        Err(_) => Err(Stop::Message),
    }
}
