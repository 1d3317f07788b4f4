//! Readers beside a writer, each in a thread of its own.
ghost use Rattle.std.specs.Prelude.{◌<◌, ◌^◌};
ghost use Rattle.std.specs.Arc.{arc_value};
ghost use Rattle.publish_bench.specs.Silence.{HasRunsOf};

use crate::publishing::{open_at, publish_while};
use crate::replacing::replace_while;
use crate::source::{Locked, Source};
use crate::stop::Stop;
use otp_model::Feed;
use snapshot_store::Snapshot;
use std::alloc::{AllocError, Global};
use std::io;
use std::sync::atomic::{AtomicU64, Ordering};
use std::sync::{Arc, Mutex, Wait};
use std::thread::{Threads, join, map_vec};
use std::time::{Clock, Instant};

/// The most commits of one measure, which bounds the memory that the writer takes for them.
const MOST_COMMITS: u32 = 2_000_000;

/// What readers did: the nanoseconds that their takes took together, how many of these gave nothing, and how many a smaller number
/// than the one before.
#[derive(Clone, Copy)]
pub struct Taken {
    pub nanoseconds: u128,
    pub refused: u64,
    pub fell: u64,
}

impl Taken {
    pub fn none() -> Taken {
        Taken {
            nanoseconds: 0,
            refused: 0,
            fell: 0,
        }
    }

    /// Both together.
    pub fn and(self, other: Taken) -> Taken {
        Taken {
            nanoseconds: self.nanoseconds.wrapping_add(other.nanoseconds),
            refused: self.refused.wrapping_add(other.refused),
            fell: self.fell.wrapping_add(other.fell),
        }
    }
}

/// What the readers did, and how many snapshots the writer showed meanwhile.
#[derive(Clone, Copy)]
pub struct Race {
    pub taken: Taken,
    pub shown: u64,
}

/// So many readers, each of which takes so many views by a pass, while a writer publishes.
pub fn race_passes<R: Clock + Threads + Wait + Sync>(
    rt: &R,
    alloc: Global,
    feed: &Feed,
    snapshot: &Arc<Snapshot>,
    readers: usize,
    takes: u64,
) -> Result<Race, Stop>
    requires readers { (0 < readers) × (readers < 2 ^ 32) }
    requires runs { HasRunsOf (arc_value snapshot.now) feed.now }
{
    let (mut writer, passes) = open_at(rt, alloc, feed, snapshot, readers)?;
    let left = AtomicU64::new(readers as u64);
    let (taken, shown) = join(
        rt,
        || read_all(rt, passes, takes, &left),
        || publish_while(rt, alloc, &mut writer, snapshot, &left, MOST_COMMITS),
    );
    writer.end(rt);
    Ok(Race {
        taken: together(taken?.as_slice())?,
        shown: u64::from(shown?),
    })
}

/// So many readers, each of which so many times clones a snapshot behind a lock, while a writer replaces it.
pub fn race_lock<R: Clock + Threads + Wait + Sync>(
    rt: &R,
    alloc: Global,
    snapshot: &Arc<Snapshot>,
    readers: usize,
    takes: u64,
) -> Result<Race, Stop> {
    let shared = Mutex::new(Arc::try_clone(snapshot)?);
    let sources = vec![in alloc; Locked { shared: &shared }; readers]?;
    let left = AtomicU64::new(readers as u64);
    let (taken, shown) = join(
        rt,
        || read_all(rt, sources, takes, &left),
        || replace_while(rt, &shared, snapshot, &left, MOST_COMMITS),
    );
    Ok(Race {
        taken: together(taken?.as_slice())?,
        shown: u64::from(shown?),
    })
}

/// Each source in a thread of its own.
fn read_all<R: Clock + Threads + Wait + Sync, S: Source + Send + Drop>(
    rt: &R,
    sources: Vec<S>,
    takes: u64,
    left: &AtomicU64,
) -> Result<Vec<Option<Taken>>, AllocError> {
    map_vec(rt, sources, &|source| read(rt, source, takes, left))
}

/// Takes so many snapshots, and is no longer left then. None where the clock can't be read.
fn read<R: Clock + Wait, S: Source + Drop>(
    rt: &R,
    source: S,
    takes: u64,
    left: &AtomicU64,
) -> Option<Taken> {
    let timed = time_all(rt, source, takes);
    left.fetch_sub(1, Ordering::SeqCst);
    timed.ok()
}

/// So many takes, and their time.
fn time_all<R: Clock + Wait, S: Source + Drop>(rt: &R, source: S, takes: u64) -> io::Result<Taken> {
    let mut source = source;
    let start = Instant::now(rt)?;
    let taken = take_all(rt, &mut source, takes);
    Ok(Taken {
        nanoseconds: start.elapsed(rt)?.as_nanos(),
        ..taken
    })
}

/// So many takes, of which the time is not told.
fn take_all<R: Wait, S: Source>(rt: &R, source: &mut S, takes: u64) -> Taken {
    let mut taken = Taken::none();
    let mut last = 0u64;
    for _ in 0..takes {
        let Some(number) = source.take_once(rt) else {
            taken.refused = taken.refused.wrapping_add(1);
            continue;
        };
        if number < last {
            taken.fell = taken.fell.wrapping_add(1);
        }
        last = number;
    }
    taken
}

/// What all of them did.
fn together(each: &[Option<Taken>]) -> Result<Taken, Stop> {
    let mut all = Taken::none();
    for one in each {
        let Some(taken) = one else {
            return Err(Stop::Clock);
        };
        all = all.and(*taken);
    }
    Ok(all)
}
