ghost use Rattle.std.specs.Prelude.{◌<◌, ◌^◌};
ghost use Rattle.std.specs.Arc.{arc_value};
ghost use Rattle.publish_bench.specs.Silence.{HasRunsOf};

use crate::publishing::{open_at, publish_while};
use crate::race::{Race, Taken, race_lock, race_passes};
use crate::stop::Stop;
use crate::times::Times;
use otp_model::Feed;
use snapshot_store::Snapshot;
use std::alloc::Global;
use std::sync::atomic::AtomicU64;
use std::sync::{Arc, Wait};
use std::thread::Threads;
use std::time::{Clock, Instant};

/// How many readers take views at a time.
const READERS: [usize; 3] = [1, 2, 4];

/// How much is measured: so many rounds, of whose times the one in the middle counts, so many takes of each reader, and so many commits of a
/// writer without readers.
#[derive(Clone, Copy)]
struct Extent {
    rounds: u64,
    takes: u64,
    commits: u32,
}

const TIMED: Extent = Extent {
    rounds: 21,
    takes: 200_000,
    commits: 200_000,
};

const COUNTED: Extent = Extent {
    rounds: 1,
    takes: 1_000,
    commits: 1_000,
};

/// Measures publishing over a feed: the time of a commit without readers, and the times of a take by a pass and of a clone behind
/// a lock, beside a writer each.
pub fn measure_all<R: Print + Clock + Threads + Wait + Sync>(
    rt: &R,
    alloc: Global,
    feed: &Feed,
    timed: bool,
) -> Result<(), Stop> {
    let extent = if timed { TIMED } else { COUNTED };
    let snapshot = Arc::new(alloc, Snapshot::build(alloc, feed)?)?;
    let commits = extent.commits;
    let nanoseconds = time_commits(rt, alloc, feed, &snapshot, extent)?;
    if timed {
        println!(rt; "publish commits={commits} ns={nanoseconds}")?;
    } else {
        println!(rt; "publish commits={commits}")?;
    }
    for readers in READERS {
        let pair = race_both(rt, alloc, feed, &snapshot, readers, extent)?;
        report(rt, readers, timed, extent, pair)?;
    }
    Ok(())
}

/// Races of both kinds, over all rounds, with the time of the one in the middle.
#[derive(Clone, Copy)]
struct Pair {
    passes: Race,
    lock: Race,
}

fn report<R: Print>(
    rt: &R,
    readers: usize,
    timed: bool,
    extent: Extent,
    pair: Pair,
) -> Result<(), Stop> {
    let takes = extent.takes;
    let Taken {
        nanoseconds,
        refused,
        fell,
    } = pair.passes.taken;
    println!(rt; "takes readers={readers} each={takes} refused={refused} fell={fell}")?;
    if timed {
        let clones = pair.lock.taken.nanoseconds;
        let published = pair.passes.shown;
        let replaced = pair.lock.shown;
        println!(rt;
            "race readers={readers} each={takes} pass_ns={nanoseconds} lock_ns={clones} published={published} replaced={replaced}"
        )?;
    }
    Ok(())
}

/// Races of both kinds in turn, so many times.
fn race_both<R: Clock + Threads + Wait + Sync>(
    rt: &R,
    alloc: Global,
    feed: &Feed,
    snapshot: &Arc<Snapshot>,
    readers: usize,
    extent: Extent,
) -> Result<Pair, Stop>
    requires readers { (0 < readers) × (readers < 2 ^ 32) }
    requires runs { HasRunsOf (arc_value snapshot.now) feed.now }
{
    let mut passes = Rounds::new(alloc);
    let mut lock = Rounds::new(alloc);
    for _ in 0..extent.rounds {
        let race = race_passes(rt, alloc, feed, snapshot, readers, extent.takes)?;
        passes.push(race)?;
        let race = race_lock(rt, alloc, snapshot, readers, extent.takes)?;
        lock.push(race)?;
    }
    Ok(Pair {
        passes: passes.together(),
        lock: lock.together(),
    })
}

/// Races of one kind.
#[derive(Drop)]
struct Rounds {
    times: Times,
    taken: Taken,
    shown: u64,
}

impl Rounds {
    fn new(alloc: Global) -> Rounds {
        Rounds {
            times: Times::new(alloc),
            taken: Taken::none(),
            shown: 0,
        }
    }

    fn push(&mut self, race: Race) -> Result<(), Stop> {
        self.times.push(race.taken.nanoseconds)?;
        self.taken = self.taken.and(race.taken);
        self.shown = self.shown.wrapping_add(race.shown);
        Ok(())
    }

    /// What all of them did, with the time of the one in the middle.
    fn together(self) -> Race {
        let Rounds {
            times,
            taken,
            shown,
        } = self;
        Race {
            taken: Taken {
                nanoseconds: times.middle(),
                ..taken
            },
            shown,
        }
    }
}

/// The nanoseconds of so many commits, beside which nobody reads.
fn time_commits<R: Clock + Wait>(
    rt: &R,
    alloc: Global,
    feed: &Feed,
    snapshot: &Arc<Snapshot>,
    extent: Extent,
) -> Result<u128, Stop>
    requires runs { HasRunsOf (arc_value snapshot.now) feed.now }
{
    let mut times = Times::new(alloc);
    for _ in 0..extent.rounds {
        times.push(time_commits_once(rt, alloc, feed, snapshot, extent.commits)?)?;
    }
    Ok(times.middle())
}

fn time_commits_once<R: Clock + Wait>(
    rt: &R,
    alloc: Global,
    feed: &Feed,
    snapshot: &Arc<Snapshot>,
    commits: u32,
) -> Result<u128, Stop>
    requires runs { HasRunsOf (arc_value snapshot.now) feed.now }
{
    let (mut writer, _passes) = open_at(rt, alloc, feed, snapshot, 1)?;
    // One that stays, so that the writer ends by its count.
    let left = AtomicU64::new(1);
    let start = Instant::now(rt)?;
    let published = publish_while(rt, alloc, &mut writer, snapshot, &left, commits);
    let took = start.elapsed(rt)?.as_nanos();
    writer.end(rt);
    published?;
    Ok(took)
}
