ghost use Rattle.std.specs.Prelude.{IfOk};
ghost use Rattle.std.specs.List.{All};
ghost use Rattle.otp_model.specs.Ranges.{AreOptionsInRange, IsTimely};
ghost use Rattle.plan_bench.specs.Ready.{IsReady};
ghost use Rattle.snapshot_store.specs.Snapshots.{runs_of};

use crate::held::held;
use crate::plans::{Telling, plan_file};
use crate::stop::Stop;
use command_words::MessageWord;
use feed_load::{Loaded, load};
use otp_base::DiskFolder;
use otp_model::{Feed, Options};
use snapshot_store::Snapshot;
use std::time::Instant;
use trip_patterns::Timetable;

/// Loads a feed, builds its snapshot and plans the queries of the files.
pub fn run(
    rt: &HostRuntime,
    path: &str,
    telling: Telling,
    files: &[MessageWord<'_>],
    options: &Options,
) -> Result<(), Stop>
    requires { AreOptionsInRange options.now }
{
    let loaded = loaded(rt, path, telling, options)?;
    let snapshot = built(rt, telling, &loaded.feed)?;
    for file in files {
        plan_file(rt, telling, &loaded, &snapshot, file)?;
    }
    if telling.times {
        let mut status = DiskFolder::new(rt);
        println!(rt; "held kilobytes={}", held(rt.alloc(), &mut status)?)?;
    }
    Ok(())
}

fn loaded(rt: &HostRuntime, path: &str, telling: Telling, options: &Options) -> Result<Loaded, Stop>
    requires { AreOptionsInRange options.now }
    ensures { IfOk result (λ loaded. IsReady loaded.feed loaded.edges) }
{
    let mut folder = DiskFolder::new(rt);
    let start = Instant::now(rt)?;
    let loaded = load(rt.alloc(), &mut folder, path, options)?;
    let took = start.elapsed(rt)?.as_micros();
    if telling.times {
        println!(rt; "load us={took}")?;
    }
    println!(rt; "feed runs={}", loaded.feed.runs.len())?;
    Ok(loaded)
}

fn built(rt: &HostRuntime, telling: Telling, feed: &Feed) -> Result<Snapshot, Stop>
    requires { All IsTimely feed.now.runs }
    ensures { IfOk result (λ snapshot. All IsTimely (runs_of snapshot)) }
{
    let start = Instant::now(rt)?;
    let snapshot = Snapshot::build(rt.alloc(), feed)?;
    let took = start.elapsed(rt)?.as_micros();
    if telling.times {
        println!(rt; "build us={took}")?;
    }
    println!(rt;
        "snapshot blocks={} shapes={}",
        snapshot.block_count(),
        snapshot.shape_count()
    )?;
    Ok(snapshot)
}
