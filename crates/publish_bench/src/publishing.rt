//! A writer that publishes without pause.
ghost use Rattle.std.specs.Prelude.{◌≡◌, ◌+◌, ◌<◌, ◌^◌, [], length, IfOk, OnOk};
ghost use Rattle.std.specs.Arc.{arc_value};
ghost use Rattle.publish_bench.specs.Silence.{HasRunsOf, IsSilent};

use commit_history::{Pass, Writer, open};
use otp_base::{List, Memory};
use otp_model::{Commit, Feed};
use snapshot_store::Snapshot;
use std::alloc::Global;
use std::sync::atomic::{AtomicU64, Ordering};
use std::sync::{Arc, Wait};

/// A history without commits over a feed, and so many passes of it.
pub fn open_at<R: Wait>(
    rt: &R,
    alloc: Global,
    feed: &Feed,
    snapshot: &Arc<Snapshot>,
    readers: usize,
) -> Result<(Writer, Vec<Pass>), Memory>
    requires readers { (0 < readers) × (readers < 2 ^ 32) }
    requires runs { HasRunsOf (arc_value snapshot.now) feed.now }
    ensures feed { IfOk result (λ opened. opened.0.feed ≡ feed.now) }
    ensures empty { IfOk result (λ opened. opened.0.history ≡ []) }
{
    open(rt, alloc, feed, Arc::try_clone(snapshot)?, readers)
}

/// Publishes the same snapshot as long as readers are left, but no more often than so many times, and says how often it did.
pub fn publish_while<R: Wait>(
    rt: &R,
    alloc: Global,
    writer: &mut Writer,
    snapshot: &Arc<Snapshot>,
    left: &AtomicU64,
    most: u32,
) -> Result<u32, Memory>
    requires empty { writer.old.history ≡ [] }
    requires runs { HasRunsOf (arc_value snapshot.now) writer.old.feed }
{
    for count in 0..most {
        if left.load(Ordering::SeqCst) == 0 {
            return Ok(count);
        }
        publish_once(rt, alloc, writer, snapshot)?;
    }
    Ok(most)
}

/// Publishes a commit without messages, after which the schedule is as before it.
fn publish_once<R: Wait>(
    rt: &R,
    alloc: Global,
    writer: &mut Writer,
    snapshot: &Arc<Snapshot>,
) -> Result<(), Memory>
    requires room { length writer.old.history < 2 ^ 40 }
    requires silent { IsSilent writer.old.history }
    requires runs { HasRunsOf (arc_value snapshot.now) writer.old.feed }
    ensures silent { OnOk result (IsSilent writer.new.history) }
    ensures feed { OnOk result (writer.new.feed ≡ writer.old.feed) }
    ensures longer { OnOk result (length writer.new.history ≡ length writer.old.history + 1) }
{
    let commit = Commit {
        messages: List::new(alloc),
    };
    let shown = Arc::try_clone(snapshot)?;
    let _note = writer.publish(rt, alloc, commit, shown)?;
    Ok(())
}
