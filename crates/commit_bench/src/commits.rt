ghost use Rattle.std.specs.Prelude.{◌≡◌, ◌<◌, IfOk};
ghost use Rattle.std.specs.List.{AllPairs};
ghost use Rattle.otp_model.specs.declared.timetable.Feed.{Feed};
ghost use Rattle.snapshot_store.specs.Changing.{IsChangeBelow};
ghost use Rattle.commit_bench.specs.Ready.{IsReady};

use crate::stop::Stop;
use change_buffer::{Buffer, Prepared};
use otp_base::{Memory, Steps};
use otp_model::{Change, Message};
use rt_resolve::{Lookup, Resolved};
use snapshot_store::Snapshot;
use std::alloc::Global;
use std::sync::ledger::{Blank, Ledger};

/// A buffer of one real-time feed.
pub fn buffer_of_one(alloc: Global) -> Result<Buffer, Memory>
    ensures { IfOk result (λ buffer. (feed : Feed) → IsReady feed buffer) }
{
    Buffer::new(alloc, 1)
}

/// What a message changes, as the next one of its feed.
pub fn prepared(
    alloc: Global,
    lookup: &Lookup<'_>,
    buffer: &mut Buffer,
    message: Message,
) -> Result<Prepared, Stop>
    requires { IsReady lookup.now buffer.old }
    ensures ready { IsReady lookup.now buffer.new }
    ensures rise { IfOk result (λ prepared. AllPairs IsChangeBelow prepared.changes) }
{
    let Resolved { changes, .. } = lookup.resolve(alloc, &message)?;
    if buffer.offer(1, message, changes).is_err() {
        return Err(Stop::Older);
    }
    Ok(buffer.prepare(alloc, lookup.feed())?)
}

/// The snapshot after changes.
pub fn applied<L: Ledger>(
    alloc: Global,
    snapshot: &Snapshot,
    changes: &[Change],
    blank: Blank,
) -> Result<Snapshot, Memory>
    requires name { blank.name ≡ L.name }
    requires parts { blank.parts ≡ L.parts }
    requires some { 0 < blank.parts }
    requires rise { AllPairs IsChangeBelow changes.now }
{
    let mut steps = Steps::<L>::new(blank);
    snapshot.with_changes(alloc, changes, &mut steps)
}

/// Makes what is pending the committed messages.
pub fn settle(buffer: &mut Buffer)
    ensures { (feed : Feed) → IsReady feed buffer.old → IsReady feed buffer.new }
{
    buffer.settle();
}
