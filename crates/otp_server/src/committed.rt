ghost use Rattle.std.specs.Prelude.{◌≡◌, ℕ, ◌<◌, ◌≤◌, ◌++◌, [], ◌∷◌, List, None, Some, IfErr, IfOk, OnOk, length, map};
ghost use Rattle.std.specs.List.Sorted.{IsPermutation};
ghost use Rattle.change_buffer.specs.Commits.{IsCommitted, pending_of};
ghost use Rattle.change_buffer.specs.Forms.{AreResolved};
ghost use Rattle.change_buffer.specs.Offers.{above_of, settled};
ghost use Rattle.otp_model.specs.Resolution.{AreChangesOf};
ghost use Rattle.otp_model.specs.Schedule.{sched};
ghost use Rattle.otp_model.specs.Sound.{IsSound};
ghost use Rattle.otp_model.specs.declared.message.Commit.{Commit as CommitOf};
ghost use Rattle.snapshot_store.specs.Snapshots.{runs_of};
ghost use Rattle.otp_server.specs.Messages.{IsAfter, IsAfterSome, Told, timestamp_of};
ghost use Rattle.otp_server.specs.declared.committed.Uncommitted.TheVariants as uncommitted;

use change_buffer::{Buffer, OfferFault};
use otp_base::{List, Memory, Steps};
use otp_model::{Change, Feed, Message};
use rt_resolve::{Lookup, Resolved};
use snapshot_store::Snapshot;
use std::alloc::Global;
use std::marker::Brand;
use std::sync::ledger::{Blank, Ledger};

/// The real-time messages that were committed over a feed, and the schedule after them.
#[derive(Drop)]
pub struct Committed {
    pub buffer: Buffer,
    pub snapshot: Snapshot,
}

/// Why a message wasn't committed.
#[derive(Clone, Copy, Debug)]
pub enum Uncommitted {
    /// Its timestamp is below `have`, the last one of its feed.
    Older { have: u64 },
    /// Memory ran out.
    Memory,
}

impl Committed {
    /// A feed over which nothing was committed, with so many real-time feeds.
    pub fn new(alloc: Global, feed: &Feed, feeds: u32) -> Result<Committed, Memory>
        requires { IsSound feed.now }
        ensures { IfOk result (IsAfter feed.now feeds []) }
    {
        let buffer = Buffer::new(alloc, feeds)?;
        let snapshot = Snapshot::build(alloc, feed)?;
        Ok(Committed { buffer, snapshot })
    }

    /// Commits a message of a real-time feed by itself. After an `Err` it is given up.
    pub fn commit(
        &mut self,
        alloc: Global,
        lookup: &Lookup<'_>,
        feed_no: u32,
        message: Message,
    ) -> Result<(), Uncommitted>
        requires first { 1 ≤ feed_no }
        requires last { feed_no ≤ length self.old.buffer }
        requires after { IsAfterSome lookup.now (length self.old.buffer) self.old }
        ensures ok { OnOk result ((told : List Told) → IsAfter lookup.now (length self.old.buffer) told self.old
            → (above_of (timestamp_of told feed_no) message.timestamp ≡ None) × IsAfter lookup.now (length self.old.buffer) (told ++ (feed_no, message) ∷ []) self.new) }
        ensures older { IfErr result (λ why. (have : ℕ) → why ≡ uncommitted.Older have → (told : List Told) → IsAfter lookup.now (length self.old.buffer) told self.old
            → above_of (timestamp_of told feed_no) message.timestamp ≡ Some have) }
    {
        let Ok(Resolved { changes, .. }) = lookup.resolve(alloc, &message) else {
            return Err(Uncommitted::Memory);
        };
        self.commit_resolved(alloc, lookup, feed_no, message, changes)
    }

    /// Commits a message with the changes that it makes.
    fn commit_resolved(
        &mut self,
        alloc: Global,
        lookup: &Lookup<'_>,
        feed_no: u32,
        message: Message,
        changes: List<Change>,
    ) -> Result<(), Uncommitted>
        requires first { 1 ≤ feed_no }
        requires last { feed_no ≤ length self.old.buffer }
        requires after { IsAfterSome lookup.now (length self.old.buffer) self.old }
        requires changes { AreChangesOf lookup.now message changes }
        ensures ok { OnOk result ((told : List Told) → IsAfter lookup.now (length self.old.buffer) told self.old
            → (above_of (timestamp_of told feed_no) message.timestamp ≡ None) × IsAfter lookup.now (length self.old.buffer) (told ++ (feed_no, message) ∷ []) self.new) }
        ensures older { IfErr result (λ why. (have : ℕ) → why ≡ uncommitted.Older have → (told : List Told) → IsAfter lookup.now (length self.old.buffer) told self.old
            → above_of (timestamp_of told feed_no) message.timestamp ≡ Some have) }
    {
        match self.buffer.offer(feed_no, message, changes) {
            Ok(_) => self.publish::<Brand>(alloc, lookup, Blank::new(1)),
            Err(OfferFault::Older { have }) => Err(Uncommitted::Older { have }),
            Err(OfferFault::CountSpent) => unreachable!(),
            Err(OfferFault::Memory) => Err(Uncommitted::Memory),
        }
    }

    /// Commits what is pending.
    fn publish<L: Ledger>(
        &mut self,
        alloc: Global,
        lookup: &Lookup<'_>,
        blank: Blank,
    ) -> Result<(), Uncommitted>
        requires name { blank.name ≡ L.name }
        requires parts { blank.parts ≡ L.parts }
        requires some { 0 < blank.parts }
        requires committed { (history : List CommitOf) × IsCommitted self.old.buffer history }
        requires resolved { AreResolved lookup.now self.old.buffer }
        ensures buffer { OnOk result (self.new.buffer ≡ map settled self.old.buffer) }
        ensures committed { OnOk result ((history : List CommitOf) (commit : CommitOf) → commit.messages ≡ pending_of self.old.buffer
            → IsCommitted self.old.buffer history → IsCommitted self.new.buffer (history ++ commit ∷ [])) }
        ensures stands { OnOk result ((history : List CommitOf) (commit : CommitOf) → commit.messages ≡ pending_of self.old.buffer
            → IsCommitted self.old.buffer history → IsPermutation (sched lookup.now history) (runs_of self.old.snapshot)
            → IsPermutation (sched lookup.now (history ++ commit ∷ [])) (runs_of self.new.snapshot)) }
        ensures resolved { OnOk result (AreResolved lookup.now self.new.buffer) }
        ensures memory { IfErr result (λ why. why ≡ uncommitted.Memory) }
    {
        let mut steps = Steps::<L>::new(blank);
        let prepared = match self.buffer.prepare(alloc, lookup.feed()) {
            Ok(prepared) => prepared,
            Err(_) => return Err(Uncommitted::Memory),
        };
        match self
            .snapshot
            .with_changes(alloc, prepared.changes.as_slice(), &mut steps)
        {
            Ok(snapshot) => self.snapshot = snapshot,
            Err(_) => return Err(Uncommitted::Memory),
        }
        self.buffer.settle();
        Ok(())
    }
}
