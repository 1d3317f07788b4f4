ghost use Rattle.std.specs.Prelude.{◌≡◌, ◌≢◌, ◌+◌, ◌<◌, ◌≤◌, ◌^◌, ◌++◌, ◌∷◌, [], Some, length, All, IfOk, OnErr};
ghost use Rattle.std.specs.Arc.{arc_value};
ghost use Rattle.std.specs.Option.{option_map};
ghost use Rattle.otp_model.specs.Desk.{acceptance_by, accepts, commits, fresh_desk, pending_in};
ghost use Rattle.otp_model.specs.Resolution.{AreChangesOf, ignored};
ghost use Rattle.otp_model.specs.Schedule.{sched};
ghost use Rattle.otp_model.specs.Sound.{IsSound};
ghost use Rattle.commit_history.specs.Entries.{IsSnapshotOf};
ghost use Rattle.commit_history.specs.Views.{fresh_pass};
ghost use Rattle.commit_desk.specs.Costs.{IsCostWithin};
ghost use Rattle.commit_desk.specs.Desks.{answer_of, has_pending, writer_of};
ghost use Rattle.commit_desk.specs.Dones.{IsDone};

use crate::done::Done;
use change_buffer::{Buffer, OfferFault, Prepared};
use commit_history::{Note, Pass, Writer};
use otp_base::{List, Memory, Steps};
use otp_model::{Change, Commit, Feed, Message};
use rt_resolve::{FeedIndex, Lookup, Resolved};
use snapshot_store::Snapshot;
use std::alloc::Global;
use std::marker::Model;
use std::sync::ledger::Ledger;
use std::sync::{Arc, Wait};

/// What a desk keeps beside its writer: the messages with their changes, the feed with the index of its ids, and the snapshot after what is published.
#[derive(Drop)]
pub struct Current {
    pub buffer: Buffer,
    pub feed: Arc<Feed>,
    pub index: FeedIndex,
    pub newest: Arc<Snapshot>,
}

/// What a writer has published. A desk is generic over its parts: so it is seen to cross threads.
pub trait Publishing {
    ghost use Rattle.commit_history.specs.Views.{WriterView};

    ghost published: { Self → WriterView };
}

impl Publishing for Writer {
    ghost published = { λ writer. writer };
}

/// What is kept beside a writer.
pub trait Keeping {
    ghost use Rattle.commit_desk.specs.declared.desk.Current.{Current as CurrentOf};

    ghost kept: { Self → CurrentOf };
}

impl Keeping for Current {
    ghost kept = { λ current. current };
}

/// The writer of a history beside what is pending and the newest snapshot. It is to be ended by `end`.
#[derive(Drop)]
pub struct DeskOf<W: Publishing, C: Keeping> {
    writer: W,
    current: C,
}

impl<W: Publishing, C: Keeping> Model for DeskOf<W, C> {
    ghost use Rattle.std.specs.Arc.{arc_value};
    ghost use Rattle.commit_desk.specs.Desks.{DeskView, IsDesk, desk_of};

    ghost Value = { DeskView };

    ghost view = { λ desk. desk_of (W.published desk.writer) (C.kept desk.current).buffer };

    ghost invariant = { λ desk. IsDesk (arc_value (C.kept desk.current).feed) (W.published desk.writer) (C.kept desk.current).buffer (C.kept desk.current).index (arc_value (C.kept desk.current).newest) };
}

/// The writer of a history beside what is pending and the newest snapshot. It is to be ended by `end`.
pub type Desk = DeskOf<Writer, Current>;

/// A commit, and the snapshot after it.
#[derive(Drop)]
struct Next {
    commit: Commit,
    snapshot: Arc<Snapshot>,
}

impl DeskOf<Writer, Current> {
    /// A desk of so many real-time feeds over a feed, and so many passes of it. Nothing is published or accepted. It may wait for
    /// readers.
    pub fn open<R: Wait>(
        rt: &R,
        alloc: Global,
        feed: Arc<Feed>,
        feeds: u32,
        readers: usize,
    ) -> Result<(Desk, Vec<Pass>), Memory>
        requires sound { IsSound (arc_value feed) }
        requires readers { (0 < readers) × (readers < 2 ^ 32) }
        ensures desk { IfOk result (λ opened. (opened.0.feed ≡ arc_value feed) × (opened.0.state ≡ fresh_desk feeds)) }
        ensures passes { IfOk result (λ opened. (length opened.1.items ≡ readers) × All (λ pass. pass ≡ fresh_pass (writer_of opened.0)) opened.1.items) }
    {
        let buffer = Buffer::new(alloc, feeds)?;
        let index = FeedIndex::of(alloc, &feed)?;
        let newest = Arc::new(alloc, Snapshot::build(alloc, &feed)?)?;
        let shown = Arc::try_clone(&newest)?;
        let (writer, passes) = commit_history::open(rt, alloc, &feed, shown, readers)?;
        let current = Current {
            buffer,
            feed,
            index,
            newest,
        };
        let desk = DeskOf { writer, current };
        Ok((desk, passes))
    }

    /// What a message says of the runs of the feed: the changes that it makes, to be handed to `accept` with it, and how many of its
    /// entities are ignored for each of the nine reasons.
    pub fn resolve(&self, alloc: Global, message: &Message) -> Result<Resolved, Memory>
        ensures changes { IfOk result (λ resolved. AreChangesOf self.now.feed message.now resolved.changes) }
        ensures ignored { IfOk result (λ resolved. resolved.ignored ≡ ignored self.now.feed message.now) }
    {
        let lookup = Lookup::of(&self.current.feed, &self.current.index);
        lookup.resolve(alloc, message)
    }

    /// Makes a message, with the changes that `resolve` told of it, the pending one of its real-time feed, in place of an earlier
    /// pending one, and answers how many messages that feed has accepted with it. It takes no memory.
    ///
    /// # Errors
    ///
    /// `Older` exactly where the message has a timestamp below the kept one of its feed, which is `have`; else `CountSpent` exactly
    /// where the feed has accepted 2^40 messages. An `Err` changes nothing.
    pub fn accept(
        &mut self,
        feed_no: u32,
        message: Message,
        changes: List<Change>,
    ) -> Result<u64, OfferFault>
        requires first { 1 ≤ feed_no }
        requires last { feed_no ≤ length self.old.state.slots }
        requires changes { AreChangesOf self.old.feed message changes }
        ensures state { self.new ≡ record self.old { state = accepts feed_no message self.old.state } }
        ensures answer { option_map answer_of (acceptance_by feed_no message self.old.state) ≡ Some result }
    {
        self.current.buffer.offer(feed_no, message, changes)
    }

    /// Publishes what is pending as one commit. It may wait for readers. Each call that is written to a lane counts one step.
    ///
    /// # Errors
    ///
    /// `Memory`, after which all is as before.
    pub fn commit<R: Wait, L: Ledger>(
        &mut self,
        rt: &R,
        alloc: Global,
        steps: &mut Steps<L>,
    ) -> Result<Done, Memory>
        requires room { length self.old.state.history < 2 ^ 40 }
        ensures ok { IfOk result (λ done. (self.new ≡ record self.old { state = commits self.old.state }) × IsDone self.old self.new done) }
        ensures err { OnErr result (self.new ≡ self.old) }
        ensures most { IsCostWithin (sched self.old.feed self.old.state.history) (sched self.old.feed (commits self.old.state).history) steps.old steps.new }
    {
        if !self.current.buffer.pending() {
            let number = self.writer.number();
            return Ok(Done::Nothing {
                number,
                note: self.writer.note(),
            });
        }
        let Next { commit, snapshot } = self.next(alloc, steps)?;
        let shown = Arc::try_clone(&snapshot)?;
        let note = self.writer.publish(rt, alloc, commit, shown)?;
        self.current.buffer.settle();
        self.current.newest = snapshot;
        Ok(Done::Committed {
            number: self.writer.number(),
            note,
        })
    }

    /// The commit of what is pending, and the snapshot after it.
    fn next<L: Ledger>(&self, alloc: Global, steps: &mut Steps<L>) -> Result<Next, Memory>
        requires pending { pending_in self.now.state.slots ≢ [] }
        requires room { length self.now.state.history < 2 ^ 40 }
        ensures messages { IfOk result (λ next. next.commit.messages ≡ pending_in self.now.state.slots) }
        ensures stands { IfOk result (λ next. IsSnapshotOf (arc_value next.snapshot) self.now.feed (self.now.state.history ++ next.commit ∷ [])) }
        ensures most { IsCostWithin (sched self.now.feed self.now.state.history) (sched self.now.feed (commits self.now.state).history) steps.old steps.new }
    {
        let Prepared { commit, changes } = self.current.buffer.prepare(alloc, &self.current.feed)?;
        let snapshot = self
            .current
            .newest
            .with_changes(alloc, changes.as_slice(), steps)?;
        Ok(Next {
            commit,
            snapshot: Arc::new(alloc, snapshot)?,
        })
    }

    /// Whether something is pending.
    pub fn is_pending(&self) -> bool
        ensures { result ≡ has_pending (pending_in self.now.state.slots) }
    {
        self.current.buffer.pending()
    }

    /// How many commits were published.
    pub fn number(&self) -> u64
        ensures { result ≡ length self.now.state.history }
    {
        self.writer.number()
    }

    /// A note that names the whole published history.
    pub fn note(&mut self) -> Note
        ensures same { self.new ≡ self.old }
        ensures note { result ≡ writer_of self.old }
    {
        self.writer.note()
    }

    /// Uses the desk up. It may wait for readers.
    pub fn end<R: Wait>(self, rt: &R) {
        let DeskOf {
            writer,
            current: _current,
        } = self;
        writer.end(rt);
    }
}
