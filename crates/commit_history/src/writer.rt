//! The writer, and how a history is opened.
ghost use Rattle.std.specs.Prelude.{◌≡◌, ◌+◌, ◌^◌, ◌<◌, ◌≤◌, ◌++◌, ◌∷◌, [], length, All, IfOk, IfSome, OnErr};
ghost use Rattle.std.specs.Arc.{arc_value};
ghost use Rattle.commit_history.specs.Entries.{IsSnapshotOf};
ghost use Rattle.commit_history.specs.Views.{fresh_pass};

use crate::cell::{Cell, CellOf, EntryOf};
use crate::commits::{Commits, CommitsOf};
use crate::note::{Note, Telling};
use crate::pass::{Pass, PassOf};
use crate::rule::{Named, Tells};
use crate::showing::{CellWriter, Showing, show_cell, show_pending};
use otp_base::Memory;
use otp_model::{Commit, Feed};
use snapshot_store::Snapshot;
use std::alloc::Global;
use std::marker::Model;
use std::mem::ManuallyDrop;
use std::sync::{Arc, Wait};

/// The one writer of a history, which keeps the list of commits. It is to be ended by `end`: one that is dropped keeps its memory.
#[derive(Drop)]
pub struct WriterOf<W: Showing, C: Telling> {
    inner: ManuallyDrop<W>,
    commits: C,
}

impl<W: Showing, C: Telling> Model for WriterOf<W, C> {
    ghost use Rattle.std.specs.Prelude.{◌≡◌, [], Some};
    ghost use Rattle.commit_history.specs.Rules.{history_of, name_of, name_with};
    ghost use Rattle.commit_history.specs.Views.{WriterView};
    ghost use Rattle.core.specs.Mem.{manually_drop_value as inner_of};

    ghost Value = { WriterView };

    ghost view = { λ writer. C.told writer.commits };

    ghost invariant = { λ writer.
        ((W.knowledge (inner_of writer.inner)).name ≡ Some (name_with (C.told writer.commits).feed (C.told writer.commits).cell))
        × (name_of (W.shown (inner_of writer.inner)) ≡ name_with (C.told writer.commits).feed (C.told writer.commits).cell)
        × (history_of (W.shown (inner_of writer.inner)) ≡ (C.told writer.commits).history)
        × (W.pending (inner_of writer.inner) ≡ []) };
}

/// The one writer of a history, which keeps the list of commits. It is to be ended by `end`: one that is dropped keeps its memory.
pub type Writer = WriterOf<CellWriter, Commits>;

impl WriterOf<CellWriter, Commits> {
    /// Publishes one commit more, at one step. It may wait for readers.
    ///
    /// # Errors
    ///
    /// `Memory`, after which the history is as before.
    pub fn publish<R: Wait>(
        &mut self,
        rt: &R,
        alloc: Global,
        commit: Commit,
        snapshot: Arc<Snapshot>,
    ) -> Result<Note, Memory>
        requires room { length self.old.history < 2 ^ 40 }
        requires stands { IsSnapshotOf (arc_value snapshot) self.old.feed (self.old.history ++ commit ∷ []) }
        ensures ok { IfOk result (λ note. (self.new ≡ record self.old { history = self.old.history ++ commit ∷ [] }) × (note ≡ self.new)) }
        ensures err { OnErr result (self.new ≡ self.old) }
    {
        let entry = EntryOf {
            number: self.number() + 1,
            snapshot,
            feed: self.commits.feed(),
        };
        let entry = Arc::new(alloc, entry)?;
        self.commits.push(commit)?;
        let cell = CellOf {
            entry,
            seen: self.commits.token(),
        };
        show_cell(&mut *self.inner, rt, cell);
        Ok(self.note())
    }

    /// How many commits were published.
    pub fn number(&self) -> u64
        ensures { result ≡ length self.now.history }
    {
        self.commits.number()
    }

    /// A note that names the whole published history.
    pub fn note(&mut self) -> Note
        ensures same { self.new ≡ self.old }
        ensures note { result ≡ self.old }
    {
        self.commits.note()
    }

    /// A pass that knows nothing yet.
    fn pass(&mut self) -> Option<Pass>
        requires { self.old.history ≡ [] }
        ensures same { self.new ≡ self.old }
        ensures pass { IfSome result (λ pass. pass ≡ fresh_pass self.old) }
    {
        let mut reader = self.inner.factory().reader().ok()?;
        reader.learn::<Named>(self.inner.tell::<Tells>());
        Some(PassOf::new(reader, self.note()))
    }

    /// Uses the writer up. It may wait for readers.
    pub fn end<R: Wait>(self, rt: &R) {
        let WriterOf {
            inner,
            commits: _commits,
        } = self;
        let _last = ManuallyDrop::into_inner(inner).take(rt);
    }
}

/// A history without commits over the base schedule of a feed, and so many passes of it. It may wait for readers.
pub fn open<R: Wait>(
    rt: &R,
    alloc: Global,
    feed: &Feed,
    snapshot: Arc<Snapshot>,
    readers: usize,
) -> Result<(Writer, Vec<Pass>), Memory>
    requires readers { (0 < readers) × (readers < 2 ^ 32) }
    requires base { IsSnapshotOf (arc_value snapshot) feed.now [] }
    ensures writer { IfOk result (λ opened. (opened.0.feed ≡ feed.now) × (opened.0.history ≡ [])) }
    ensures passes { IfOk result (λ opened. (length opened.1.items ≡ readers) × All (λ pass. pass ≡ fresh_pass opened.0) opened.1.items) }
{
    let mut passes = Vec::with_capacity(alloc, readers)?;
    let mut writer = begin_at(rt, alloc, feed, snapshot, readers)?;
    for count in 0..readers {
        let Some(pass) = writer.pass() else {
            writer.end(rt);
            return Err(Memory);
        };
        if passes.push(pass).is_err() {
            writer.end(rt);
            return Err(Memory);
        }
    }
    Ok((writer, passes))
}

/// A writer that knows which history is its own, since it shows the first entry once more.
fn begin_at<R: Wait>(
    rt: &R,
    alloc: Global,
    feed: &Feed,
    snapshot: Arc<Snapshot>,
    readers: usize,
) -> Result<Writer, Memory>
    requires readers { (0 < readers) × (readers < 2 ^ 32) }
    requires base { IsSnapshotOf (arc_value snapshot) feed.now [] }
    ensures { IfOk result (λ writer. (writer.feed ≡ feed.now) × (writer.history ≡ [])) }
{
    let commits = CommitsOf::new(alloc, feed);
    let entry = EntryOf {
        number: 0,
        snapshot,
        feed: commits.feed(),
    };
    let first = CellOf {
        entry: Arc::new(alloc, entry)?,
        seen: commits.token(),
    };
    let second = like(&first)?;
    let third = like(&first)?;
    let mut inner = CellWriter::new(alloc, first, second, readers)?;
    if inner.append(third).is_err() {
        let _last = inner.take(rt);
        return Err(Memory);
    }
    show_pending(&mut inner, rt);
    Ok(WriterOf {
        // It stays unended where the writer is dropped, which keeps its memory.
        inner: unsafe { ManuallyDrop::new_unchecked(inner) },
        commits,
    })
}

/// A cell with the same entry and history.
fn like(cell: &Cell) -> Result<Cell, Memory>
    ensures { IfOk result (λ other. (arc_value other.entry ≡ arc_value cell.now.entry) × (other.seen ≡ cell.now.seen)) }
{
    Ok(CellOf {
        entry: Arc::try_clone(&cell.entry)?,
        seen: cell.seen.again(),
    })
}
