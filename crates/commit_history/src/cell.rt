//! What is published.
ghost use Rattle.std.specs.Prelude.{◌≡◌, IfOk};
ghost use Rattle.std.specs.Arc.{arc_value};

use crate::log::Token;
use left_right::Absorb;
use otp_model::Feed;
use snapshot_store::Snapshot;
use std::alloc::AllocError;
use std::snapshot::Snapshot as Ghost;
use std::sync::Arc;

/// A snapshot, and the number of commits that it stands for. The feed that it is of has no bytes.
#[derive(Drop)]
pub struct EntryOf<F> {
    pub number: u64,
    pub snapshot: Arc<Snapshot>,
    pub feed: F,
}

/// A snapshot, and the number of commits that it stands for. The feed that it is of has no bytes.
pub type Entry = EntryOf<Ghost<Ghost<Feed>>>;

/// An entry, and a token of the history that it stands for.
#[derive(Drop)]
pub struct CellOf<E, T> {
    pub entry: Arc<E>,
    pub seen: T,
}

/// The published cell.
pub type Cell = CellOf<Entry, Token>;

impl Absorb<Cell> for Cell {
    type State = (Entry, Token);

    ghost state = { λ cell. (arc_value cell.entry, cell.seen) };

    ghost applied = { λ _ cell. (arc_value cell.entry, cell.seen) };

    fn absorb_first(&mut self, operation: &Cell, _other: &Cell) -> Result<(), AllocError> {
        self.entry = Arc::try_clone(&operation.entry)?;
        self.seen = operation.seen.again();
        Ok(())
    }

    fn absorb_second(&mut self, operation: Cell, _other: &Cell) -> Result<(), Cell> {
        *self = operation;
        Ok(())
    }
}
