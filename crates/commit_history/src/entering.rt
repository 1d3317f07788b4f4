//! The step by which a reader enters the cell.
ghost use Rattle.std.specs.Prelude.{◌≡◌, MatchOption};
ghost use Rattle.commit_history.specs.Takes.{Takes};
ghost use Rattle.commit_history.specs.Views.{known_by};

use crate::cell::Cell;
use crate::log::Token;
use crate::rule::{CellRule, Enters, Knowledge};
use left_right::reader::Reader;
use snapshot_store::Snapshot;
use std::alloc::AllocError;
use std::sync::Arc;

/// What was found at an entering step.
#[derive(Drop)]
pub struct Found {
    pub number: u64,
    pub snapshot: Result<Arc<Snapshot>, AllocError>,
    pub seen: Token,
}

/// A reader of the cell, of which contracts see what it knows.
pub type CellReader = Reader<Cell, Knowledge, CellRule>;

/// Enters and leaves, and copies what it finds. None where the reader is handed back, of which `left_right` doesn't say when it is.
pub fn enter(reader: CellReader, _unit: ()) -> (CellReader, Option<Found>)
    ensures { MatchOption result.1 (known_by result.0.place ≡ known_by reader.place) (λ found. Takes (known_by reader.place) (known_by result.0.place) found) }
{
    match reader.enter_as::<Enters>() {
        Ok(reading) => {
            let cell = reading.get();
            let number = cell.entry.number;
            let snapshot = Arc::try_clone(&cell.entry.snapshot);
            let seen = cell.seen.again();
            let found = Found {
                number,
                snapshot,
                seen,
            };
            (reading.leave(), Some(found))
        }
        Err(reader) => (reader, None),
    }
}
