//! What readers have.
ghost use Rattle.std.specs.Prelude.{◌≡◌, ◌+◌, ◌-◌, ◌++◌, ◌∷◌, ◌^◌, [], Some, length, min, IfOk, Err};
ghost use Rattle.std.specs.Arc.{arc_value};
ghost use Rattle.commit_history.specs.Entries.{IsEntry};
ghost use Rattle.commit_history.specs.Rules.{name_with};
ghost use Rattle.commit_history.specs.Views.{EnteredAt, known_by, longest_in};

use crate::counting::{Counted, CountedOf, CountedReader};
use crate::entering::{CellReader, Found};
use crate::known::{Knowing, Known};
use crate::log::compare;
use crate::note::{Note, Telling};
use snapshot_store::Snapshot;
use std::marker::Model;
use std::sync::Arc;

/// A snapshot, and the number of commits that it stands for, at most 2^40.
#[derive(Drop)]
pub struct View {
    pub number: u64,
    pub snapshot: Arc<Snapshot>,
}

/// Why no view was taken.
#[derive(Clone, Copy, Debug, PartialEq, Eq)]
pub enum TakeFault {
    /// The reader was handed back: `turned` has risen.
    Turned,
    /// Memory ran out.
    Memory,
}

/// What one thread knows of the published history, and its right to take views.
#[derive(Drop)]
pub struct PassOf<C: Counted, K: Knowing, N: Telling> {
    counted: C,
    known: K,
    // The longest history that it knows.
    longest: N,
}

impl<C: Counted, K: Knowing, N: Telling> Model for PassOf<C, K, N> {
    ghost use Rattle.std.specs.Prelude.{◌≡◌, Some, length};
    ghost use Rattle.otp_model.specs.Core.{Extends};
    ghost use Rattle.commit_history.specs.Rules.{name_with};
    ghost use Rattle.commit_history.specs.Views.{PassView, longest_in};

    ghost Value = { PassView };

    ghost view = { λ pass. record {
      feed = (N.told pass.longest).feed;
      cell = (N.told pass.longest).cell;
      known = K.histories pass.known;
      entered = (C.knowledge pass.counted).entered;
      turned = C.turned pass.counted;
    } };

    ghost invariant = { λ pass.
        ((C.knowledge pass.counted).name ≡ Some (name_with (N.told pass.longest).feed (N.told pass.longest).cell))
        × (length (N.told pass.longest).history ≡ longest_in (K.histories pass.known))
        × Extends (N.told pass.longest).history (K.histories pass.known) };
}

/// What one thread knows of the published history, and its right to take views.
pub type Pass = PassOf<CountedReader, Known, Note>;

impl PassOf<CountedReader, Known, Note> {
    /// A pass that knows nothing yet.
    pub(crate) fn new(reader: CellReader, none: Note) -> Pass
        requires name { (known_by reader.place).name ≡ Some (name_with none.feed none.cell) }
        requires empty { none.history ≡ [] }
        ensures { result ≡ record { feed = none.feed; cell = none.cell; known = []; entered = (known_by reader.place).entered; turned = 0 } }
    {
        PassOf {
            counted: CountedOf { reader, turned: 0 },
            known: Known::nothing(),
            longest: none,
        }
    }

    /// The snapshot after a beginning of the published history that begins with all that the pass knew. It waits for nobody.
    ///
    /// # Errors
    ///
    /// `Turned` only where the count of `turned` rose in this call (or stands at the greatest number); the pass then knows what it
    /// knew. After `Memory` it knows a history that begins with all that it knew.
    pub fn take(&mut self) -> Result<View, TakeFault>
        ensures ok { IfOk result (λ view. (history : _) × EnteredAt self.old self.new history × IsEntry self.old.feed history view.number (arc_value view.snapshot)) }
        ensures turned { result ≡ Err TakeFault.Turned → self.new ≡ record self.old { turned = min (self.old.turned + 1) (2 ^ 64 - 1) } }
        ensures memory { result ≡ Err TakeFault.Memory → (history : _) × EnteredAt self.old self.new history }
    {
        let Some(
            Found {
                number,
                snapshot,
                seen,
            },
        ) = self.counted.take()
        else {
            return Err(TakeFault::Turned);
        };
        // No order of steps brings it about, but the rule of the cell doesn't know what a pass was told.
        if number < self.longest.number() {
            self.known = Known::one(self.longest.token());
            return Err(TakeFault::Memory);
        }
        compare(self.longest.token(), &seen);
        self.known = Known::one(&seen);
        self.longest.rename(seen, number);
        let Ok(snapshot) = snapshot else {
            return Err(TakeFault::Memory);
        };
        Ok(View { number, snapshot })
    }

    /// Takes in what was told. It waits for nobody, and takes no memory.
    pub fn learn(&mut self, note: Note)
        requires feed { note.feed ≡ self.old.feed }
        requires cell { note.cell ≡ self.old.cell }
        ensures { self.new ≡ record self.old { known = self.old.known ++ note.history ∷ [] } }
    {
        self.known = self.known.then(note.token());
        if note.number() <= self.longest.number() {
            compare(note.token(), self.longest.token());
            return;
        }
        compare(self.longest.token(), note.token());
        self.longest = note;
    }

    /// The greatest number of commits in a history that the pass knows, 0 where it knows none.
    pub fn seen(&self) -> u64
        ensures { result ≡ longest_in self.now.known }
    {
        self.longest.number()
    }

    /// How often the reader was handed back. At the greatest number the count stands still.
    pub fn turned(&self) -> u64
        ensures { result ≡ self.now.turned }
    {
        self.counted.turned
    }
}
