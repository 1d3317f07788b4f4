//! A reader that counts how often it was handed back.
ghost use Rattle.std.specs.Prelude.{◌≡◌, ◌+◌, ◌-◌, ◌^◌, min, MatchOption};
ghost use Rattle.commit_history.specs.Takes.{Takes};
ghost use Rattle.commit_history.specs.Views.{known_by};

use crate::entering::{CellReader, Found, enter};

/// A reader, and how often it was handed back.
#[derive(Drop)]
pub struct CountedOf<R> {
    pub reader: R,
    pub turned: u64,
}

/// What a reader of the cell knows, and how often it was handed back.
pub trait Counted {
    ghost use Rattle.std.specs.Prelude.{ℕ};
    ghost use Rattle.commit_history.specs.declared.rule.Knowledge.{Knowledge};

    ghost knowledge: { Self → Knowledge };

    ghost turned: { Self → ℕ };
}

pub type CountedReader = CountedOf<CellReader>;

impl Counted for CountedReader {
    ghost knowledge = { λ counted. known_by counted.reader.place };

    ghost turned = { λ counted. counted.turned };
}

impl CountedOf<CellReader> {
    /// Enters, and copies what it finds. The count rises where the reader is handed back, and nowhere else; it stands still at the
    /// greatest number.
    pub fn take(&mut self) -> Option<Found>
        ensures { MatchOption result
            ((known_by self.new.reader.place ≡ known_by self.old.reader.place) × (self.new.turned ≡ min (self.old.turned + 1) (2 ^ 64 - 1)))
            (λ found. Takes (known_by self.old.reader.place) (known_by self.new.reader.place) found × (self.new.turned ≡ self.old.turned)) }
    {
        let found = core::mem::replace_with(&mut self.reader, (), enter);
        if found.is_none() {
            self.turned = self.turned.saturating_add(1);
        }
        found
    }
}
