//! The histories that a pass knows. They are there in proofs alone: nothing is kept of them but whether there is one.
ghost use Rattle.std.specs.Prelude.{◌≡◌, ◌++◌, ◌∷◌, []};
ghost use Rattle.commit_history.specs.Histories.{histories_of};

use crate::log::Token;
use std::snapshot::Snapshot as Ghost;

#[derive(Drop)]
pub enum Known {
    Nothing,
    More(Ghost<Token>, Ghost<Known>),
}

/// The histories that somebody knows.
pub trait Knowing {
    ghost use Rattle.std.specs.Prelude.{List};
    ghost use Rattle.otp_model.specs.declared.message.Commit.{Commit};

    ghost histories: { Self → List (List Commit) };
}

impl Knowing for Known {
    ghost histories = { histories_of };
}

impl Known {
    pub fn nothing() -> Known
        ensures { histories_of result ≡ [] }
    {
        Known::Nothing
    }

    /// One history.
    pub fn one(seen: &Token) -> Known
        ensures { histories_of result ≡ seen.now.log ∷ [] }
    {
        Known::nothing().then(seen)
    }

    /// One history more.
    pub fn then(&self, seen: &Token) -> Known
        ensures { histories_of result ≡ histories_of self.now ++ seen.now.log ∷ [] }
    {
        Known::More(Ghost::of(seen), Ghost::of(self))
    }
}
