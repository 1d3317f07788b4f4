//! What the writer tells.
ghost use Rattle.std.specs.Prelude.{◌≡◌, length};

use crate::log::{Reached, Token};
use otp_model::Feed;
use std::marker::Model;
use std::snapshot::Snapshot as Ghost;

/// Which feed it is of. The feed has no bytes.
pub trait OfFeed {
    ghost use Rattle.otp_model.specs.declared.timetable.Feed.{Feed as FeedOf};

    ghost feed: { Self → FeedOf };
}

impl OfFeed for Ghost<Feed> {
    ghost feed = { λ feed. feed.value };
}

impl OfFeed for Ghost<Ghost<Feed>> {
    ghost feed = { λ feed. feed.value.value };
}

/// The published history at a moment. Nothing is kept of it but its length.
#[derive(Drop)]
pub struct NoteOf<T: Reached, F: OfFeed> {
    seen: T,
    feed: F,
    number: u64,
}

impl<T: Reached, F: OfFeed> Model for NoteOf<T, F> {
    ghost use Rattle.std.specs.Prelude.{◌≡◌, length};
    ghost use Rattle.commit_history.specs.Views.{WriterView};

    ghost Value = { WriterView };

    ghost view = { λ note. record { feed = F.feed note.feed; cell = T.book note.seen; history = T.log note.seen } };

    ghost invariant = { λ note. note.number ≡ length (T.log note.seen) };
}

/// What the writer tells: the published history at a moment.
pub type Note = NoteOf<Token, Ghost<Ghost<Feed>>>;

/// The history that somebody tells, with its feed and its cell.
pub trait Telling {
    ghost use Rattle.commit_history.specs.Views.{WriterView};

    ghost told: { Self → WriterView };
}

impl Telling for Note {
    ghost told = { λ note. note };
}

impl NoteOf<Token, Ghost<Ghost<Feed>>> {
    pub(crate) fn new(seen: Token, feed: Ghost<Ghost<Feed>>, number: u64) -> Note
        requires { number ≡ length seen.log }
        ensures { result ≡ record { feed = feed.value.value; cell = seen.book; history = seen.log } }
    {
        NoteOf { seen, feed, number }
    }

    /// The length of the history.
    pub(crate) fn number(&self) -> u64
        ensures { result ≡ length self.now.history }
    {
        self.number
    }

    pub(crate) fn token(&self) -> &Token
        ensures { (result.now.log ≡ self.now.history) × (result.now.book ≡ self.now.cell) }
    {
        &self.seen
    }

    /// Names another history of the same feed.
    pub(crate) fn rename(&mut self, seen: Token, number: u64)
        requires { number ≡ length seen.log }
        ensures { self.new ≡ record self.old { cell = seen.book; history = seen.log } }
    {
        self.seen = seen;
        self.number = number;
    }
}
