//! The commits that were published, and the log that says so.
ghost use Rattle.std.specs.Prelude.{◌≡◌, ◌<◌, ◌^◌, ◌++◌, ◌∷◌, [], length, OnErr, OnOk};

use crate::log::{Head, Reached, Token, add, begin};
use crate::note::{Note, NoteOf, OfFeed, Telling};
use otp_base::{List, Memory};
use otp_model::{Commit, Feed};
use std::alloc::Global;
use std::marker::Model;
use std::snapshot::Snapshot as Ghost;

/// Which word of which book it is.
pub trait Placed {
    ghost use Rattle.logbook.specs.Pages.{Named};

    ghost place: { Self → Named };
}

impl Placed for Head {
    ghost place = { λ head. head };
}

/// The commits of a feed, in order.
#[derive(Drop)]
pub struct CommitsOf<H: Placed, T: Reached, F: OfFeed> {
    head: H,
    seen: T,
    commits: List<Commit>,
    feed: F,
}

impl<H: Placed, T: Reached, F: OfFeed> Model for CommitsOf<H, T, F> {
    ghost use Rattle.std.specs.Prelude.{◌≡◌};
    ghost use Rattle.commit_history.specs.Logs.{head_of};
    ghost use Rattle.commit_history.specs.Views.{WriterView};

    ghost Value = { WriterView };

    ghost view = { λ commits. record { feed = F.feed commits.feed; cell = T.book commits.seen; history = commits.commits } };

    ghost invariant = { λ commits. (T.log commits.seen ≡ commits.commits) × (H.place commits.head ≡ head_of (T.book commits.seen)) };
}

pub type Commits = CommitsOf<Head, Token, Ghost<Feed>>;

impl Telling for Commits {
    ghost told = { λ commits. commits };
}

impl CommitsOf<Head, Token, Ghost<Feed>> {
    /// No commit of a feed.
    pub fn new(alloc: Global, feed: &Feed) -> Commits
        ensures feed { result.feed ≡ feed.now }
        ensures empty { result.history ≡ [] }
    {
        let (head, seen) = begin();
        CommitsOf {
            head,
            seen,
            commits: List::new(alloc),
            feed: Ghost::of(feed),
        }
    }

    /// Adds a commit. An `Err` changes nothing.
    pub fn push(&mut self, commit: Commit) -> Result<(), Memory>
        requires { length self.old.history < 2 ^ 40 }
        ensures ok { OnOk result (self.new ≡ record self.old { history = self.old.history ++ commit ∷ [] }) }
        ensures err { OnErr result (self.new ≡ self.old) }
    {
        let number = self.number();
        let copy = Ghost::of(&commit);
        self.commits.push(commit)?;
        let Some(seen) = add(&self.head, &self.seen, number, &copy) else {
            take_back(&mut self.commits);
            return Err(Memory);
        };
        self.seen = seen;
        Ok(())
    }

    pub fn number(&self) -> u64
        ensures { result ≡ length self.now.history }
    {
        self.commits.len() as u64
    }

    /// A note that names all of them.
    pub fn note(&self) -> Note
        ensures { result ≡ self.now }
    {
        NoteOf::new(self.token(), self.feed(), self.number())
    }

    pub fn token(&self) -> Token
        ensures { (result.log ≡ self.now.history) × (result.book ≡ self.now.cell) }
    {
        self.seen.again()
    }

    pub fn feed(&self) -> Ghost<Ghost<Feed>>
        ensures { result.value.value ≡ self.now.feed }
    {
        Ghost::of(&self.feed)
    }
}

/// Takes the last commit off the list.
fn take_back(commits: &mut List<Commit>)
    requires { 0 < length commits.old }
    ensures { (commit : _) × (commits.old ≡ commits.new ++ commit ∷ []) }
{
    commits.pop();
}
