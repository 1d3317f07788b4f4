ghost use Rattle.std.specs.Prelude.{◌≡◌, [], None, Some};
ghost use Rattle.change_buffer.specs.Forms.{changes_now, changes_settled};

use otp_base::List;
use otp_model::Change;
use std::alloc::Global;

/// What the messages of a real-time feed say, by rising name: the committed one, and the pending one if there
/// is one.
#[derive(Debug, Drop)]
pub struct FeedChanges {
    pub committed: List<Change>,
    pub pending: Option<List<Change>>,
}

impl FeedChanges {
    /// What a feed says of which nothing was accepted.
    pub fn new(alloc: Global) -> FeedChanges
        ensures { result ≡ record { committed = []; pending = None } }
    {
        FeedChanges {
            committed: List::new(alloc),
            pending: None,
        }
    }

    /// What the feed says once its pending message, if it has one, is committed.
    pub fn now(&self) -> &[Change]
        ensures { result.now ≡ changes_now self.now }
    {
        match &self.pending {
            Some(pending) => pending.as_slice(),
            None => self.committed.as_slice(),
        }
    }

    /// Makes what the pending message says, if there is one, what the committed one says.
    pub fn settle(&mut self)
        ensures { self.new ≡ changes_settled self.old }
    {
        match self.pending.take() {
            Some(changes) => self.committed = changes,
            None => {}
        }
    }
}
