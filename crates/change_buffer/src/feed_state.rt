ghost use Rattle.std.specs.Prelude.{◌≡◌, OnOk, OnErr};
ghost use Rattle.change_buffer.specs.Offers.{above_of, answer_to, fresh, is_pending, settled, with_message};

use crate::feed_changes::FeedChanges;
use crate::offer_fault::OfferFault;
use otp_base::List;
use otp_model::{Change, Message};
use std::alloc::Global;

/// The greatest count of accepted messages.
const MOST_ACCEPTED: u64 = 1 << 40;

/// What a buffer keeps of one real-time feed: how many messages were accepted, the timestamp of the last of
/// them that had one, the message that was committed last, the one that the next commit publishes, and what the two say.
#[derive(Debug, Drop)]
pub struct FeedState {
    pub accepted: u64,
    pub timestamp: Option<u64>,
    pub committed: Option<Message>,
    pub pending: Option<Message>,
    pub said: FeedChanges,
}

impl FeedState {
    /// A feed of which nothing was accepted.
    pub fn new(alloc: Global) -> FeedState
        ensures { result ≡ fresh }
    {
        FeedState {
            accepted: 0,
            timestamp: None,
            committed: None,
            pending: None,
            said: FeedChanges::new(alloc),
        }
    }

    /// Makes a message, which makes these changes, the pending one, and answers how many were accepted with it. An `Err`
    /// changes nothing.
    pub fn offer(&mut self, message: Message, changes: List<Change>) -> Result<u64, OfferFault>
        ensures answer { result ≡ answer_to self.old message }
        ensures ok { OnOk result (self.new ≡ with_message self.old message changes) }
        ensures err { OnErr result (self.new ≡ self.old) }
    {
        if let Some(have) = above(self.timestamp, message.timestamp) {
            return Err(OfferFault::Older { have });
        }
        if self.accepted >= MOST_ACCEPTED {
            return Err(OfferFault::CountSpent);
        }
        self.accepted += 1;
        self.timestamp = message.timestamp.or(self.timestamp);
        self.pending = Some(message);
        self.said.pending = Some(changes);
        Ok(self.accepted)
    }

    /// Whether it has a message that isn't committed.
    pub fn is_pending(&self) -> bool
        ensures { result ≡ is_pending self.now }
    {
        match self.pending {
            Some(_) => true,
            None => false,
        }
    }

    /// Makes the pending message, if there is one, the committed one.
    pub fn settle(&mut self)
        ensures { self.new ≡ settled self.old }
    {
        match self.pending.take() {
            Some(message) => self.committed = Some(message),
            None => {}
        }
        self.said.settle();
    }
}

/// The kept timestamp, where a message's is below it.
fn above(kept: Option<u64>, timestamp: Option<u64>) -> Option<u64>
    ensures { result ≡ above_of kept timestamp }
{
    match (kept, timestamp) {
        (Some(kept), Some(timestamp)) if timestamp < kept => Some(kept),
        _ => None,
    }
}
