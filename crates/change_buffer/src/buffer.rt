ghost use Rattle.std.specs.Prelude.{◌≡◌, ◌-◌, ◌≤◌, List, [], ◌∷◌, ◌++◌, Some, length, map, replicate, slice_get, slice_set, IfOk, OnOk, OnErr};
ghost use Rattle.std.specs.List.{list_any};
ghost use Rattle.std.specs.List.Sorted.{IsPermutation};
ghost use Rattle.otp_model.specs.Patterns.{with_changes};
ghost use Rattle.otp_model.specs.Resolution.{AreChangesOf};
ghost use Rattle.otp_model.specs.Schedule.{AreDifferences, sched};
ghost use Rattle.otp_model.specs.Sound.{IsSound};
ghost use Rattle.otp_model.specs.declared.message.Commit.{Commit};
ghost use Rattle.otp_model.specs.declared.timetable.Feed.{Feed};
ghost use Rattle.change_buffer.specs.Commits.{IsCommitted, pending_of};
ghost use Rattle.change_buffer.specs.Forms.{AreResolved};
ghost use Rattle.change_buffer.specs.Offers.{answer_to, fresh, is_pending, settled, with_message};
ghost use Rattle.change_buffer.specs.declared.feed_state.FeedState.{FeedState};

use crate::difference::differences;
use crate::feed_state::FeedState;
use crate::names_changed::names_in_order;
use crate::offer_fault::OfferFault;
use crate::pending::pending_messages;
use crate::prepared::Prepared;
use otp_base::{List, Memory};
use otp_model::{Change, Commit, Feed, Message};
use std::alloc::Global;
use std::marker::Model;

/// The messages of a number of real-time feeds, each a full dataset of its feed: the one committed last, and
/// the one to be committed next, and beside each the changes that it makes, so that a commit resolves nothing.
#[derive(Drop)]
pub struct Buffer {
    feeds: Vec<FeedState>,
}

impl Model for Buffer {
    ghost use Rattle.std.specs.Prelude.{List, ◌<◌, ◌^◌, length};
    ghost use Rattle.change_buffer.specs.declared.feed_state.FeedState.{FeedState as State};

    ghost Value = { List State };

    ghost view = { λ buffer. buffer.feeds.items };

    ghost invariant = { λ buffer. length buffer.feeds.items < 2 ^ 32 };
}

impl Buffer {
    /// A buffer of so many feeds, of which nothing was accepted.
    pub fn new(alloc: Global, feeds: u32) -> Result<Buffer, Memory>
        ensures fresh { IfOk result (λ buffer. buffer ≡ replicate feeds fresh) }
        ensures committed { IfOk result (λ buffer. IsCommitted buffer []) }
        ensures resolved { IfOk result (λ buffer. (feed : Feed) → AreResolved feed buffer) }
    {
        let mut states = Vec::new(alloc);
        for _ in 0..feeds {
            states.push(FeedState::new(alloc))?;
        }
        Ok(Buffer { feeds: states })
    }

    /// Makes a message the pending one of its feed, in place of an earlier pending one, and answers how many
    /// messages that feed has accepted with it. The changes are those that the message makes, by rising name. An `Err`
    /// changes nothing.
    ///
    /// # Errors
    ///
    /// `Older` exactly where the message has a timestamp below the last one that its feed accepted, which is
    /// `have`; else `CountSpent` exactly where the feed has accepted 2^40 messages. No memory is taken.
    pub fn offer(
        &mut self,
        feed_no: u32,
        message: Message,
        changes: List<Change>,
    ) -> Result<u64, OfferFault>
        requires first { 1 ≤ feed_no }
        requires last { feed_no ≤ length self.old }
        ensures answer { (state : FeedState) → slice_get self.old (feed_no - 1) ≡ Some state → result ≡ answer_to state message }
        ensures ok { OnOk result ((state : FeedState) → slice_get self.old (feed_no - 1) ≡ Some state → self.new ≡ slice_set self.old (feed_no - 1) (with_message state message changes)) }
        ensures err { OnErr result (self.new ≡ self.old) }
        ensures feeds { length self.new ≡ length self.old }
        ensures committed { (history : List Commit) → IsCommitted self.old history → IsCommitted self.new history }
        ensures resolved { (feed : Feed) → AreChangesOf feed message changes → AreResolved feed self.old → AreResolved feed self.new }
    {
        let place = (feed_no - 1) as usize;
        self.feeds[place].offer(message, changes)
    }

    /// Whether some feed has a message that isn't committed.
    pub fn pending(&self) -> bool
        ensures { result ≡ list_any is_pending self.now }
    {
        self.feeds.iter().any(FeedState::is_pending)
    }

    /// The commit of the pending messages, and what it changes in the schedule of the feed over which they were resolved. An
    /// `Err` is want of memory.
    pub fn prepare(&self, alloc: Global, feed: &Feed) -> Result<Prepared, Memory>
        requires sound { IsSound feed.now }
        requires resolved { AreResolved feed.now self.now }
        ensures messages { IfOk result (λ prepared. prepared.commit.messages ≡ pending_of self.now) }
        ensures changes { IfOk result (λ prepared. (history : List Commit) → IsCommitted self.now history
            → AreDifferences (sched feed.now history) (sched feed.now (history ++ prepared.commit ∷ [])) prepared.changes) }
        ensures schedule { IfOk result (λ prepared. (history : List Commit) → IsCommitted self.now history
            → IsPermutation (sched feed.now (history ++ prepared.commit ∷ [])) (with_changes (sched feed.now history) prepared.changes)) }
    {
        let names = names_in_order(alloc, &self.feeds)?;
        let changes = differences(alloc, feed, &self.feeds, names)?;
        let messages = pending_messages(alloc, &self.feeds)?;
        Ok(Prepared {
            commit: Commit { messages },
            changes,
        })
    }

    /// Makes the pending messages the committed ones. It takes no memory.
    pub fn settle(&mut self)
        ensures settled { self.new ≡ map settled self.old }
        ensures feeds { length self.new ≡ length self.old }
        ensures committed { (history : List Commit) (commit : Commit) → commit.messages ≡ pending_of self.old → IsCommitted self.old history
            → IsCommitted self.new (history ++ commit ∷ []) }
        ensures resolved { (feed : Feed) → AreResolved feed self.old → AreResolved feed self.new }
    {
        settle_all(&mut self.feeds);
    }
}

fn settle_all(feeds: &mut [FeedState])
    ensures { feeds.new ≡ map settled feeds.old }
{
    for feed in feeds.iter_mut() {
        feed.settle();
    }
}
