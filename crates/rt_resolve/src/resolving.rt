ghost use Rattle.std.specs.Prelude.{◌≡◌, IfOk};
ghost use Rattle.otp_model.specs.Resolution.{AreChangesOf, ignored, judged_all};
ghost use Rattle.otp_model.specs.Sound.{IsSound};
ghost use Rattle.rt_resolve.specs.Tallies.{Tallies};

use crate::judging::judge;
use crate::lookup::{FeedIndex, Lookup};
use crate::tally::{Tally, changes_of};
use otp_base::{List, Memory};
use otp_model::{Change, Feed, Message};
use std::alloc::Global;

/// What a message says of the runs of a feed: the changes that it makes, by rising name and at most one of a name,
/// and how many of its entities are ignored for each of the nine reasons.
#[derive(Debug, Drop)]
pub struct Resolved {
    pub changes: List<Change>,
    pub ignored: [u64; 9],
}

/// What the entities of a message say, one after the other.
fn tally_of(alloc: Global, lookup: &Lookup, message: &Message) -> Result<Tally, Memory>
    ensures { IfOk result (Tallies (judged_all lookup.now message.now)) }
{
    let mut tally = Tally::new(alloc);
    for entity in message.entities.as_slice() {
        let answer = judge(alloc, lookup, message.timestamp, entity);
        tally.take(answer)?;
    }
    Ok(tally)
}

impl<'a> Lookup<'a> {
    /// What a message, as a full dataset of trip updates, says of the runs of the feed.
    ///
    /// Each entity gives one change, or is ignored for the first of these reasons that holds: 1, it is marked deleted;
    /// 2, it has no trip update; 3, the relation of its trip is none of SCHEDULED, CANCELED, DELETED, ADDED and NEW;
    /// 4, its trip has no id; 5, the feed lacks the trip, or has the one that is to be added; 6, no day of service is
    /// told; 7, the trip has no such run, or the day of an added one is none of the feed's; 8, a delay is not of 32
    /// bits, a time not from 0 to 2^40, or the calls of an added run can't be told; 9, an earlier entity resolved for
    /// the same name. Calls of a run of the feed that no update means are passed over.
    pub fn resolve(&self, alloc: Global, message: &Message) -> Result<Resolved, Memory>
        ensures changes { IfOk result (λ resolved. AreChangesOf self.now message.now resolved.changes) }
        ensures ignored { IfOk result (λ resolved. resolved.ignored ≡ ignored self.now message.now) }
    {
        let Tally { changes, ignored } = tally_of(alloc, self, message)?;
        let changes = changes_of(alloc, changes)?;
        Ok(Resolved { changes, ignored })
    }
}

/// What a message says of the runs of a feed, where no index of the feed is kept: `Lookup::resolve` over one that is made
/// for this message alone.
pub fn resolve(alloc: Global, feed: &Feed, message: &Message) -> Result<Resolved, Memory>
    requires { IsSound feed.now }
    ensures changes { IfOk result (λ resolved. AreChangesOf feed.now message.now resolved.changes) }
    ensures ignored { IfOk result (λ resolved. resolved.ignored ≡ ignored feed.now message.now) }
{
    let index = FeedIndex::of(alloc, feed)?;
    Lookup::of(feed, &index).resolve(alloc, message)
}
