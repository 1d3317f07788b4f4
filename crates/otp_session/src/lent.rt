//! Updates and commits, carried out on a desk that is lent.
ghost use Rattle.std.specs.Prelude.{◌≡◌, ◌≤◌, ◌<◌, ◌^◌, ◌⊎◌, IfOk, OnErr, OnOk, Some, length};
ghost use Rattle.commit_desk.specs.Desks.{has_pending, writer_of};
ghost use Rattle.otp_model.specs.Desk.{commits, pending_in};
ghost use Rattle.otp_session.specs.Changes.{CommitStep, CommittingStep, HasCommitted, IsStopped, Looks, MessageStep, OfferStep, UpdateStep};
ghost use Rattle.otp_session.specs.Grounds.{IsAt, place_of};
ghost use Rattle.otp_session.specs.Sessions.{SessionView, StaysAt};
ghost use Rattle.otp_session.specs.Steps.{IsSendable};
ghost use Rattle.otp_model.specs.declared.timetable.Feed.{Feed};
ghost use Rattle.plan_json.specs.declared.body.Body.TheVariants.{Committed as CommittedBody, Updated as UpdatedBody};

use crate::session::Session;
use commit_desk::{Desk, DeskFault, Done};
use commit_history::{Note, TakeFault};
use otp_base::{Memory, Steps};
use otp_model::Message;
use plan_json::Body;
use reply_bodies::{Reply, message_refusal, older_refusal, spent_refusal, turned_refusal};
use rt_reader::read_message;
use rt_resolve::Resolved;
use std::alloc::Global;
use std::marker::Brand;
use std::sync::Wait;
use std::sync::ledger::{Blank, Ledger};

/// How many commits there may be.
const MOST_COMMITS: u64 = 1 << 40;

/// What a commit left behind: a note that names the whole published history, and whether there was something to commit.
#[derive(Drop)]
struct Made {
    note: Note,
    fresh: bool,
}

/// Publishes what is pending. An `Err` changes nothing.
fn publish<R: Wait, L: Ledger>(
    rt: &R,
    alloc: Global,
    desk: &mut Desk,
    blank: Blank,
) -> Result<Made, Memory>
    requires name { blank.name ≡ L.name }
    requires parts { blank.parts ≡ L.parts }
    requires some { 0 < blank.parts }
    requires room { length desk.old.state.history < 2 ^ 40 }
    ensures desk { OnOk result (desk.new ≡ record desk.old { state = commits desk.old.state }) }
    ensures made { IfOk result (λ made. (made.note ≡ writer_of desk.new) × (made.fresh ≡ has_pending (pending_in desk.old.state.slots))) }
    ensures err { OnErr result (desk.new ≡ desk.old) }
{
    let mut steps = Steps::<L>::new(blank);
    match desk.commit(rt, alloc, &mut steps) {
        Ok(Done::Committed { number: _, note }) => Ok(Made { note, fresh: true }),
        Ok(Done::Nothing { number: _, note }) => Ok(Made { note, fresh: false }),
        Err(fault) => Err(fault),
    }
}

/// Commits what is pending, and looks at what is published then.
pub fn commit<R: Wait>(rt: &R, alloc: Global, desk: &mut Desk, session: &mut Session) -> Reply
    requires at { IsAt (place_of desk.old) session.old }
    ensures step { CommitStep desk.old.state session.old result desk.new.state session.new }
    ensures place { place_of desk.new ≡ place_of desk.old }
    ensures stays { StaysAt session.old session.new }
    ensures sendable { (feed : Feed) → IsSendable feed result }
{
    if desk.number() >= MOST_COMMITS {
        return spent_refusal(alloc);
    }
    match publish::<R, Brand>(rt, alloc, desk, Blank::new(1)) {
        Ok(Made { note, fresh }) => committed(alloc, session, note, fresh),
        Err(_) => Reply::Memory,
    }
}

/// The reply to a commit, once the session has looked.
fn committed(alloc: Global, session: &mut Session, note: Note, fresh: bool) -> Reply
    requires feed { note.feed ≡ session.old.pass.feed }
    requires cell { note.cell ≡ session.old.pass.cell }
    ensures looks { Looks (λ number. CommittedBody number fresh) note.history session.old result session.new }
    ensures stays { StaysAt session.old session.new }
    ensures sendable { (feed : Feed) → IsSendable feed result }
{
    match session.look(note) {
        Ok(number) => Reply::Answer {
            status: 200,
            body: Body::Committed { number, fresh },
        },
        Err(TakeFault::Turned) => turned_refusal(alloc),
        Err(TakeFault::Memory) => Reply::Memory,
    }
}

/// Takes in the message that a body spells, and commits it at once where `commit` says so.
pub fn update<R: Wait>(
    rt: &R,
    alloc: Global,
    desk: &mut Desk,
    session: &mut Session,
    feed_no: u32,
    commit: bool,
    body: &[u8],
) -> Reply
    requires at { IsAt (place_of desk.old) session.old }
    requires first { 1 ≤ feed_no }
    requires last { feed_no ≤ length desk.old.state.slots }
    ensures step { UpdateStep desk.old.feed feed_no commit body.now desk.old.state session.old result desk.new.state session.new }
    ensures place { place_of desk.new ≡ place_of desk.old }
    ensures stays { StaysAt session.old session.new }
    ensures sendable { (feed : Feed) → IsSendable feed result }
{
    match read_message(alloc, body) {
        Ok(message) => take_in(rt, alloc, desk, session, feed_no, commit, message),
        Err(fault) => message_refusal(alloc, fault),
    }
}

/// Takes in a message, and commits it at once where `commit` says so.
fn take_in<R: Wait>(
    rt: &R,
    alloc: Global,
    desk: &mut Desk,
    session: &mut Session,
    feed_no: u32,
    commit: bool,
    message: Message,
) -> Reply
    requires at { IsAt (place_of desk.old) session.old }
    requires first { 1 ≤ feed_no }
    requires last { feed_no ≤ length desk.old.state.slots }
    ensures step { MessageStep commit desk.old.feed feed_no message desk.old.state session.old result desk.new.state session.new }
    ensures place { place_of desk.new ≡ place_of desk.old }
    ensures stays { StaysAt session.old session.new }
    ensures sendable { (feed : Feed) → IsSendable feed result }
{
    if commit {
        return offer_and_commit(rt, alloc, desk, session, feed_no, message);
    }
    offer(alloc, desk, feed_no, message)
}

/// Makes a message the pending one of its feed.
fn offer(alloc: Global, desk: &mut Desk, feed_no: u32, message: Message) -> Reply
    requires first { 1 ≤ feed_no }
    requires last { feed_no ≤ length desk.old.state.slots }
    ensures step { (session : SessionView) → OfferStep desk.old.feed feed_no message desk.old.state session result desk.new.state session }
    ensures place { place_of desk.new ≡ place_of desk.old }
    ensures sendable { (feed : Feed) → IsSendable feed result }
{
    let Ok(resolved) = desk.resolve(alloc, &message) else {
        return Reply::Memory;
    };
    let ignored = resolved.ignored;
    let Resolved { changes, .. } = resolved;
    match desk.accept(feed_no, message, changes) {
        Ok(accepted) => Reply::Answer {
            status: 200,
            body: Body::Updated {
                accepted,
                commit: None,
                ignored,
            },
        },
        Err(DeskFault::Older { have }) => older_refusal(alloc, have),
        Err(DeskFault::CountSpent) => spent_refusal(alloc),
        Err(DeskFault::Memory) => Reply::Memory,
    }
}

/// Makes a message the pending one of its feed, and commits what is pending.
fn offer_and_commit<R: Wait>(
    rt: &R,
    alloc: Global,
    desk: &mut Desk,
    session: &mut Session,
    feed_no: u32,
    message: Message,
) -> Reply
    requires at { IsAt (place_of desk.old) session.old }
    requires first { 1 ≤ feed_no }
    requires last { feed_no ≤ length desk.old.state.slots }
    ensures step { CommittingStep desk.old.feed feed_no message desk.old.state session.old result desk.new.state session.new }
    ensures place { place_of desk.new ≡ place_of desk.old }
    ensures stays { StaysAt session.old session.new }
    ensures sendable { (feed : Feed) → IsSendable feed result }
{
    if desk.number() >= MOST_COMMITS {
        return spent_refusal(alloc);
    }
    let Ok(resolved) = desk.resolve(alloc, &message) else {
        return Reply::Memory;
    };
    let ignored = resolved.ignored;
    let Resolved { changes, .. } = resolved;
    match desk.accept(feed_no, message, changes) {
        Ok(accepted) => commit_accepted(rt, alloc, desk, session, accepted, ignored),
        Err(DeskFault::Older { have }) => older_refusal(alloc, have),
        Err(DeskFault::CountSpent) => spent_refusal(alloc),
        Err(DeskFault::Memory) => Reply::Memory,
    }
}

/// Commits what is pending, the message that was accepted among it.
fn commit_accepted<R: Wait>(
    rt: &R,
    alloc: Global,
    desk: &mut Desk,
    session: &mut Session,
    accepted: u64,
    ignored: [u64; 9],
) -> Reply
    requires at { IsAt (place_of desk.old) session.old }
    requires room { length desk.old.state.history < 2 ^ 40 }
    ensures step { IsStopped desk.old.state session.old result desk.new.state session.new
        ⊎ HasCommitted (λ made. UpdatedBody accepted (Some made) ignored) desk.old.state session.old result desk.new.state session.new }
    ensures place { place_of desk.new ≡ place_of desk.old }
    ensures stays { StaysAt session.old session.new }
    ensures sendable { (feed : Feed) → IsSendable feed result }
{
    match publish::<R, Brand>(rt, alloc, desk, Blank::new(1)) {
        Ok(Made { note, fresh: _ }) => updated(alloc, session, note, accepted, ignored),
        Err(_) => Reply::Memory,
    }
}

/// The reply to an update that was committed, once the session has looked.
fn updated(
    alloc: Global,
    session: &mut Session,
    note: Note,
    accepted: u64,
    ignored: [u64; 9],
) -> Reply
    requires feed { note.feed ≡ session.old.pass.feed }
    requires cell { note.cell ≡ session.old.pass.cell }
    ensures looks { Looks (λ number. UpdatedBody accepted (Some number) ignored) note.history session.old result session.new }
    ensures stays { StaysAt session.old session.new }
    ensures sendable { (feed : Feed) → IsSendable feed result }
{
    match session.look(note) {
        Ok(number) => Reply::Answer {
            status: 200,
            body: Body::Updated {
                accepted,
                commit: Some(number),
                ignored,
            },
        },
        Err(TakeFault::Turned) => turned_refusal(alloc),
        Err(TakeFault::Memory) => Reply::Memory,
    }
}
