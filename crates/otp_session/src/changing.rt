//! The one way to change a desk.
ghost use Rattle.std.specs.Prelude.{◌≡◌};
ghost use Rattle.otp_model.specs.declared.timetable.Feed.{Feed};
ghost use Rattle.otp_session.specs.Changes.{ChangeStep, IsChange};
ghost use Rattle.otp_session.specs.Grounds.{IsAt, place_of};
ghost use Rattle.otp_session.specs.Sessions.{StaysAt};
ghost use Rattle.otp_session.specs.Steps.{IsSendable};

use crate::lent::{commit, update};
use crate::session::Session;
use commit_desk::Desk;
use commit_history::Note;
use otp_base::List;
use query_form::Asked;
use reply_bodies::Reply;
use std::alloc::Global;
use std::marker::Model;
use std::snapshot::Snapshot as Ghost;
use std::sync::Wait;

/// The reply of one call of `change`, with what was asked of which desk by which body. No other code makes one, so whoever has one
/// has lent that desk.
#[derive(Drop)]
pub struct Changed {
    reply: Reply,
    asked: Asked,
    body: Ghost<List<u8>>,
    lent: Note,
}

impl Model for Changed {
    ghost use Rattle.otp_session.specs.Desks.{ChangedView};

    ghost Value = { ChangedView };

    ghost view = { λ changed. record { reply = changed.reply; asked = changed.asked; body = changed.body.value; feed = changed.lent.feed; cell = changed.lent.cell } };
}

impl Changed {
    /// The reply. It takes no memory.
    pub fn into_reply(self) -> Reply
        ensures { result ≡ self.reply }
    {
        let Changed {
            reply,
            asked: _,
            body: _,
            lent: _lent,
        } = self;
        reply
    }
}

/// Carries out an update of one of the desk's real-time feeds by this body, or a commit.
pub fn change<R: Wait>(
    rt: &R,
    alloc: Global,
    desk: &mut Desk,
    session: &mut Session,
    asked: &Asked,
    body: &List<u8>,
) -> Changed
    requires at { IsAt (place_of desk.old) session.old }
    requires change { IsChange (place_of desk.old).feeds asked.now }
    ensures step { ChangeStep desk.old.feed asked.now body.now desk.old.state session.old result.reply desk.new.state session.new }
    ensures about { (result.asked ≡ asked.now) × (result.body ≡ body.now) × (result.feed ≡ desk.old.feed) × (result.cell ≡ desk.old.cell) }
    ensures place { place_of desk.new ≡ place_of desk.old }
    ensures stays { StaysAt session.old session.new }
    ensures sendable { (feed : Feed) → IsSendable feed result.reply }
{
    let lent = desk.note();
    let reply = carry_out(rt, alloc, desk, session, asked, body);
    Changed {
        reply,
        asked: *asked,
        body: Ghost::of(body),
        lent,
    }
}

fn carry_out<R: Wait>(
    rt: &R,
    alloc: Global,
    desk: &mut Desk,
    session: &mut Session,
    asked: &Asked,
    body: &List<u8>,
) -> Reply
    requires at { IsAt (place_of desk.old) session.old }
    requires change { IsChange (place_of desk.old).feeds asked.now }
    ensures step { ChangeStep desk.old.feed asked.now body.now desk.old.state session.old result desk.new.state session.new }
    ensures place { place_of desk.new ≡ place_of desk.old }
    ensures stays { StaysAt session.old session.new }
    ensures sendable { (feed : Feed) → IsSendable feed result }
{
    match asked {
        Asked::Update { feed_no, commit } => {
            update(rt, alloc, desk, session, *feed_no, *commit, body.as_slice())
        }
        Asked::Commit => commit(rt, alloc, desk, session),
        Asked::Plan(_) | Asked::Status => unreachable!(),
    }
}
