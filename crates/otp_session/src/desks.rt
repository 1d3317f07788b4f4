//! Desks that requests change.
use crate::changing::{Changed, change};
use crate::session::Session;
use commit_desk::Desk;
use otp_base::List;
use query_form::Asked;
use std::alloc::Global;
use std::sync::Wait;

/// A desk. It always tells its place, which stays, and may tell its state.
pub trait DeskAt {
    ghost use Rattle.std.specs.Prelude.{◌≡◌, Option};
    ghost use Rattle.otp_model.specs.Desk.{DeskState};
    ghost use Rattle.otp_model.specs.declared.timetable.Feed.{Feed};
    ghost use Rattle.otp_session.specs.Changes.{IsChange};
    ghost use Rattle.otp_session.specs.Desks.{ChangeTold};
    ghost use Rattle.otp_session.specs.Grounds.{IsAt, Place};
    ghost use Rattle.otp_session.specs.Sessions.{StaysAt};
    ghost use Rattle.otp_session.specs.Steps.{IsSendable};

    ghost place: { Self → Place };

    ghost state: { Self → Option DeskState };

    /// Lends the desk to `change`.
    fn change<R: Wait>(
        &mut self,
        rt: &R,
        alloc: Global,
        session: &mut Session,
        asked: &Asked,
        body: &List<u8>,
    ) -> Changed
        requires at { IsAt (place self.old) session.old }
        requires change { IsChange (place self.old).feeds asked.now }
        ensures step { ChangeTold (place self.old).feed asked.now body.now (state self.old) session.old result.reply (state self.new) session.new }
        ensures about { (result.asked ≡ asked.now) × (result.body ≡ body.now) × (result.feed ≡ (place self.old).feed) × (result.cell ≡ (place self.old).cell) }
        ensures place { place self.new ≡ place self.old }
        ensures stays { StaysAt session.old session.new }
        ensures sendable { (feed : Feed) → IsSendable feed result.reply };
}

/// A desk of one's own, which tells its state. It is to be ended by `Desk::end`.
pub struct LoneDesk {
    pub desk: Desk,
}

impl DeskAt for LoneDesk {
    ghost use Rattle.std.specs.Prelude.{Some};
    ghost use Rattle.otp_session.specs.Grounds.{place_of};

    ghost place = { λ lone. place_of lone.desk };

    ghost state = { λ lone. Some lone.desk.state };

    fn change<R: Wait>(
        &mut self,
        rt: &R,
        alloc: Global,
        session: &mut Session,
        asked: &Asked,
        body: &List<u8>,
    ) -> Changed {
        change(rt, alloc, &mut self.desk, session, asked, body)
    }
}
