//! A world under one lock, which has a name.
ghost use Rattle.std.specs.Prelude.{◌≡◌, None};
ghost use Rattle.otp_model.specs.declared.timetable.Feed.{Feed};
ghost use Rattle.otp_session.specs.Changes.{IsChange};
ghost use Rattle.otp_session.specs.Desks.{ChangeTold};
ghost use Rattle.otp_session.specs.Grounds.{IsAt, IsGroundOf, place_of};
ghost use Rattle.otp_session.specs.Sessions.{StaysAt};
ghost use Rattle.otp_session.specs.Steps.{IsSendable};

use crate::base::Ground;
use crate::changing::{Changed, change};
use crate::desks::DeskAt;
use crate::session::Session;
use commit_desk::Desk;
use otp_base::List;
use query_form::Asked;
use std::alloc::Global;
use std::marker::{Brand, Model, PhantomData};
use std::mem::ManuallyDrop;
use std::sync::{Mutex, Wait};

/// The place of a desk that lies under a lock, of which only the type is known. Each call of a program picks it.
pub trait Named {
    ghost use Rattle.otp_session.specs.Grounds.{Place};

    ghost place: { Place };
}

impl Named for Brand {
    ghost use Rattle.otp_session.specs.Grounds.{nowhere};

    ghost place = { nowhere };
}

/// What a desk under a lock is. What holds one is generic over it: so it is seen to cross threads.
pub trait Held {
    ghost use Rattle.commit_desk.specs.Desks.{DeskView};

    ghost desk: { Self → DeskView };
}

/// A desk that stays where it is dropped, with its memory.
pub type HeldDesk = ManuallyDrop<Desk>;

impl Held for HeldDesk {
    ghost use Rattle.core.specs.Mem.{manually_drop_value};

    ghost desk = { manually_drop_value };
}

/// A desk of the name, as it lies under the lock.
#[derive(Drop)]
pub struct NamedDeskOf<D: Held, N: Named> {
    desk: D,
    name: PhantomData<N>,
}

pub type NamedDesk<N> = NamedDeskOf<HeldDesk, N>;

impl<D: Held, N: Named> Model for NamedDeskOf<D, N> {
    ghost use Rattle.std.specs.Prelude.{◌≡◌};
    ghost use Rattle.commit_desk.specs.Desks.{DeskView};
    ghost use Rattle.otp_session.specs.Grounds.{place_of};

    ghost Value = { DeskView };

    ghost view = { λ named. D.desk named.desk };

    ghost invariant = { λ named. place_of (D.desk named.desk) ≡ N.place };
}

impl<N: Named> NamedDeskOf<HeldDesk, N> {
    fn change<R: Wait>(
        &mut self,
        rt: &R,
        alloc: Global,
        session: &mut Session,
        asked: &Asked,
        body: &List<u8>,
    ) -> Changed
        requires at { IsAt N.place session.old }
        requires change { IsChange N.place.feeds asked.now }
        ensures step { ChangeTold N.place.feed asked.now body.now None session.old result.reply None session.new }
        ensures about { (result.asked ≡ asked.now) × (result.body ≡ body.now) × (result.feed ≡ N.place.feed) × (result.cell ≡ N.place.cell) }
        ensures stays { StaysAt session.old session.new }
        ensures sendable { (feed : Feed) → IsSendable feed result.reply }
    {
        change(rt, alloc, &mut self.desk, session, asked, body)
    }

    fn into_desk(self) -> Desk
        ensures { place_of result ≡ N.place }
    {
        let NamedDeskOf { desk, name: _ } = self;
        ManuallyDrop::into_inner(desk)
    }
}

/// What sessions of the name serve over.
#[derive(Drop)]
pub struct NamedGround<N: Named> {
    base: Ground,
    name: PhantomData<N>,
}

impl<N: Named> Model for NamedGround<N> {
    ghost use Rattle.otp_session.specs.Grounds.{IsGroundOf};
    ghost use Rattle.otp_session.specs.declared.base.Ground.{Ground as GroundOf};

    ghost Value = { GroundOf };

    ghost view = { λ named. named.base };

    ghost invariant = { λ named. IsGroundOf named.base N.place };
}

impl<N: Named> NamedGround<N> {
    fn base(&self) -> &Ground
        ensures { IsGroundOf result.now N.place }
    {
        &self.base
    }
}

/// What all sessions serve over, and the desk that they share, under one lock.
pub struct WorldOf<B, L> {
    base: B,
    desk: L,
}

/// What all sessions serve over, and the desk that they share, under one lock.
pub type World<N> = WorldOf<NamedGround<N>, Mutex<NamedDesk<N>>>;

impl<N: Named> WorldOf<NamedGround<N>, Mutex<NamedDesk<N>>> {
    /// A world of this name. It takes no memory.
    pub fn new(base: Ground, desk: Desk) -> World<N>
        requires desk { place_of desk ≡ N.place }
        requires base { IsGroundOf base N.place }
    {
        WorldOf {
            base: NamedGround {
                base,
                name: PhantomData,
            },
            desk: Mutex::new(NamedDeskOf {
                // It is taken out again by `close`.
                desk: unsafe { ManuallyDrop::new_unchecked(desk) },
                name: PhantomData,
            }),
        }
    }

    /// What its sessions serve over.
    pub fn base(&self) -> &Ground
        ensures { IsGroundOf result.now N.place }
    {
        self.base.base()
    }

    /// Its desk, to be locked for each change.
    pub fn desk(&self) -> LockedDesk<'_, N> {
        LockedDesk { lock: &self.desk }
    }

    /// Takes the desk out of its lock. It takes no memory.
    pub fn close(self) -> Desk
        ensures { place_of result ≡ N.place }
    {
        let WorldOf { base: _base, desk } = self;
        desk.into_inner().into_desk()
    }
}

/// A world's desk. Each change holds the lock. It tells the place of the name, and no state.
#[derive(Drop)]
pub struct LockedDesk<'a, N: Named> {
    lock: &'a Mutex<NamedDesk<N>>,
}

impl<N: Named> DeskAt for LockedDesk<'_, N> {
    ghost use Rattle.std.specs.Prelude.{None};

    ghost place = { λ locked. N.place };

    ghost state = { λ locked. None };

    fn change<R: Wait>(
        &mut self,
        rt: &R,
        alloc: Global,
        session: &mut Session,
        asked: &Asked,
        body: &List<u8>,
    ) -> Changed {
        let mut desk = self.lock.lock(rt);
        desk.change(rt, alloc, session, asked, body)
    }
}
