//! The beginning of a world.
ghost use Rattle.std.specs.Prelude.{◌≡◌, ◌<◌, ◌^◌, IfOk, map};
ghost use Rattle.reply_bodies.specs.Plans.{IsSearchable};
ghost use Rattle.otp_session.specs.Openings.{IsOpened};
ghost use Rattle.otp_session.specs.Sessions.{fresh_session};

use crate::base::Ground;
use crate::session::Session;
use commit_desk::Desk;
use commit_history::Pass;
use feed_load::Loaded;
use otp_base::Memory;
use pin_ring::Pins;
use std::alloc::Global;
use std::sync::{Arc, Wait};

/// A ground, its desk, and the sessions that were opened with it. The desk is to be ended by `Desk::end`.
pub struct Opened {
    pub base: Ground,
    pub desk: Desk,
    pub sessions: Vec<Session>,
}

/// Opens a feed for so many real-time feeds and so many sessions. Nothing is published or accepted. It may wait for readers.
pub fn open_world<R: Wait>(
    rt: &R,
    alloc: Global,
    loaded: Loaded,
    feeds: u32,
    seats: usize,
) -> Result<Opened, Memory>
    requires searchable { IsSearchable loaded.feed loaded.edges }
    requires seats { (0 < seats) × (seats < 2 ^ 32) }
    ensures { IfOk result (IsOpened loaded.feed loaded.edges feeds seats) }
{
    let Loaded {
        feed,
        edges,
        passed: _,
    } = loaded;
    let feed = Arc::new(alloc, feed)?;
    let shared = Arc::try_clone(&feed)?;
    let (desk, passes) = Desk::open(rt, alloc, shared, feeds, seats)?;
    let Ok(sessions) = sessions_of(alloc, passes) else {
        desk.end(rt);
        return Err(Memory);
    };
    Ok(Opened {
        base: Ground { feed, edges, feeds },
        desk,
        sessions,
    })
}

/// A session for each pass.
fn sessions_of(alloc: Global, passes: Vec<Pass>) -> Result<Vec<Session>, Memory>
    ensures { IfOk result (λ sessions. sessions.items ≡ map fresh_session passes.items) }
{
    let mut passes = passes;
    let mut sessions = Vec::with_capacity(alloc, passes.len())?;
    while !passes.is_empty() {
        let pass = passes.remove(0);
        let pins = Pins::new(alloc, &pass)?;
        sessions.push(Session::new(pass, pins))?;
    }
    Ok(sessions)
}
