//! What a connection has of its own.
ghost use Rattle.std.specs.Prelude.{◌≡◌, Err, IfOk, OnOk, length};
ghost use Rattle.otp_model.specs.Core.{HasSeen, History, keep_known, kept_at};
ghost use Rattle.pin_ring.specs.Kept.{IsViewOf};
ghost use Rattle.otp_session.specs.Sessions.{IsNewest, LooksAt, TakesAt, fresh_session, handed_back, opened, told};

use commit_desk::Desk;
use commit_history::{Note, Pass, TakeFault, View};
use pin_ring::Pins;
use std::marker::Model;

/// What a pass knows. A session is generic over its parts: so it is seen to cross threads.
pub trait Passing {
    ghost use Rattle.commit_history.specs.Views.{PassView};

    ghost known: { Self → PassView };
}

impl Passing for Pass {
    ghost known = { λ pass. pass };
}

/// Which views are kept.
pub trait Keeping {
    ghost use Rattle.pin_ring.specs.Kept.{KeptView};

    ghost kept: { Self → KeptView };
}

impl Keeping for Pins {
    ghost kept = { λ pins. pins };
}

/// A pass, and the views that the connection keeps for pinned pages. Contracts see what the pass knows, and the histories that
/// the views stand for.
#[derive(Drop)]
pub struct SessionOf<P: Passing, K: Keeping> {
    pass: P,
    pins: K,
}

/// A pass, and the views that the connection keeps for pinned pages.
pub type Session = SessionOf<Pass, Pins>;

impl<P: Passing, K: Keeping> Model for SessionOf<P, K> {
    ghost use Rattle.otp_session.specs.Sessions.{IsSession, SessionView, session_of};

    ghost Value = { SessionView };

    ghost view = { λ session. session_of (P.known session.pass) (K.kept session.pins) };

    ghost invariant = { λ session. IsSession (P.known session.pass) (K.kept session.pins) };
}

impl SessionOf<Pass, Pins> {
    /// A session that keeps no view. It takes no memory.
    pub fn new(pass: Pass, pins: Pins) -> Session
        requires { pins.feed ≡ pass.feed }
        ensures { result ≡ fresh_session pass }
    {
        let mut pins = pins;
        pins.clear();
        SessionOf { pass, pins }
    }

    /// Keeps no view, as at the start of a connection.
    pub fn open(&mut self)
        ensures { self.new ≡ opened self.old }
    {
        self.pins.clear();
    }

    /// The snapshot after a beginning of the published history that begins with all that the session knew. It waits for nobody.
    ///
    /// # Errors
    ///
    /// `Turned` where the reader was handed back; the session then knows what it knew. After `Memory` it knows a history that begins
    /// with all that it knew.
    pub(crate) fn take(&mut self) -> Result<View, TakeFault>
        ensures ok { IfOk result (λ view. (history : History) × TakesAt self.old self.new history × IsNewest self.new view) }
        ensures turned { result ≡ Err TakeFault.Turned → self.new ≡ handed_back self.old }
        ensures memory { result ≡ Err TakeFault.Memory → (history : History) × TakesAt self.old self.new history }
    {
        self.pass.take()
    }

    /// Keeps the view that was taken last.
    pub(crate) fn keep(&mut self, view: View)
        requires { IsNewest self.old view }
        ensures { self.new ≡ record self.old { kept = keep_known self.old.kept self.old.pass.known } }
    {
        self.pins.keep(view, &self.pass);
    }

    /// The kept view of so many commits.
    pub(crate) fn pinned(&self, number: u64) -> Option<&View>
        ensures { IsViewOf self.now.pass.feed (kept_at number self.now.kept) result }
    {
        self.pins.at(number)
    }

    /// Takes in what was told, and takes a view, of which the number is answered.
    pub(crate) fn look(&mut self, note: Note) -> Result<u64, TakeFault>
        requires feed { note.feed ≡ self.old.pass.feed }
        requires cell { note.cell ≡ self.old.pass.cell }
        ensures ok { IfOk result (λ number. (history : History) × LooksAt self.old self.new note.history history × (number ≡ length history)) }
        ensures turned { result ≡ Err TakeFault.Turned → self.new ≡ handed_back (told self.old note.history) }
        ensures memory { result ≡ Err TakeFault.Memory → (history : History) × LooksAt self.old self.new note.history history }
    {
        self.pass.learn(note);
        let view = match self.pass.take() {
            Ok(view) => view,
            Err(fault) => return Err(fault),
        };
        Ok(view.number)
    }

    /// Lets the session see the desk's whole published history, and takes a view. It waits for nobody. After any answer the
    /// session has seen the history.
    ///
    /// # Errors
    ///
    /// `Turned` where the reader was handed back, and `Memory`.
    pub fn meet(&mut self, desk: &mut Desk) -> Result<(), TakeFault>
        requires feed { self.old.pass.feed ≡ desk.old.feed }
        requires cell { self.old.pass.cell ≡ desk.old.cell }
        ensures desk { desk.new ≡ desk.old }
        ensures ok { OnOk result ((history : History) × LooksAt self.old self.new desk.old.state.history history) }
        ensures turned { result ≡ Err TakeFault.Turned → self.new ≡ handed_back (told self.old desk.old.state.history) }
        ensures memory { result ≡ Err TakeFault.Memory → (history : History) × LooksAt self.old self.new desk.old.state.history history }
        ensures seen { HasSeen self.new.pass.known desk.old.state.history }
    {
        commit_desk::meet(desk, &mut self.pass)
    }
}
