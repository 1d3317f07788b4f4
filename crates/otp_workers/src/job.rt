use otp_base::{Sink, Source};
use std::sync::Wait;

/// What serves links, each with the seat of its worker.
pub trait Job<I: Source + Drop, O: Sink + Drop, S>: Sync {
    /// The seats that it serves with.
    ghost fits: { Self → S → Type 0 };

    /// What serving a link may make of a seat.
    ghost becomes: { Self → S → S → Type 0 };

    /// Serves a link. It may wait for the peer and for other workers.
    fn serve<R: Wait>(&self, rt: &R, seat: &mut S, input: I, output: O)
        requires { fits self.now seat.old }
        ensures fits { fits self.now seat.new }
        ensures becomes { becomes self.now seat.old seat.new };
}
