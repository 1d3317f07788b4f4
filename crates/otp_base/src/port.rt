ghost use Rattle.std.specs.Prelude.{◌≡◌, ℕ, ◌≤◌, Option};
ghost use Rattle.otp_base.specs.Faults.{Rose};
ghost use Rattle.otp_base.specs.Ports.{Accepts};

use crate::sink::Sink;
use crate::source::Source;

/// What one call of a port gave.
#[derive(Debug, Drop)]
pub enum Accepted<I, O> {
    /// A link to a peer: what it sends and what it is sent.
    Link { input: I, output: O },
    /// The port gives no more links.
    Closed,
    /// The call failed, and the port counted it.
    Failed,
}

/// What gives links to peers, one after the other. It may tell how many it has left, and has a count of
/// its faults. What a link is made of can be sent to a thread.
pub trait Port {
    type Input: Source + Drop + Send;

    type Output: Sink + Drop + Send;

    ghost links: { Self → Option ℕ };

    ghost faults: { Self → ℕ };

    /// Gives the next link, or tells that none is left. A failed call takes none. It may wait for a peer.
    fn accept(&mut self) -> Accepted<Self::Input, Self::Output>
        ensures links { Accepts (links self.old) (links self.new) result }
        ensures later { faults self.old ≤ faults self.new }
        ensures cause { result ≡ Accepted.Failed → Rose (faults self.old) (faults self.new) };
}
