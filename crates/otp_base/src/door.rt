ghost use Rattle.std.specs.Prelude.{◌≡◌, ℕ, ◌<◌, ◌≤◌, Option, Err, IfOk, OnErr, length};
ghost use Rattle.otp_base.specs.Doors.{AreFaultless, CountsFaults, GivesOut, TakesBack};
ghost use Rattle.otp_base.specs.Faults.{Rose};

use crate::port::Port;
use std::alloc::Global;

/// Why a door doesn't listen.
#[derive(Clone, Copy, Debug, PartialEq, Eq)]
pub enum ListenFault {
    /// The call failed, and the door counted it.
    Failed,
    /// Memory ran out.
    Memory,
}

/// What listens for peers through ports, one for each worker. It may tell how many links it has left, and
/// then its ports tell theirs. It has a count of its faults.
pub trait Door {
    type Port: Port + Send + Drop;

    ghost links: { Self → Option ℕ };

    /// How many of its ports are out.
    ghost out: { Self → ℕ };

    ghost faults: { Self → ℕ };

    /// Listens at a port of the machine, and gives out a port for each worker. Together they give at most
    /// `connections` links. No port may be out. A refused call changes nothing but the count.
    fn listen(
        &mut self,
        alloc: Global,
        port: u16,
        connections: u64,
        workers: usize,
    ) -> Result<Vec<Self::Port>, ListenFault>
        requires { (0 < workers) × (out self.old ≡ 0) }
        ensures out { IfOk result (λ ports. (length ports.items ≡ workers) × (out self.new ≡ workers)) }
        ensures fresh { IfOk result (λ ports. AreFaultless Self.Port.faults ports.items) }
        ensures links { IfOk result (λ ports. GivesOut Self.Port.links connections (links self.old) (links self.new) ports.items) }
        ensures unchanged { OnErr result ((out self.new ≡ out self.old) × (links self.new ≡ links self.old)) }
        ensures later { faults self.old ≤ faults self.new }
        ensures cause { result ≡ Err ListenFault.Failed → Rose (faults self.old) (faults self.new) };

    /// Takes back the ports that are out. Where one of them has counted a fault, the door counts one.
    fn close(&mut self, ports: Vec<Self::Port>)
        requires { length ports.items ≡ out self.old }
        ensures out { out self.new ≡ 0 }
        ensures links { TakesBack Self.Port.links (links self.old) (links self.new) ports.items }
        ensures cause { CountsFaults Self.Port.faults (faults self.old) (faults self.new) ports.items };
}
