ghost use Rattle.std.specs.Prelude.{◌≡◌, ◌<◌, ℕ, IfOk, length, sum_by};
ghost use Rattle.otp_base.specs.Doors.{AreFaultless, CountsFaults};

use otp_base::ListenFault;
use std::alloc::Global;

/// A port that has a share of its door's links.
pub trait SharePort {
    ghost share: { Self → ℕ };

    ghost faults: { Self → ℕ };

    /// How many faults the port has counted.
    fn fault_count(&self) -> u64
        ensures { result ≡ faults self.now };
}

/// What ports are made of.
pub trait MakePort {
    type Port: SharePort + Drop;

    /// The port of a worker, with so many links. It has counted no fault.
    fn make_port(&self, alloc: Global, worker: usize, share: u64) -> Result<Self::Port, ListenFault>
        ensures share { IfOk result (λ port. Self.Port.share port ≡ share) }
        ensures fresh { IfOk result (λ port. Self.Port.faults port ≡ 0) };
}

/// A port for each worker, which have so many links together.
pub fn share_out<M: MakePort>(
    maker: &M,
    alloc: Global,
    links: u64,
    workers: usize,
) -> Result<Vec<M::Port>, ListenFault>
    requires { 0 < workers }
    ensures count { IfOk result (λ ports. length ports.items ≡ workers) }
    ensures links { IfOk result (λ ports. sum_by M.Port.share ports.items ≡ links) }
    ensures fresh { IfOk result (λ ports. AreFaultless M.Port.faults ports.items) }
{
    let mut ports = Vec::new(alloc);
    let mut rest = links;
    for worker in 0..workers {
        let share = rest / (workers - worker) as u64;
        let port = maker.make_port(alloc, worker, share)?;
        if ports.push(port).is_err() {
            return Err(ListenFault::Memory);
        }
        rest -= share;
    }
    Ok(ports)
}

/// A door's count of faults once it has these ports back.
pub fn count_faults<P: SharePort>(before: u64, ports: &[P]) -> u64
    ensures { CountsFaults P.faults before result ports.now }
{
    for port in ports {
        if port.fault_count() > 0 {
            return before.saturating_add(1);
        }
    }
    before
}
