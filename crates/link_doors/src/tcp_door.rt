ghost use Rattle.std.specs.Prelude.{◌≡◌, ◌<◌, None, IfOk, length};
ghost use Rattle.otp_base.specs.Doors.{AreFaultless, CountsFaults};

use crate::share::{count_faults, share_out};
use crate::tcp_port::TcpPort;
use otp_base::{Door, ListenFault};
use std::alloc::Global;
use std::net::{Net, SocketAddr, TcpListener, TcpStream};

/// A door on the network, at one address of this machine.
#[derive(Drop)]
pub struct TcpDoor<R> {
    net: R,
    address: [u8; 4],
    out: usize,
    faults: u64,
}

impl<R> TcpDoor<R> {
    /// A door that doesn't listen yet, at an IPv4 address.
    pub fn new(net: R, address: [u8; 4]) -> TcpDoor<R>
        ensures out { result.out ≡ 0 }
        ensures none { result.faults ≡ 0 }
    {
        TcpDoor {
            net,
            address,
            out: 0,
            faults: 0,
        }
    }
}

impl<R: Net<Listener = TcpListener, Stream = TcpStream>> TcpDoor<R> {
    /// Ports that wait at one socket.
    fn open_ports(
        &self,
        alloc: Global,
        port: u16,
        connections: u64,
        workers: usize,
    ) -> Result<Vec<TcpPort>, ListenFault>
        requires { 0 < workers }
        ensures count { IfOk result (λ ports. length ports.items ≡ workers) }
        ensures fresh { IfOk result (λ ports. AreFaultless (λ p. p.faults) ports.items) }
    {
        let address = SocketAddr::from((self.address, port));
        match TcpListener::bind(&self.net, address) {
            Ok(listener) => share_out(&listener, alloc, connections, workers),
            Err(_) => Err(ListenFault::Failed),
        }
    }
}

impl<R: Net<Listener = TcpListener, Stream = TcpStream> + Drop> Door for TcpDoor<R> {
    type Port = TcpPort;

    ghost links = { λ _. None };

    ghost out = { λ d. d.out };

    ghost faults = { λ d. d.faults };

    fn listen(
        &mut self,
        alloc: Global,
        port: u16,
        connections: u64,
        workers: usize,
    ) -> Result<Vec<TcpPort>, ListenFault> {
        match self.open_ports(alloc, port, connections, workers) {
            Ok(ports) => {
                self.out = workers;
                Ok(ports)
            }
            Err(ListenFault::Memory) => Err(ListenFault::Memory),
            Err(ListenFault::Failed) => {
                self.faults = self.faults.saturating_add(1);
                Err(ListenFault::Failed)
            }
        }
    }

    fn close(&mut self, ports: Vec<TcpPort>)
        requires { length ports.items ≡ self.old.out }
        ensures out { self.new.out ≡ 0 }
        ensures cause { CountsFaults (λ p. p.faults) self.old.faults self.new.faults ports.items }
    {
        self.faults = count_faults(self.faults, ports.as_slice());
        self.out = 0;
    }
}
