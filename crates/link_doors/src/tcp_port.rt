ghost use Rattle.std.specs.Prelude.{◌≡◌, None};

use crate::share::{MakePort, SharePort};
use crate::tcp_link::{TcpInput, TcpOutput};
use otp_base::{Accepted, ListenFault, Port, StdSink, StdSource};
use std::alloc::Global;
use std::io::{self, ErrorKind};
use std::net::{TcpListener, TcpStream};
use std::time::Duration;

/// A port on the network: a listening socket, which all ports of its door wait at.
#[derive(Drop)]
pub struct TcpPort {
    listener: TcpListener,
    share: u64,
    faults: u64,
}

/// How many connections in a row may be gone before they are accepted.
const TRIES: u64 = 1 << 40;

/// How long one read or one write may wait, in seconds, so that a peer that is idle doesn't hold a worker
/// for ever.
const TIMEOUT: u64 = 60;

impl TcpPort {
    /// The port of the machine that it listens at.
    pub fn number(&self) -> io::Result<u16> {
        Ok(self.listener.local_addr()?.port())
    }

    /// The next connection that stands. One that is gone before it is set up is passed over.
    fn next_link(&self) -> io::Result<(TcpInput, TcpOutput)> {
        for _ in 0..TRIES {
            match self.listener.accept() {
                Ok((stream, _)) => {
                    if let Ok(link) = set_up(stream) {
                        return Ok(link);
                    }
                }
                Err(fault) if is_passing(fault.kind()) => {}
                Err(fault) => return Err(fault),
            }
        }
        Err(io::Error::from(ErrorKind::ConnectionAborted))
    }
}

/// Whether the next call may give a connection.
fn is_passing(kind: ErrorKind) -> bool {
    matches!(kind, ErrorKind::Interrupted | ErrorKind::ConnectionAborted)
}

/// The two directions of a connection. What is written leaves at once.
fn set_up(stream: TcpStream) -> io::Result<(TcpInput, TcpOutput)> {
    let timeout = Duration::from_secs(TIMEOUT);
    stream.set_nodelay(true)?;
    stream.set_read_timeout(Some(timeout))?;
    stream.set_write_timeout(Some(timeout))?;
    let output = TcpOutput {
        sink: StdSink::new(stream.try_clone()?),
    };
    let input = TcpInput {
        source: StdSource::new(stream),
    };
    Ok((input, output))
}

impl SharePort for TcpPort {
    ghost share = { λ p. p.share };

    ghost faults = { λ p. p.faults };

    fn fault_count(&self) -> u64 {
        self.faults
    }
}

impl MakePort for TcpListener {
    type Port = TcpPort;

    fn make_port(
        &self,
        _alloc: Global,
        _worker: usize,
        share: u64,
    ) -> Result<TcpPort, ListenFault> {
        match self.try_clone() {
            Ok(listener) => Ok(TcpPort {
                listener,
                share,
                faults: 0,
            }),
            Err(_) => Err(ListenFault::Failed),
        }
    }
}

impl Port for TcpPort {
    type Input = TcpInput;

    type Output = TcpOutput;

    ghost links = { λ _. None };

    ghost faults = { λ p. p.faults };

    fn accept(&mut self) -> Accepted<TcpInput, TcpOutput> {
        if self.share == 0 {
            return Accepted::Closed;
        }
        match self.next_link() {
            Ok((input, output)) => {
                self.share -= 1;
                Accepted::Link { input, output }
            }
            Err(_) => {
                self.faults = self.faults.saturating_add(1);
                Accepted::Failed
            }
        }
    }
}
