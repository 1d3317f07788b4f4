ghost use Rattle.std.specs.Prelude.{None};

use otp_base::{Got, Put, Sink, Source, StdSink, StdSource};
use std::net::TcpStream;

/// What a peer sends on a connection. It tells nothing.
#[derive(Drop)]
pub struct TcpInput {
    pub source: StdSource<TcpStream>,
}

impl Source for TcpInput {
    ghost left = { λ _. None };

    ghost faults = { λ s. s.source.faults };

    fn read(&mut self, into: &mut [u8]) -> Got {
        self.source.read(into)
    }
}

/// What a peer is sent on a connection. It tells nothing.
#[derive(Drop)]
pub struct TcpOutput {
    pub sink: StdSink<TcpStream>,
}

impl Sink for TcpOutput {
    ghost contents = { λ _. None };

    ghost faults = { λ s. s.sink.faults };

    fn write(&mut self, piece: &[u8]) -> Put {
        self.sink.write(piece)
    }
}
