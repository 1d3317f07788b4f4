ghost use Rattle.std.specs.Prelude.{◌≡◌, [], ◌<◌, ◌≤◌, IfOk, drop, length};
ghost use Rattle.otp_base.specs.Faults.{Rose};
ghost use Rattle.http_read.specs.Held.{Fills};

use crate::scan::HEAD_BYTES;
use otp_base::{Got, Memory, Source};
use std::alloc::Global;
use std::marker::Model;

/// How many bytes one read asks for.
const PIECE: usize = 8_192;

/// The bytes that were read and not handed out yet: at most one read more than the longest head.
#[derive(Debug, Drop)]
pub struct Buffer {
    bytes: Vec<u8>,
}

impl Model for Buffer {
    ghost use Rattle.std.specs.Prelude.{List, ℕ, ◌≤◌, length};

    ghost Value = { List ℕ };

    ghost view = { λ b. b.bytes.items };

    ghost invariant = { λ b. length b.bytes.items ≤ 24576 };
}

/// What one read into a buffer gave.
#[derive(Clone, Copy, Debug, PartialEq, Eq)]
pub enum Filled {
    /// More bytes at its end.
    More,
    /// The source has none left.
    End,
    /// The read failed.
    Failed,
    /// Memory ran out.
    Memory,
}

impl Buffer {
    /// An empty buffer, with room for all that it ever holds.
    pub(crate) fn new(alloc: Global) -> Result<Buffer, Memory>
        ensures { IfOk result (λ b. b ≡ []) }
    {
        let bytes = Vec::with_capacity(alloc, HEAD_BYTES + PIECE)?;
        Ok(Buffer { bytes })
    }

    pub(crate) fn as_slice(&self) -> &[u8]
        ensures value { result.now ≡ self.now }
        ensures room { length self.now ≤ 24576 }
    {
        self.bytes.as_slice()
    }

    /// Takes bytes off the front.
    pub(crate) fn take_front(&mut self, count: usize)
        requires { count ≤ length self.old }
        ensures rest { self.new ≡ drop count self.old }
        ensures room { length self.new ≤ 24576 }
    {
        let rest = self.bytes.len() - count;
        self.bytes.rotate_left(count);
        self.bytes.truncate(rest);
    }

    /// Reads once more.
    pub(crate) fn fill<S: Source>(&mut self, source: &mut S) -> Filled
        requires { length self.old < 16384 }
        ensures bytes { Fills (S.left source.old) self.old (S.left source.new) self.new result }
        ensures later { S.faults source.old ≤ S.faults source.new }
        ensures cause { result ≡ Filled.Failed → Rose (S.faults source.old) (S.faults source.new) }
        ensures room { length self.new ≤ 24576 }
    {
        let mut piece = [0u8; PIECE];
        match source.read(&mut piece) {
            Got::Bytes(count) => {
                if self.bytes.extend_from_slice(&piece[..count]).is_err() {
                    return Filled::Memory;
                }
                Filled::More
            }
            Got::End => Filled::End,
            Got::Failed => Filled::Failed,
        }
    }
}
