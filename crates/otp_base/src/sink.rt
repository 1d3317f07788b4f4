ghost use Rattle.std.specs.Prelude.{◌≡◌, ℕ, ◌<◌, ◌≤◌, Option, List, length, OnOk, OnErr};
ghost use Rattle.otp_base.specs.Faults.{Rose};
ghost use Rattle.otp_base.specs.Sink.{AppendsFront, AppendsKnown, WithinPiece, Writes};

/// What one write to a sink did.
#[derive(Clone, Copy, Debug, PartialEq, Eq)]
pub enum Put {
    /// The first so many bytes were taken.
    Took(usize),
    /// The write failed, and the sink counted it. A sink that takes nothing has failed.
    Failed,
}

/// A sink failed.
#[derive(Clone, Copy, Debug, PartialEq, Eq)]
pub struct WriteFault;

/// A sink of bytes, which may tell what it holds, with a count of its faults.
pub trait Sink {
    ghost contents: { Self → Option (List ℕ) };

    ghost faults: { Self → ℕ };

    /// Takes bytes off the front of the piece.
    fn write(&mut self, piece: &[u8]) -> Put
        requires { 0 < length piece.now }
        ensures bound { WithinPiece (length piece.now) result }
        ensures bytes { Writes (contents self.old) (contents self.new) piece.now result }
        ensures later { faults self.old ≤ faults self.new }
        ensures cause { result ≡ Put.Failed → Rose (faults self.old) (faults self.new) };
}

/// Writes all the bytes. It takes no memory.
pub fn put_all<K: Sink>(sink: &mut K, bytes: &[u8]) -> Result<(), WriteFault>
    ensures all { OnOk result (AppendsKnown (K.contents sink.old) (K.contents sink.new) bytes.now) }
    ensures front { OnErr result (AppendsFront (K.contents sink.old) (K.contents sink.new) bytes.now) }
    ensures later { K.faults sink.old ≤ K.faults sink.new }
    ensures cause { OnErr result (Rose (K.faults sink.old) (K.faults sink.new)) }
{
    let mut done = 0;
    while done < bytes.len() {
        match sink.write(&bytes[done..]) {
            Put::Took(count) => done += count,
            Put::Failed => return Err(WriteFault),
        }
    }
    Ok(())
}
