ghost use Rattle.std.specs.Prelude.{◌≡◌, ℕ, ◌<◌, ◌≤◌, Option, List, length};
ghost use Rattle.otp_base.specs.Faults.{Rose};
ghost use Rattle.otp_base.specs.Source.{Reads, WithinSlice};

/// What one read of a source gave.
#[derive(Clone, Copy, Debug, PartialEq, Eq)]
pub enum Got {
    /// So many bytes, at the front of the slice.
    Bytes(usize),
    /// No byte is left.
    End,
    /// The read failed, and the source counted it.
    Failed,
}

/// A source of bytes, which may tell what it has left, with a count of its faults.
pub trait Source {
    ghost left: { Self → Option (List ℕ) };

    ghost faults: { Self → ℕ };

    /// Reads the next bytes, at least one where any is left. A failed read takes none.
    fn read(&mut self, into: &mut [u8]) -> Got
        requires { 0 < length into.old }
        ensures bound { WithinSlice (length into.old) result }
        ensures bytes { Reads (left self.old) (left self.new) into.new result }
        ensures later { faults self.old ≤ faults self.new }
        ensures cause { result ≡ Got.Failed → Rose (faults self.old) (faults self.new) };
}
