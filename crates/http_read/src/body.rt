ghost use Rattle.std.specs.Prelude.{◌≡◌, ◌≤◌, length};
ghost use Rattle.otp_base.specs.Faults.{Rose};
ghost use Rattle.http_read.specs.Held.{ReadsRest};

use otp_base::{Got, Source};

/// How many bytes one read asks for.
const PIECE: usize = 8_192;

/// How reading a body ended.
#[derive(Clone, Copy, Debug, PartialEq, Eq)]
pub enum Rest {
    /// It is whole.
    Whole,
    /// The input ended inside it.
    CutShort,
    /// A read failed.
    ReadFault,
    /// Memory ran out.
    Memory,
}

/// Reads on until the body has its size, and no byte more.
pub fn read_rest<S: Source>(source: &mut S, body: &mut Vec<u8>, size: usize) -> Rest
    requires { length body.old.items ≤ size }
    ensures bytes { ReadsRest size (S.left source.old) body.old.items (S.left source.new) body.new.items result }
    ensures later { S.faults source.old ≤ S.faults source.new }
    ensures cause { result ≡ Rest.ReadFault → Rose (S.faults source.old) (S.faults source.new) }
{
    let mut piece = [0u8; PIECE];
    while body.len() < size {
        let room = (size - body.len()).min(PIECE);
        match source.read(&mut piece[..room]) {
            Got::Bytes(count) => {
                if body.extend_from_slice(&piece[..count]).is_err() {
                    return Rest::Memory;
                }
            }
            Got::End => return Rest::CutShort,
            Got::Failed => return Rest::ReadFault,
        }
    }
    Rest::Whole
}
