ghost use Rattle.std.specs.Prelude.{◌≡◌, ℕ, ◌<◌, ◌≤◌, IfOk, Option, List, length};
ghost use Rattle.otp_base.specs.Faults.{Rose};
ghost use Rattle.otp_base.specs.Folder.{ReadsFile, ReadsWhole, WithinRoom};
ghost use Rattle.otp_base.specs.declared.folder.FileEntry.{FileEntry};

use crate::list::List;
use crate::text::Text;
use std::alloc::Global;

/// A file of a folder in memory.
#[derive(Debug, Drop)]
pub struct FileEntry {
    pub name: Text,
    pub bytes: List<u8>,
}

/// What one read of a folder gave.
#[derive(Clone, Copy, Debug, PartialEq, Eq)]
pub enum FileGot {
    /// So many bytes, at the front of the buffer.
    Bytes(usize),
    /// The place is at or past the file's end.
    End,
    /// No file has the name.
    Missing,
    /// The read failed, and the folder counted it.
    Failed,
}

/// Why a file could not be read whole.
#[derive(Clone, Copy, Debug, PartialEq, Eq)]
pub enum FileFault {
    /// No file has the name.
    Missing,
    /// The file has more bytes than were asked for.
    TooLarge,
    /// A read failed, and the folder counted it.
    ReadFault,
    /// Memory ran out.
    Memory,
}

/// A folder of files, which may tell what it holds, with a count of its faults.
pub trait Folder {
    ghost files: { Self → Option (List FileEntry) };

    ghost faults: { Self → ℕ };

    /// Reads bytes of a file from a place on. No read changes the files, whatever it answers.
    fn read(&mut self, name: &str, at: u64, into: &mut [u8]) -> FileGot
        requires { 0 < length into.old }
        ensures bound { WithinRoom (length into.old) result }
        ensures bytes { ReadsFile (files self.old) name.now at result into.new }
        ensures unchanged { files self.new ≡ files self.old }
        ensures later { faults self.old ≤ faults self.new }
        ensures cause { result ≡ FileGot.Failed → Rose (faults self.old) (faults self.new) };
}

/// How many bytes are asked for in one read.
const PIECE: usize = 65_536;

/// The bytes of a file that has at most `limit` of them.
pub fn read_file<F: Folder>(
    alloc: Global,
    folder: &mut F,
    name: &str,
    limit: u64,
) -> Result<List<u8>, FileFault>
    ensures whole { ReadsWhole (F.files folder.old) name.now limit result }
    ensures within { IfOk result (λ bytes. length bytes ≤ limit) }
    ensures unchanged { F.files folder.new ≡ F.files folder.old }
    ensures later { F.faults folder.old ≤ F.faults folder.new }
    ensures cause { result ≡ Err FileFault.ReadFault → Rose (F.faults folder.old) (F.faults folder.new) }
{
    let mut buffer = [0u8; PIECE];
    let mut bytes = Vec::new(alloc);
    while bytes.len() as u64 <= limit {
        match folder.read(name, bytes.len() as u64, &mut buffer) {
            FileGot::Bytes(count) => {
                if bytes.extend_from_slice(&buffer[..count]).is_err() {
                    return Err(FileFault::Memory);
                }
            }
            FileGot::End => return Ok(List::from_vec(bytes)),
            FileGot::Missing => return Err(FileFault::Missing),
            FileGot::Failed => return Err(FileFault::ReadFault),
        }
    }
    Err(FileFault::TooLarge)
}
