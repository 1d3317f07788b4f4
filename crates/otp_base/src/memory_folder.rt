ghost use Rattle.std.specs.Prelude.{◌≡◌, ◌<◌, length, Some, option_map};
ghost use Rattle.otp_base.specs.Folder.{GivesFile, WithinRoom, file_of};

use crate::folder::{FileEntry, FileGot, Folder};
use crate::list::List;

/// A folder in memory, whose calls with the numbers in `fails`, counted from 1, fail.
#[derive(Debug, Drop)]
pub struct MemoryFolder {
    pub files: List<FileEntry>,
    pub fails: List<u64>,
    pub calls: u64,
    pub faults: u64,
}

impl MemoryFolder {
    /// A folder that was not read yet.
    pub fn new(files: List<FileEntry>, fails: List<u64>) -> MemoryFolder
        ensures { result ≡ record { files = files; fails = fails; calls = 0; faults = 0 } }
    {
        MemoryFolder {
            files,
            fails,
            calls: 0,
            faults: 0,
        }
    }
}

impl Folder for MemoryFolder {
    ghost files = { λ s. Some s.files };

    ghost faults = { λ s. s.faults };

    fn read(&mut self, name: &str, at: u64, into: &mut [u8]) -> FileGot {
        self.calls = self.calls.saturating_add(1);
        if self.fails.as_slice().contains(&self.calls) {
            self.faults = self.faults.saturating_add(1);
            return FileGot::Failed;
        }
        read_from(self.files.as_slice(), name, at, into)
    }
}

/// A folder in memory that never fails.
#[derive(Debug, Drop)]
pub struct SteadyFolder {
    pub files: List<FileEntry>,
}

impl Folder for SteadyFolder {
    ghost files = { λ s. Some s.files };

    ghost faults = { λ _. 0 };

    fn read(&mut self, name: &str, at: u64, into: &mut [u8]) -> FileGot {
        read_from(self.files.as_slice(), name, at, into)
    }
}

/// The bytes of the first file of this name.
fn find<'a>(files: &'a [FileEntry], name: &str) -> Option<&'a [u8]>
    ensures { option_map (λ s. s.now) result ≡ file_of files.now name.now }
{
    match files {
        [] => None,
        [first, rest @ ..] => {
            if first.name.is(name) {
                Some(first.bytes.as_slice())
            } else {
                find(rest, name)
            }
        }
    }
}

/// Reads a file of the list.
fn read_from(files: &[FileEntry], name: &str, at: u64, into: &mut [u8]) -> FileGot
    requires { 0 < length into.old }
    ensures bound { WithinRoom (length into.old) result }
    ensures bytes { GivesFile (file_of files.now name.now) at result into.new }
    ensures fine { result ≡ FileGot.Failed → ⊥ }
{
    match find(files, name) {
        None => FileGot::Missing,
        Some(bytes) => copy_from(bytes, at as usize, into),
    }
}

/// Copies bytes from a place on, as many as there is room for.
fn copy_from(bytes: &[u8], at: usize, into: &mut [u8]) -> FileGot
    requires { 0 < length into.old }
    ensures bound { WithinRoom (length into.old) result }
    ensures bytes { GivesFile (Some bytes.now) at result into.new }
    ensures fine { result ≡ FileGot.Failed → ⊥ }
{
    if at >= bytes.len() {
        return FileGot::End;
    }
    let count = into.len().min(bytes.len() - at);
    into[..count].copy_from_slice(&bytes[at..at + count]);
    FileGot::Bytes(count)
}
