ghost use Rattle.std.specs.Prelude.{◌≡◌, ◌≤◌, IfOk, None, length};

use crate::folder::{FileGot, Folder};
use std::fs;
use std::fs::File;
use std::io::{self, ErrorKind};
use std::os::unix::fs::FileExt;
use std::rt::Files;

/// The files of the machine. A name is a path from the current directory; contents are not told.
#[derive(Drop)]
pub struct DiskFolder<R: Files<File = File> + Drop> {
    pub rt: R,
    pub faults: u64,
}

impl<R: Files<File = File> + Drop> DiskFolder<R> {
    /// The files of the machine, of which no read has failed yet.
    pub fn new(rt: R) -> DiskFolder<R>
        ensures { result.faults ≡ 0 }
    {
        DiskFolder { rt, faults: 0 }
    }
}

impl<R: Files<File = File> + Drop> Folder for DiskFolder<R> {
    ghost files = { λ _. None };

    ghost faults = { λ s. s.faults };

    fn read(&mut self, name: &str, at: u64, into: &mut [u8]) -> FileGot {
        match read_at(&self.rt, name, at, into) {
            Ok(count) if count > 0 => FileGot::Bytes(count),
            Ok(_) => FileGot::End,
            Err(error) if is_absence(error.kind()) => FileGot::Missing,
            Err(_) => {
                self.faults = self.faults.saturating_add(1);
                FileGot::Failed
            }
        }
    }
}

fn read_at<R: Files<File = File>>(rt: &R, name: &str, at: u64, into: &mut [u8]) -> io::Result<usize>
    ensures { IfOk result (λ count. count ≤ length into.old) }
{
    fs::open(rt, name)?.read_at(into, at)
}

/// Whether no file has the name: a folder that is not there is one without files.
fn is_absence(kind: ErrorKind) -> bool {
    matches!(kind, ErrorKind::NotFound | ErrorKind::NotADirectory)
}
