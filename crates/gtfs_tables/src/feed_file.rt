ghost use Rattle.std.specs.Prelude.{◌≡◌, ◌++◌, ◌≤◌, Some, IfOk, IfSome, codes, length, string_bytes};
ghost use Rattle.otp_base.specs.Answers.{Gives};
ghost use Rattle.otp_base.specs.Faults.{Rose};
ghost use Rattle.otp_model.specs.FeedFaults.{IsFault, fault_of_file, told_of};
ghost use Rattle.otp_model.specs.Limits.{most_file_bytes};
ghost use Rattle.otp_model.specs.Rows.{AreRead};
ghost use Rattle.gtfs_tables.specs.Feed.{found_in, optional_in, required_in, row_fault, rows_of, rows_or_none, rows_there};

use crate::table::{TableRow, read_table};
use gtfs_records::{Fault, TableFault};
use otp_base::{FileFault, Folder, List, Memory, read_file};
use otp_model::{FeedCause, FeedFault, FeedFile};
use std::alloc::Global;

/// The most bytes that a file of a feed has.
const MOST_FILE_BYTES: u64 = 536_870_912;

/// A fault of a whole file.
pub fn fault_of_file(alloc: Global, cause: FeedCause, file: FeedFile) -> FeedFault
    ensures { IsFault result (fault_of_file cause file) }
{
    FeedFault::at(alloc, cause, file, 0, "")
}

/// A fault of a table, with its file and the name of its column.
fn row_fault<T: TableRow>(alloc: Global, fault: Fault) -> FeedFault
    ensures { IsFault result (row_fault T.kind fault) }
{
    let column = match T::columns().get(fault.column) {
        Some(name) => *name,
        None => "",
    };
    FeedFault::at(alloc, fault.cause, T::file(), fault.row, column)
}

/// The path of a file in a folder.
fn path_of(alloc: Global, folder: &str, name: &str) -> Result<String, Memory>
    ensures { IfOk result (λ s. string_bytes s ≡ folder.now ++ (codes "/" ++ name.now)) }
{
    let mut path = String::from_str(alloc, folder)?;
    path.push_str("/")?;
    path.push_str(name)?;
    Ok(path)
}

/// The rows of a file's bytes.
fn rows_of<T: TableRow>(alloc: Global, bytes: &[u8]) -> Result<List<T>, FeedFault>
    requires { length bytes.now ≤ most_file_bytes }
    ensures rows { Gives (λ rows. rows) told_of result (rows_of T.kind bytes.now) }
    ensures fine { result ≡ Err FeedFault.Read → ⊥ }
    ensures are_read { IfOk result (AreRead T.is_read) }
{
    match read_table::<T>(alloc, bytes) {
        Ok(rows) => Ok(rows),
        Err(TableFault::Memory) => Err(FeedFault::Memory),
        Err(TableFault::Fault(fault)) => Err(row_fault::<T>(alloc, fault)),
    }
}

/// The rows of a kind, if the folder has its file.
pub fn found_rows<F: Folder, T: TableRow>(
    alloc: Global,
    folder: &mut F,
    path: &str,
) -> Result<Option<List<T>>, FeedFault>
    ensures rows { IfSome (F.files folder.old)
        (λ files. Gives (λ rows. rows) told_of result (found_in T.kind path.now files)) }
    ensures unchanged { F.files folder.new ≡ F.files folder.old }
    ensures later { F.faults folder.old ≤ F.faults folder.new }
    ensures cause { result ≡ Err FeedFault.Read → Rose (F.faults folder.old) (F.faults folder.new) }
    ensures are_read { IfOk result (λ rows. IfSome rows (AreRead T.is_read)) }
{
    let file = path_of(alloc, path, T::file().name())?;
    match read_file(alloc, folder, file.as_str(), MOST_FILE_BYTES) {
        Ok(bytes) => Ok(Some(rows_of::<T>(alloc, bytes.as_slice())?)),
        Err(FileFault::Missing) => Ok(None),
        Err(FileFault::TooLarge) => Err(fault_of_file(alloc, FeedCause::TooLarge, T::file())),
        Err(FileFault::ReadFault) => Err(FeedFault::Read),
        Err(FileFault::Memory) => Err(FeedFault::Memory),
    }
}

/// The rows of a file that must be there.
fn rows_there<T: Drop>(
    alloc: Global,
    file: FeedFile,
    rows: Option<List<T>>,
) -> Result<List<T>, FeedFault>
    ensures rows { Gives (λ rows. rows) told_of result (rows_there file rows) }
    ensures fine { result ≡ Err FeedFault.Read → ⊥ }
    ensures same { IfOk result (λ there. rows ≡ Some there) }
{
    match rows {
        Some(rows) => Ok(rows),
        None => Err(fault_of_file(alloc, FeedCause::MissingFile, file)),
    }
}

/// The rows of a file that may be missing.
fn rows_or_none<T: Drop>(alloc: Global, rows: Option<List<T>>) -> List<T>
    ensures { result ≡ rows_or_none rows }
{
    match rows {
        Some(rows) => rows,
        None => List::new(alloc),
    }
}

/// The rows of a kind whose file must be there.
pub fn required_rows<F: Folder, T: TableRow>(
    alloc: Global,
    folder: &mut F,
    path: &str,
) -> Result<List<T>, FeedFault>
    ensures rows { IfSome (F.files folder.old)
        (λ files. Gives (λ rows. rows) told_of result (required_in T.kind path.now files)) }
    ensures unchanged { F.files folder.new ≡ F.files folder.old }
    ensures later { F.faults folder.old ≤ F.faults folder.new }
    ensures cause { result ≡ Err FeedFault.Read → Rose (F.faults folder.old) (F.faults folder.new) }
    ensures are_read { IfOk result (AreRead T.is_read) }
{
    let rows = found_rows::<F, T>(alloc, folder, path)?;
    rows_there(alloc, T::file(), rows)
}

/// The rows of a kind whose file may be missing.
pub fn optional_rows<F: Folder, T: TableRow>(
    alloc: Global,
    folder: &mut F,
    path: &str,
) -> Result<List<T>, FeedFault>
    ensures rows { IfSome (F.files folder.old)
        (λ files. Gives (λ rows. rows) told_of result (optional_in T.kind path.now files)) }
    ensures unchanged { F.files folder.new ≡ F.files folder.old }
    ensures later { F.faults folder.old ≤ F.faults folder.new }
    ensures cause { result ≡ Err FeedFault.Read → Rose (F.faults folder.old) (F.faults folder.new) }
    ensures are_read { IfOk result (AreRead T.is_read) }
{
    let rows = found_rows::<F, T>(alloc, folder, path)?;
    Ok(rows_or_none(alloc, rows))
}
