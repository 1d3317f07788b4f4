ghost use Rattle.std.specs.Prelude.{◌≡◌, ◌≤◌, IfOk, drop, length, map};
ghost use Rattle.std.specs.List.{All};
ghost use Rattle.csv.specs.Records.{fields_of};
ghost use Rattle.gtfs_records.specs.Faults.{each, told_fault};
ghost use Rattle.gtfs_records.specs.Records.{records_of};
ghost use Rattle.gtfs_records.specs.Table.{cells as cells_of, column_at, header_of, row_of, table_of};
ghost use Rattle.gtfs_tables.specs.Rows.{Kind};
ghost use Rattle.otp_base.specs.Answers.{Gives};

use csv::ByteRecord;
use gtfs_records::{Records, RowCells, TableFault, column_of};
use otp_base::{List, Memory};
use otp_model::FeedFile;
use std::alloc::Global;

/// A kind of row of a feed's files.
pub trait TableRow: Drop {
    ghost kind: { Kind Self };

    /// What holds of each row that was read.
    ghost is_read: { Self → Type 0 };

    /// The file that it stands in.
    fn file() -> FeedFile
        ensures { result ≡ kind.file };

    /// The names of the columns, those that must be in the header first.
    fn columns() -> &'static [&'static str]
        ensures { map (λ s. s.now) result.now ≡ kind.columns };

    /// How many columns must be in the header.
    fn needed_columns() -> usize
        ensures { result ≡ kind.needed };

    /// Reads a row.
    fn read(alloc: Global, cells: &RowCells) -> Result<Self, TableFault>
        ensures row { Gives (λ x. x) told_fault result (kind.row_at cells.now.row (cells_of cells.now)) }
        ensures is_read { IfOk result is_read };
}

/// Where the columns of a kind of row stand under a header.
fn places_of<T: TableRow>(
    alloc: Global,
    header: &ByteRecord,
) -> Result<List<Option<usize>>, TableFault>
    ensures { Gives (λ places. places) told_fault result
        (each (column_at T.kind.needed (fields_of header.now)) 0 T.kind.columns) }
{
    let names = T::columns();
    let needed = T::needed_columns();
    let mut places = List::new(alloc);
    for column in 0..names.len() {
        let place = column_of(header, needed, column, names[column])?;
        places.push(place)?;
    }
    Ok(places)
}

/// Takes the header off, which is empty where there is no record.
fn take_header(alloc: Global, records: &mut Records) -> Result<ByteRecord, Memory>
    ensures { IfOk result
        (λ header. (fields_of header ≡ header_of records.old) × (records.new ≡ drop 1 records.old)) }
{
    let mut header = ByteRecord::new(alloc);
    if !records.next(&mut header)? {
        header.clear();
    }
    Ok(header)
}

/// The rows that are left, each by its columns at these places.
fn rows_under<T: TableRow>(
    alloc: Global,
    mut records: Records,
    places: List<Option<usize>>,
) -> Result<List<T>, TableFault>
    ensures rows { Gives (λ table. table) told_fault result
        (each (row_of T.kind.row_at places) 1 records.entry) }
    ensures are_read { IfOk result (All T.is_read) }
{
    let mut cells = RowCells {
        row: 0,
        record: ByteRecord::new(alloc),
        places,
    };
    let mut table = List::new(alloc);
    for row in 1..u64::MAX {
        if !records.next(&mut cells.record)? {
            return Ok(table);
        }
        cells.row = row;
        table.push(T::read(alloc, &cells)?)?;
    }
    Err(TableFault::Memory)
}

/// The rows of a table, or its first fault: the columns that must be there in their order, then row by
/// row the cells that are no text or that their readers refuse. There are no more rows than bytes.
#[tactic(auto, unfolding(gtfs_records::specs::Table::table_of))]
pub fn read_table<T: TableRow>(alloc: Global, file: &[u8]) -> Result<List<T>, TableFault>
    ensures rows { Gives (λ table. table) told_fault result
        (table_of T.kind.columns T.kind.needed T.kind.row_at (records_of file.now)) }
    ensures are_read { IfOk result (All T.is_read) }
    ensures few { IfOk result (λ table. length table ≤ length file.now) }
{
    let mut records = Records::new(alloc, file);
    let header = take_header(alloc, &mut records)?;
    let places = places_of::<T>(alloc, &header)?;
    rows_under::<T>(alloc, records, places)
}
