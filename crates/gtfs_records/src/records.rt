ghost use Rattle.std.specs.Prelude.{◌≡◌, IfOk};
ghost use Rattle.csv.specs.Records.{fields_of};
ghost use Rattle.gtfs_records.specs.Records.{TakesRecord, records_of};

use csv::{ByteRecord, Error, Reader, ReaderBuilder};
use otp_base::Memory;
use std::alloc::Global;
use std::marker::Model;

/// The records of a file one after the other, which contracts see as the list of those that are left.
#[derive(Drop)]
pub struct Records<'a> {
    reader: Reader<&'a [u8]>,
    ended: bool,
}

impl<'a> Model for Records<'a> {
    ghost use Rattle.std.specs.Prelude.{◌≡◌, List, [], false, if◌then◌else◌};
    ghost use Rattle.gtfs_records.specs.Records.{IsBetween, Record, left_of};

    ghost Value = { List Record };

    ghost view = { λ rows. if rows.ended then [] else left_of rows.reader };

    ghost invariant = { λ rows. rows.ended ≡ false → IsBetween rows.reader };
}

impl<'a> Records<'a> {
    /// The records of a file's bytes: commas, double quotes, any number of fields in each, blank lines
    /// passed over, and no byte order mark (RFC 4180; GTFS Schedule reference, "File Requirements").
    pub fn new(alloc: Global, file: &'a [u8]) -> Records<'a>
        ensures { result ≡ records_of file.now }
    {
        let reader = ReaderBuilder::new()
            .has_headers(false)
            .flexible(true)
            .from_reader(alloc, file);
        Records {
            reader,
            ended: false,
        }
    }

    /// Takes the next record into `row`, and tells whether there was one. Nothing but want of memory
    /// stops it; after that it gives no more records.
    pub fn next(&mut self, row: &mut ByteRecord) -> Result<bool, Memory>
        ensures { IfOk result (λ found. TakesRecord self.old self.new found (fields_of row.new)) }
    {
        if self.ended {
            return Ok(false);
        }
        match self.reader.read_byte_record(row) {
            Ok(true) => return Ok(true),
            Ok(false) => {
                self.ended = true;
                return Ok(false);
            }
            Err(error) => {
                self.ended = true;
                return Err(memory_of(error));
            }
        }
    }
}

/// Bytes in memory and records of any length leave no other error than want of memory.
fn memory_of(_error: Error) -> Memory {
    Memory
}
