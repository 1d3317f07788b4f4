ghost use Rattle.std.specs.Prelude.{◌≡◌};
ghost use Rattle.csv.specs.Records.{fields_of};
ghost use Rattle.otp_base.specs.Answers.{Gives};
ghost use Rattle.gtfs_records.specs.Faults.{told_fault};
ghost use Rattle.gtfs_records.specs.Table.{column_at, place_from};

use crate::fault::{Fault, TableFault};
use crate::fields::trimmed;
use csv::ByteRecord;
use otp_model::FeedCause;

/// Where the column of this name stands: the first of two.
fn place_of(header: &ByteRecord, name: &str) -> Option<usize>
    ensures { result ≡ place_from 0 name.now (fields_of header.now) }
{
    for at in 0..header.len() {
        match header.get(at) {
            Some(field) => {
                if trimmed(field) == name.as_bytes() {
                    return Some(at);
                }
            }
            None => return None,
        }
    }
    None
}

/// Where a column stands, which may lack only if it has no number below `needed`.
pub fn column_of(
    header: &ByteRecord,
    needed: usize,
    column: usize,
    name: &str,
) -> Result<Option<usize>, TableFault>
    ensures { Gives (λ place. place) told_fault result (column_at needed (fields_of header.now) column name.now) }
{
    match place_of(header, name) {
        Some(place) => Ok(Some(place)),
        None => {
            if column < needed {
                Err(TableFault::Fault(Fault {
                    cause: FeedCause::MissingColumn,
                    row: 0,
                    column,
                }))
            } else {
                Ok(None)
            }
        }
    }
}
