ghost use Rattle.std.specs.Prelude.{◌≡◌};
ghost use Rattle.csv.specs.Records.{fields_of};
ghost use Rattle.gtfs_records.specs.Table.{cell_in, cells};

use crate::fields::trimmed;
use csv::ByteRecord;
use otp_base::List;

/// A record of a table, with its number and where each column of its kind of row stands in it.
#[derive(Drop)]
pub struct RowCells {
    pub row: u64,
    pub record: ByteRecord,
    pub places: List<Option<usize>>,
}

impl RowCells {
    /// The field of a column without spaces at its ends; empty where the column or the field isn't there.
    pub fn cell(&self, column: usize) -> &[u8]
        ensures { result.now ≡ cells self.now column }
    {
        match self.places.as_slice().get(column) {
            Some(place) => cell_of(&self.record, *place),
            None => &[],
        }
    }
}

/// The field at a place, without spaces at its ends; empty where the record has none.
#[tactic(auto, unfolding(crate::specs::Fields::trim_start))]
fn cell_of(fields: &ByteRecord, place: Option<usize>) -> &[u8]
    ensures { result.now ≡ cell_in (fields_of fields.now) place }
{
    let Some(place) = place else {
        return &[];
    };
    match fields.get(place) {
        Some(field) => trimmed(field),
        None => &[],
    }
}
