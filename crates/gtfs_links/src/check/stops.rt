ghost use Rattle.std.specs.Prelude.{◌≡◌, map};
ghost use Rattle.otp_model.specs.Sights.{has_name};
ghost use Rattle.gtfs_links.specs.Index.{IsIndexOf};
ghost use Rattle.gtfs_links.specs.Rules.{id_of_stop, is_unknown, stop_rule, stop_wrong};

use super::rows::Rule;
use super::wrong::{Column, Wrong};
use name_index::Names;
use otp_base::Text;
use otp_model::StopRow;

/// Whether a field names a record that isn't there.
pub fn is_unknown(names: &Names, id: &Text) -> bool
    ensures { result ≡ is_unknown (has_name names.now) id.now }
{
    let id = id.as_str();
    id.len() != 0 && !names.has(id)
}

/// Each stop is to have an id of its own, and a parent that is there, if any.
#[derive(Drop)]
pub struct StopRule<'a> {
    pub stops: &'a Names<'a>,
}

impl<'a> Rule for StopRule<'a> {
    type Row = StopRow;

    ghost rule = { λ it. stop_rule (has_name it.stops.now) };

    ghost knows = { λ it rows. IsIndexOf (map id_of_stop rows) it.stops.now };

    fn judge(&self, rows: &[StopRow], place: usize) -> Option<Wrong> {
        let row = &rows[place];
        let repeated = self.stops.place(row.stop_id.as_str()) < place;
        wrong_stop(repeated, self.stops, row)
    }
}

fn wrong_stop(repeated: bool, stops: &Names, row: &StopRow) -> Option<Wrong>
    ensures { result ≡ stop_wrong repeated (has_name stops.now) row.now }
{
    if repeated {
        return Some(Wrong::duplicate(Column::StopId));
    }
    if is_unknown(stops, &row.parent_station) {
        return Some(Wrong::unknown(Column::ParentStation));
    }
    None
}
