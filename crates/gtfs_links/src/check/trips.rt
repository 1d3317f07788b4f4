ghost use Rattle.std.specs.Prelude.{◌≡◌, map};
ghost use Rattle.otp_model.specs.Sights.{has_name};
ghost use Rattle.gtfs_links.specs.Index.{IsIndexOf};
ghost use Rattle.gtfs_links.specs.Rules.{id_of_trip, trip_rule, trip_wrong};

use super::rows::Rule;
use super::stops::is_unknown;
use super::wrong::{Column, Wrong};
use crate::indexes::Indexes;
use otp_model::TripRow;

/// Each trip is to have an id of its own, and a route and a service that are there.
#[derive(Drop)]
pub struct TripRule<'a> {
    pub indexes: &'a Indexes<'a>,
}

impl<'a> Rule for TripRule<'a> {
    type Row = TripRow;

    ghost rule = { λ it. trip_rule (has_name it.indexes.now.routes) (has_name it.indexes.now.services) };

    ghost knows = { λ it rows. IsIndexOf (map id_of_trip rows) it.indexes.now.trips };

    fn judge(&self, rows: &[TripRow], place: usize) -> Option<Wrong> {
        let row = &rows[place];
        let repeated = self.indexes.trips.place(row.trip_id.as_str()) < place;
        wrong_trip(repeated, self.indexes, row)
    }
}

fn wrong_trip(repeated: bool, indexes: &Indexes, row: &TripRow) -> Option<Wrong>
    ensures { result ≡ trip_wrong repeated (has_name indexes.now.routes) (has_name indexes.now.services) row.now }
{
    if repeated {
        return Some(Wrong::duplicate(Column::TripId));
    }
    if is_unknown(&indexes.routes, &row.route_id) {
        return Some(Wrong::unknown(Column::RouteId));
    }
    if is_unknown(&indexes.services, &row.service_id) {
        return Some(Wrong::unknown(Column::ServiceId));
    }
    None
}
