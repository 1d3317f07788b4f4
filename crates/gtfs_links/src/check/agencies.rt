ghost use Rattle.std.specs.Prelude.{◌≡◌};
ghost use Rattle.gtfs_links.specs.Faults.{Finds};
ghost use Rattle.gtfs_links.specs.Rules.{agency_fault, agency_rule, zone_wrong};

use super::rows::{Rule, check_rows};
use super::wrong::{Column, Wrong};
use otp_model::{AgencyRow, FeedCause, FeedFault, FeedFile};
use std::alloc::Global;

/// The time zone isn't the one that is wanted.
const OTHER_ZONE: Wrong = Wrong {
    cause: FeedCause::ZonesDiffer,
    column: Column::AgencyTimezone,
};

/// Each agency is to be in this time zone.
#[derive(Drop)]
struct AgencyRule<'a> {
    zone: &'a str,
}

impl<'a> Rule for AgencyRule<'a> {
    type Row = AgencyRow;

    ghost rule = { λ it. agency_rule it.zone.now };

    ghost knows = { λ it rows. Unit {0} };

    fn judge(&self, rows: &[AgencyRow], place: usize) -> Option<Wrong> {
        wrong_zone(self.zone, &rows[place])
    }
}

/// Looks for the first agency of another time zone. A file without records has none of this one either.
pub fn check_agencies(alloc: Global, zone: &str, rows: &[AgencyRow]) -> Result<(), FeedFault>
    ensures { Finds result (agency_fault zone.now rows.now) }
{
    if rows.len() == 0 {
        return Err(OTHER_ZONE.at(alloc, FeedFile::Agency, 0));
    }
    check_rows(alloc, FeedFile::Agency, &AgencyRule { zone }, rows)
}

fn wrong_zone(zone: &str, row: &AgencyRow) -> Option<Wrong>
    ensures { result ≡ zone_wrong zone.now row.now }
{
    if row.agency_timezone.is(zone) {
        return None;
    }
    Some(OTHER_ZONE)
}
