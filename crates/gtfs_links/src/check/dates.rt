ghost use Rattle.std.specs.Prelude.{◌≡◌, ◌<◌, ◌^◌, [], length};
ghost use Rattle.std.specs.List.{All};
ghost use Rattle.gtfs_links.specs.Faults.{Finds, first_wrong};
ghost use Rattle.gtfs_links.specs.Index.{HasId, service_of_date};
ghost use Rattle.gtfs_links.specs.Keys.{IsFirstRepeat, numbers_in};
ghost use Rattle.gtfs_links.specs.Rules.{date_rule, is_same_date};

use super::ids::wrong_if;
use super::repeats::first_repeat;
use super::rows::{Rule, check_rows};
use super::wrong::{Column, Wrong};
use crate::indexes::Indexes;
use crate::numbers::Numbers;
use otp_model::{DateRow, FeedFault, FeedFile};
use std::alloc::Global;

/// Each row is to have a date of its own in its service. The first that has an earlier one's is known.
#[derive(Drop)]
struct DateRule {
    first_repeat: usize,
}

impl Rule for DateRule {
    type Row = DateRow;

    ghost rule = { λ it. date_rule };

    ghost knows = { λ it rows. IsFirstRepeat is_same_date rows it.first_repeat };

    fn judge(&self, rows: &[DateRow], place: usize) -> Option<Wrong> {
        wrong_if(place >= self.first_repeat, Column::Date)
    }
}

/// Looks for the first row whose service has an earlier one of the same date.
pub fn check_dates(
    alloc: Global,
    indexes: &Indexes,
    numbers: &Numbers,
    rows: &[DateRow],
) -> Result<(), FeedFault>
    requires few { length indexes.now.services < 2 ^ 32 }
    requires numbers { numbers.now.services ≡ numbers_in indexes.now.services service_of_date rows.now }
    requires known { All (HasId indexes.now.services service_of_date) rows.now }
    ensures { Finds result (first_wrong FeedFile.CalendarDates date_rule [] rows.now) }
{
    let services = numbers.services.as_slice();
    let Ok(first_repeat) = first_repeat(alloc, &indexes.services, services, rows) else {
        return Err(FeedFault::Memory);
    };
    check_rows(
        alloc,
        FeedFile::CalendarDates,
        &DateRule { first_repeat },
        rows,
    )
}
