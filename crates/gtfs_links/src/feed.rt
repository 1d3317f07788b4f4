ghost use Rattle.std.specs.Prelude.{◌≡◌, ◌≢◌, ◌≤◌, IfErr, IfOk};
ghost use Rattle.otp_base.specs.Answers.{Gives};
ghost use Rattle.otp_model.specs.FeedFaults.{told_of};
ghost use Rattle.otp_model.specs.Limits.{most_scale};
ghost use Rattle.otp_model.specs.Rows.{AreTables};
ghost use Rattle.gtfs_links.specs.Linked.{linked_of};
ghost use Rattle.gtfs_links.specs.Resolved.{IsResolved};

use crate::check::check;
use crate::indexes::Indexes;
use crate::linking::linked_feed;
use crate::numbers::Numbers;
use otp_base::List;
use otp_model::{FeedFault, Stop, Tables, TimeRow, TransferRow, Trip, TripNo};
use std::alloc::Global;

/// A row of `frequencies.txt` of a trip that is kept: it starts at `start` and then every `headway` seconds,
/// before `end`, in seconds from noon less 12 hours of the service day.
#[derive(Clone, Copy, Debug, PartialEq, Eq)]
pub struct HeadwayRow {
    pub trip: TripNo,
    pub start: u32,
    pub end: u32,
    pub headway: u32,
}

/// A feed whose references are resolved, each list in row order.
#[derive(Debug, Drop)]
pub struct Linked {
    /// The rows of `stops.txt`.
    pub stops: List<Stop>,
    /// The trips kept: those with at least two calls.
    pub trips: List<Trip>,
    /// The calls of the trips kept: the rows of `stop_times.txt` that name a stop.
    pub times: List<TimeRow>,
    /// The rows of `transfers.txt`.
    pub transfers: List<TransferRow>,
    /// How many rows of `stop_times.txt` name no stop, and how many trips aren't kept.
    pub passed: u64,
    /// The rows of `frequencies.txt` of the trips kept.
    pub headways: List<HeadwayRow>,
}

/// Resolves the references of a feed's records. Stops and trips go by their place in the lists of the
/// answer, routes by their row, services by their first sight in `calendar.txt` and then
/// `calendar_dates.txt`. `scale` is how many thousandths of a millimetre a microdegree of longitude is long.
///
/// # Errors
///
/// `At` with the first fault, exactly: over the files 1 to 9 by row, in a row by the number of the cause and
/// then in the order of the columns. The causes are 7, a key that an earlier row of the file has (the ids of
/// stops, routes, trips and of `calendar.txt`, trip and `stop_sequence`, service and date, trip and
/// `start_time`); 8, a foreign id that no record has; 9, an agency of another time zone than `zone_name`, which
/// is a fault of row 0 where there is no agency.
pub fn link(
    alloc: Global,
    tables: &Tables,
    zone_name: &str,
    scale: u32,
) -> Result<Linked, FeedFault>
    requires tables { AreTables tables.now }
    requires scale { scale ≤ most_scale }
    ensures links { Gives (λ linked. linked) told_of result (linked_of tables.now zone_name.now scale) }
    ensures reads_nothing { IfErr result (λ fault. fault ≢ FeedFault.Read) }
    ensures resolved { IfOk result IsResolved }
{
    let Ok(indexes) = Indexes::of(alloc, tables) else {
        return Err(FeedFault::Memory);
    };
    let Ok(numbers) = Numbers::of(alloc, tables, &indexes) else {
        return Err(FeedFault::Memory);
    };
    check(alloc, tables, zone_name, &indexes, &numbers)?;
    match linked_feed(alloc, tables, scale, &indexes, &numbers) {
        Ok(linked) => Ok(linked),
        Err(_) => Err(FeedFault::Memory),
    }
}
