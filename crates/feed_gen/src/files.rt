ghost use Rattle.std.specs.Prelude.{◌≡◌, IfOk, MatchOption, string_bytes};
ghost use Rattle.feed_gen.specs.Files.{IsGenerated, IsTable};

use crate::calls::stop_times_file;
use crate::fault::GenFault;
use crate::messages::message;
use crate::names::message_named;
use crate::queries::queries_file;
use crate::tables::{AGENCY, CALENDAR, routes_file, stops_file, trips_file};
use otp_base::{List, Memory};
use std::alloc::Global;

/// The bytes of a file: one of the six of the feed, `message-C-F.pb` for a commit C from 1 to 20 and a real-time feed F from 1
/// to 10, or `queries.txt`.
///
/// # Errors
///
/// `UnknownName` exactly where it is none of these.
pub fn generated(alloc: Global, seed: u64, name: &str) -> Result<List<u8>, GenFault>
    ensures { IsGenerated seed name.now result }
{
    if let Some(text) = table_named(alloc, seed, name)? {
        let bytes = Vec::from_slice(alloc, text.as_bytes())?;
        return Ok(List::from_vec(bytes));
    }
    let Some(number) = message_named(alloc, name)? else {
        return Err(GenFault::UnknownName);
    };
    let bytes = message(alloc, seed, number.commit, number.feed)?;
    Ok(List::from_vec(bytes))
}

/// The text of a file that is no message, if it has the name.
fn table_named(alloc: Global, seed: u64, name: &str) -> Result<Option<String>, Memory>
    ensures { IfOk result (λ found. MatchOption found ((bytes : _) → IsTable seed name.now bytes → ⊥) (λ text. IsTable seed name.now (string_bytes text))) }
{
    let text = match name {
        "agency.txt" => String::from_str(alloc, AGENCY)?,
        "stops.txt" => stops_file(alloc)?,
        "routes.txt" => routes_file(alloc)?,
        "trips.txt" => trips_file(alloc)?,
        "stop_times.txt" => stop_times_file(alloc, seed)?,
        "calendar.txt" => String::from_str(alloc, CALENDAR)?,
        "queries.txt" => queries_file(alloc, seed)?,
        _ => return Ok(None),
    };
    Ok(Some(text))
}
