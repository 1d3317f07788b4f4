ghost use Rattle.std.specs.Prelude.{◌≡◌, ◌≤◌, IfOk, length, string_bytes};
ghost use Rattle.feed_load.specs.Runs.{call_count};
ghost use Rattle.otp_model.specs.Limits.{most_calls};
ghost use Rattle.otp_server.specs.Lines.{counts_line};

use otp_base::Memory;
use otp_model::{Feed, Run};
use std::alloc::{AllocError, Global};

/// The line of counts of a feed, of which so many rows and trips were passed over.
pub fn counts_line(alloc: Global, feed: &Feed, passed: u64) -> Result<String, Memory>
    requires { call_count feed.now.runs ≤ most_calls }
    ensures { IfOk result (λ line. string_bytes line ≡ counts_line (length feed.now.stops) (length feed.now.trips) (length feed.now.runs) (call_count feed.now.runs) passed) }
{
    let calls = count_calls(feed.runs.as_slice());
    let line = line_of(
        alloc,
        feed.stops.len(),
        feed.trips.len(),
        feed.runs.len(),
        calls,
        passed,
    )?;
    Ok(line)
}

fn line_of(
    alloc: Global,
    stops: usize,
    trips: usize,
    runs: usize,
    calls: usize,
    passed: u64,
) -> Result<String, AllocError>
    ensures { IfOk result (λ line. string_bytes line ≡ counts_line stops trips runs calls passed) }
{
    format!(in alloc; "stops={stops} trips={trips} runs={runs} calls={calls} passed={passed}\n")
}

/// How many calls runs have.
fn count_calls(runs: &[Run]) -> usize
    requires { call_count runs.now ≤ most_calls }
    ensures { result ≡ call_count runs.now }
{
    let mut count = 0;
    for run in runs {
        count += run.calls.len();
    }
    count
}
