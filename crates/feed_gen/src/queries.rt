ghost use Rattle.std.specs.Prelude.{◌≡◌, ◌++◌, ◌≤◌, IfOk, codes, string_bytes};
ghost use Rattle.feed_gen.specs.Tables.{queries_file, query_from, query_text};

use crate::draws::Draws;
use std::alloc::{AllocError, Global};

/// 2024-05-06 06:00 UTC in seconds since 1970.
const SIX_O_CLOCK: u32 = 1_714_975_200;

/// `queries.txt`.
#[tactic(auto, unfolding(crate::specs::Texts::joined))]
pub fn queries_file(alloc: Global, seed: u64) -> Result<String, AllocError>
    ensures { IfOk result (λ text. string_bytes text ≡ queries_file seed) }
{
    let mut lines = String::new(alloc);
    for place in 0..50u32 {
        let query = query(alloc, seed, place + 1)?;
        let line = line_of(alloc, &query)?;
        lines.push_str(&line)?;
    }
    Ok(lines)
}

fn line_of(alloc: Global, query: &str) -> Result<String, AllocError>
    ensures { IfOk result (λ text. string_bytes text ≡ query.now ++ codes "\n") }
{
    format!(in alloc; "{query}\n")
}

/// The query of a number from 1 to 50: journeys between two stops in an hour of the day, of at most four rides.
#[tactic(auto, unfolding(crate::specs::Draws::state_after))]
pub fn query(alloc: Global, seed: u64, number: u32) -> Result<String, AllocError>
    requires { number ≤ 50 }
    ensures { IfOk result (λ text. string_bytes text ≡ query_text seed number) }
{
    let mut draws = Draws::of(seed, 5_000 + number);
    let from = draws.draw(400);
    let to = draws.draw(400);
    let time = SIX_O_CLOCK + draws.draw(36_000);
    query_from(alloc, from, to, time)
}

fn query_from(alloc: Global, from: u32, to: u32, time: u32) -> Result<String, AllocError>
    ensures { IfOk result (λ text. string_bytes text ≡ query_from from to time) }
{
    format!(in alloc; "from=stop:S{from}&to=stop:S{to}&time={time}&window=3600&rides=4&page=200")
}
