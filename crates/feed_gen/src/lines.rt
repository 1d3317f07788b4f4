ghost use Rattle.std.specs.Prelude.{◌≡◌, ◌<◌, IfOk, OnOk, length};
ghost use Rattle.otp_base.specs.EachAt.{EachAt};
ghost use Rattle.feed_gen.specs.Draws.{start_of, state_after};
ghost use Rattle.feed_gen.specs.Lines.{hop, stop_at, stop_of};

use crate::draws::Draws;
use otp_base::Memory;
use std::alloc::Global;

/// The stops of a line in the order of its calls.
#[tactic(auto, unfolding(crate::specs::Lines::stop_of, crate::specs::Draws::state_after))]
pub fn stops_of(alloc: Global, seed: u64, line: u32, draws: &mut Draws) -> Result<Vec<u32>, Memory>
    requires { draws.old.state ≡ start_of seed line }
    ensures count { IfOk result (λ stops. length stops.items ≡ 12) }
    ensures each { IfOk result (λ stops. EachAt (λ call stop. stop ≡ stop_of seed line call) stops.items) }
    ensures state { OnOk result (draws.new.state ≡ state_after (start_of seed line) 12) }
{
    let mut at = draws.draw(400);
    let mut stops = Vec::new(alloc);
    stops.push(at)?;
    while stops.len() < 12 {
        at = hop(at, draws.draw(4));
        stops.push(at)?;
    }
    Ok(stops)
}

/// The stop two rows or columns on or back.
fn hop(stop: u32, way: u32) -> u32
    ensures { result ≡ hop stop way }
{
    let row = stop / 20;
    let column = stop % 20;
    match way {
        0 => stop_at(row + 2, column),
        1 => stop_at(row + 18, column),
        2 => stop_at(row, column + 2),
        _ => stop_at(row, column + 18),
    }
}

/// The stop in a row and a column, each counted round.
fn stop_at(row: u32, column: u32) -> u32
    ensures { result ≡ stop_at row column }
{
    20 * (row % 20) + column % 20
}
