ghost use Rattle.std.specs.Prelude.{IfOk};
ghost use Rattle.std.specs.List.{All};
ghost use Rattle.otp_model.specs.Ranges.{CanSearch, IsRequestInRange, IsTimely};
ghost use Rattle.otp_model.specs.Whole.{IsWhole};
ghost use Rattle.pareto_front.specs.Front.{AreEnough};
ghost use Rattle.walk_table.specs.Reaches.{AreReached};

use crate::offers::add_offers;
use crate::rides::rides_of;
use crate::tails::{last_tails, longer_tails};
use otp_base::Memory;
use otp_model::{Edges, Found, Request, Run};
use pareto_front::front_of;
use std::alloc::Global;
use walk_table::{Reach, reach_of};

/// The whole list of a request: one journey for each value of a journey over the runs that departs in the
/// window and that no such journey's value dominates, in the order of values.
pub fn all_best(
    alloc: Global,
    runs: &[Run],
    edges: &Edges,
    request: &Request,
) -> Result<Vec<Found>, Memory>
    requires { CanSearch runs.now edges.now request.now }
    ensures { IfOk result (λ list. IsWhole runs.now edges.now request.now list.items) }
{
    let access = reach_of(alloc, edges, &request.from)?;
    let egress = reach_of(alloc, edges, &request.to)?;
    let offers = all_offers(alloc, runs, edges, request, &access, &egress)?;
    front_of(alloc, offers)
}

/// Every journey that departs in the window.
fn all_offers(
    alloc: Global,
    runs: &[Run],
    edges: &Edges,
    request: &Request,
    access: &[Reach],
    egress: &[Reach],
) -> Result<Vec<Found>, Memory>
    requires runs { All IsTimely runs.now }
    requires request { IsRequestInRange request.now }
    requires access { AreReached edges.now request.now.from access.now }
    requires egress { AreReached edges.now request.now.to egress.now }
    ensures { IfOk result (λ offers. AreEnough runs.now edges.now request.now offers.items) }
{
    let rides = rides_of(alloc, runs)?;
    let mut tails = last_tails(alloc, &rides, egress)?;
    let mut offers = Vec::new(alloc);
    add_offers(alloc, request, access, &tails, &mut offers)?;
    for more in 1..request.rides {
        tails = longer_tails(alloc, request.slack, edges, &tails, &rides)?;
        add_offers(alloc, request, access, &tails, &mut offers)?;
    }
    Ok(offers)
}
