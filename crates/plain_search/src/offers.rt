ghost use Rattle.std.specs.Prelude.{◌≡◌, ◌∷◌, ◌↔◌, IsTrue, OnOk, IfOk};
ghost use Rattle.std.specs.List.{All};
ghost use Rattle.otp_base.specs.Adds.{Adds, FromSome, IsOnly};
ghost use Rattle.otp_model.specs.Ranges.{IsRequestInRange};
ghost use Rattle.plain_search.specs.Offers.{Boards, IsOffer, IsOfferBy, IsValued};

use crate::tails::push_legs;
use otp_base::{List, Memory, push_some};
use otp_model::{Found, Journey, Leg, Request, StopNo, value_of};
use std::alloc::Global;
use walk_table::Reach;

/// Adds the journeys that end in one of the tails.
pub fn add_offers(
    alloc: Global,
    request: &Request,
    access: &[Reach],
    tails: &[List<Leg>],
    offers: &mut Vec<Found>,
) -> Result<(), Memory>
    requires request { IsRequestInRange request.now }
    requires tails { All IsValued tails.now }
    ensures { OnOk result (Adds (FromSome (IsOfferBy request.now access.now) tails.now) offers.old.items offers.new.items) }
{
    for tail in tails {
        add_offers_by(alloc, request, access, tail.as_slice(), offers)?;
    }
    Ok(())
}

fn add_offers_by(
    alloc: Global,
    request: &Request,
    access: &[Reach],
    tail: &[Leg],
    offers: &mut Vec<Found>,
) -> Result<(), Memory>
    requires request { IsRequestInRange request.now }
    requires tail { IsValued tail.now }
    ensures { OnOk result (Adds (IsOfferBy request.now access.now tail.now) offers.old.items offers.new.items) }
{
    for reach in access {
        push_some(offers, offer(alloc, request, tail, reach)?)?;
    }
    Ok(())
}

/// The journey that walks to the tail's first stop, if it departs in the window.
fn offer(
    alloc: Global,
    request: &Request,
    tail: &[Leg],
    reach: &Reach,
) -> Result<Option<Found>, Memory>
    requires request { IsRequestInRange request.now }
    requires tail { IsValued tail.now }
    ensures { IfOk result (IsOnly (IsOffer request.now tail.now reach.now)) }
{
    if !boards(reach.stop, tail) {
        return Ok(None);
    }
    let journey = journey_of(alloc, reach.seconds, tail)?;
    let value = value_of(&journey, request);
    if !request.has_in_window(&value) {
        return Ok(None);
    }
    Ok(Some(Found { value, journey }))
}

/// Whether the first ride boards at this stop.
fn boards(stop: StopNo, tail: &[Leg]) -> bool
    ensures { IsTrue result ↔ Boards stop tail.now }
{
    match tail {
        [Leg::Ride { board, .. }, ..] => board.stop == stop,
        _ => false,
    }
}

/// The journey of a first walk and a tail.
fn journey_of(alloc: Global, seconds: u32, tail: &[Leg]) -> Result<Journey, Memory>
    ensures { IfOk result (λ journey. journey.legs ≡ Leg.Walk seconds ∷ tail.now) }
{
    let mut legs = Vec::new(alloc);
    legs.push(Leg::Walk { seconds })?;
    push_legs(alloc, &mut legs, tail)?;
    Ok(Journey {
        legs: List::from_vec(legs),
    })
}
