//! The kept views.
ghost use Rattle.std.specs.Prelude.{◌≡◌, ◌≤◌, [], drop, length, nat_lt, if◌then◌else◌, IfOk};
ghost use Rattle.std.specs.Vec.{vec_capacity};
ghost use Rattle.otp_model.specs.Core.{keep_known, kept_at, most_kept};
ghost use Rattle.pin_ring.specs.Kept.{AreRising, IsTaken, IsViewOf};

use crate::pin::{Pin, find_pin};
use commit_history::{Pass, View};
use otp_base::Memory;
use std::alloc::Global;
use std::marker::Model;
use std::snapshot::Snapshot as Ghost;

/// How many views are kept.
const MOST_KEPT: usize = 8;

/// The views of the last eight commits that were kept, by the numbers of the commits. Contracts see the histories that the views stand
/// for, each a proper beginning of the next, and the feed that they are of.
#[derive(Drop)]
pub struct Pins {
    pins: Vec<Pin>,
    // Which feed it is. It has no bytes.
    first: Ghost<Pass>,
}

impl Model for Pins {
    ghost use Rattle.pin_ring.specs.Kept.{KeptView};

    ghost Value = { KeptView };

    ghost use Rattle.pin_ring.specs.Rings.{IsRing, histories_of};

    ghost view = { λ ring. record { feed = ring.first.value.feed; kept = histories_of ring.pins.items } };

    ghost invariant = { λ ring. IsRing ring.first.value.feed ring.pins };
}

impl Pins {
    /// No view, of the feed of this pass. It takes all memory that is ever needed.
    pub fn new(alloc: Global, pass: &Pass) -> Result<Pins, Memory>
        ensures { IfOk result (λ pins. pins ≡ record { feed = pass.now.feed; kept = [] }) }
    {
        let pins = Vec::with_capacity(alloc, MOST_KEPT)?;
        Ok(Pins {
            pins,
            first: Ghost::of(pass),
        })
    }

    /// Keeps a view that this pass took, if none of its number is kept. Of nine views the first goes. It takes no memory.
    pub fn keep(&mut self, view: View, pass: &Pass)
        requires feed { pass.now.feed ≡ self.old.feed }
        requires taken { IsTaken self.old.feed pass.now.known self.old.kept view }
        ensures { self.new ≡ record self.old { kept = keep_known self.old.kept pass.now.known } }
    {
        if find_pin(self.pins.as_slice(), view.number).is_some() {
            return;
        }
        make_room(&mut self.pins);
        self.pins.push_reserved(Pin {
            view,
            pass: Ghost::of(pass),
        });
    }

    /// The kept view of so many commits. It takes no memory.
    pub fn at(&self, number: u64) -> Option<&View>
        ensures { IsViewOf self.now.feed (kept_at number self.now.kept) result }
    {
        match find_pin(self.pins.as_slice(), number) {
            Some(pin) => Some(&pin.view),
            None => None,
        }
    }

    /// Keeps none of them.
    pub fn clear(&mut self)
        ensures { self.new ≡ record self.old { kept = [] } }
    {
        self.pins.clear();
    }

    /// That of two kept histories the earlier one is a proper beginning of the other. It does nothing when it runs.
    pub fn rise(&self)
        ensures { AreRising self.now.kept }
    {
        let _ = &self.pins;
    }
}

/// Drops the first view where as many are kept as may be.
fn make_room(pins: &mut Vec<Pin>)
    requires few { length pins.old.items ≤ most_kept }
    ensures items { pins.new.items ≡ (if nat_lt (length pins.old.items) most_kept then pins.old.items else drop 1 pins.old.items) }
    ensures capacity { vec_capacity pins.new ≡ vec_capacity pins.old }
{
    if pins.len() < MOST_KEPT {
        return;
    }
    pins.remove(0);
}
