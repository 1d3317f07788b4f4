ghost use Rattle.std.specs.Prelude.{◌≡◌, ◌<◌, ◌≤◌, [], IfOk, IfSome, List, length, slice_get};
ghost use Rattle.end_bounds.specs.Bounds.{AreBounds};
ghost use Rattle.end_bounds.specs.Found.{bounds_of};
ghost use Rattle.otp_model.specs.declared.journey.Request.{Request as RequestOf};
ghost use Rattle.otp_model.specs.declared.timetable.Edges.{Edges as EdgesOf};
ghost use Rattle.otp_model.specs.declared.timetable.Run.{Run as RunOf};
ghost use Rattle.trip_patterns.specs.Lanes.{LaneOf};
ghost use Rattle.walk_table.specs.Reaches.{AreReached};

use crate::bags::{StopBags, labels_at};
use crate::fronts::new_fronts;
use crate::marks::Marks;
use crate::node::{Final, Node};
use end_bounds::EndBounds;
use final_fronts::Front;
use label_bags::Label;
use otp_base::Memory;
use otp_model::{StopNo, Time};
use std::alloc::Global;
use walk_table::Reach;

/// What a search aims at: the stops from which the destination is reached, and the least seconds and points to it.
#[derive(Debug, Drop)]
pub struct Aim {
    pub egress: Vec<Reach>,
    pub bounds: EndBounds,
}

/// What a search keeps: the departures that it saw, all labels that it made, for each stop and number of rides the bag of
/// labels that none covers, and the journeys that it found, with a front for each number of rides of those with no more;
/// and where rides were boarded.
#[derive(Debug, Drop)]
pub struct RoundState {
    pub(crate) aim: Aim,
    pub(crate) departures: Vec<Time>,
    pub(crate) arena: Vec<Node>,
    pub(crate) bags: Vec<StopBags>,
    pub(crate) finals: Vec<Final>,
    pub(crate) fronts: Vec<Front>,
    pub(crate) marks: Marks,
}

impl RoundState {
    ghost use Rattle.raptor_rounds.specs.States.{arena_of, departures_of, finals_of, labels_of};
    ghost use Rattle.raptor_rounds.specs.Searched.{IsSearched};

    /// A state that saw no departure, with room for the bags of so many stops, for journeys of at most so many rides. The egress
    /// are the stops from which the request's destination is reached, and the bounds are those of the seconds and points to it.
    pub fn new(
        alloc: Global,
        stops: usize,
        rides: u32,
        egress: Vec<Reach>,
        bounds: EndBounds,
    ) -> Result<RoundState, Memory>
        ensures searched { IfOk result (λ state. (runs : List RunOf) (blocks : List (List LaneOf)) (edges : EdgesOf) (r : RequestOf) → AreReached edges r.to egress.items → AreBounds blocks edges r (bounds_of bounds) → IsSearched runs blocks edges r state) }
        ensures departures { IfOk result (λ state. departures_of state ≡ []) }
        ensures finals { IfOk result (λ state. finals_of state ≡ []) }
    {
        let bags = Vec::with_capacity(alloc, stops)?;
        let fronts = new_fronts(alloc, rides)?;
        Ok(RoundState {
            aim: Aim { egress, bounds },
            departures: Vec::new(alloc),
            arena: Vec::new(alloc),
            bags,
            finals: Vec::new(alloc),
            fronts,
            marks: Marks::new(alloc),
        })
    }

    /// The labels that come to the stop by exactly so many rides, and that no other of them covers.
    pub fn labels(&self, stop: StopNo, rides: u32) -> &[Label]
        requires { 1 ≤ rides }
        ensures { result.now ≡ labels_of self.now stop rides }
    {
        labels_at(&self.bags, stop, rides)
    }

    /// When the journeys of a label depart.
    pub fn departure_of(&self, label: usize) -> Time
        requires { label < length (arena_of self.now) }
        ensures { IfSome (slice_get (arena_of self.now) label) (λ node. result ≡ node.departure) }
    {
        self.arena[label].departure
    }

    /// The journeys that were found.
    pub fn finals(&self) -> &[Final]
        ensures { result.now ≡ finals_of self.now }
    {
        &self.finals
    }
}
