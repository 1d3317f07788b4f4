ghost use Rattle.std.specs.Prelude.{◌≡◌, ◌<◌, ◌++◌, ◌↔◌, [], IfOk, IfSome, IsTrue, Some, length, slice_get};
ghost use Rattle.trip_patterns.specs.Shapes.{FitShapes, IsShapeOf};

use crate::lane::Lane;
use crate::least::{LeastTimes, lower};
use crate::spot::Spot;
use otp_base::{List, Memory};
use otp_model::StopNo;
use std::alloc::Global;
use std::marker::Model;

/// A pattern without its day, with the least seconds that runs take from call to call.
#[derive(Drop)]
pub struct Shape {
    pattern: List<Spot>,
    least: LeastTimes,
}

impl Model for Shape {
    ghost use Rattle.trip_patterns.specs.Shapes.{IsShape, ShapeOf};

    ghost Value = { ShapeOf };

    ghost view = { λ shape. record { pattern = shape.pattern; hops = shape.least.hops.items; dwells = shape.least.dwells.items } };

    ghost invariant = { λ shape. IsShape (record { pattern = shape.pattern; hops = shape.least.hops.items; dwells = shape.least.dwells.items }) };
}

impl Shape {
    /// The shape of no runs: each hop and each dwell is 2^32 - 2 seconds.
    pub fn new(alloc: Global, pattern: &[Spot]) -> Result<Shape, Memory>
        ensures { IfOk result (λ shape. IsShapeOf pattern.now [] shape) }
    {
        let mut spots = List::new(alloc);
        spots.extend_from_slice(pattern)?;
        let least = LeastTimes::new(alloc, pattern.len())?;
        Ok(Shape {
            pattern: spots,
            least,
        })
    }

    /// Lowers each hop and each dwell to the least of the rows of one more lane.
    pub fn lower_by(&mut self, lane: &Lane)
        requires { lane.now.pattern ≡ self.old.pattern }
        ensures pattern { self.new.pattern ≡ self.old.pattern }
        ensures least { (runs : _) → IsShapeOf self.old.pattern runs self.old → IsShapeOf self.old.pattern (runs ++ lane.now.runs) self.new }
    {
        let least = lane.least_times();
        lower(&mut self.least.hops, &least.hops);
        lower(&mut self.least.dwells, &least.dwells);
    }

    /// Whether it is of this pattern.
    pub fn is_of(&self, pattern: &[Spot]) -> bool
        ensures { IsTrue result ↔ (self.now.pattern ≡ pattern.now) }
    {
        are_same(self.pattern.as_slice(), pattern)
    }

    /// How many calls a run of it has.
    pub fn positions(&self) -> usize
        ensures { result ≡ length self.now.pattern }
    {
        self.pattern.len()
    }

    /// The stop at a position, with boarding and alighting there.
    pub fn spot(&self, position: usize) -> Spot
        requires { position < length self.now.pattern }
        ensures { slice_get self.now.pattern position ≡ Some result }
    {
        self.pattern.as_slice()[position]
    }

    /// The stop at a position.
    pub fn stop(&self, position: usize) -> StopNo
        requires { position < length self.now.pattern }
        ensures { IfSome (slice_get self.now.pattern position) (λ spot. result ≡ spot.stop) }
    {
        self.pattern.as_slice()[position].stop()
    }

    /// Whether runs may be boarded at a position.
    pub fn may_board(&self, position: usize) -> bool
        requires { position < length self.now.pattern }
        ensures { IfSome (slice_get self.now.pattern position) (λ spot. result ≡ spot.board) }
    {
        self.pattern.as_slice()[position].may_board()
    }

    /// Whether runs may be left at a position.
    pub fn may_alight(&self, position: usize) -> bool
        requires { position < length self.now.pattern }
        ensures { IfSome (slice_get self.now.pattern position) (λ spot. result ≡ spot.alight) }
    {
        self.pattern.as_slice()[position].may_alight()
    }

    /// The least seconds from the departure at a position to the next arrival, from 0 to 2^32 - 2.
    pub fn hop(&self, position: usize) -> u32
        requires { position < length self.now.pattern }
        ensures { slice_get self.now.hops position ≡ Some result }
    {
        self.least.hops[position]
    }

    /// The least seconds from the arrival at a position to the departure there, from 0 to 2^32 - 2.
    pub fn dwell(&self, position: usize) -> u32
        requires { position < length self.now.pattern }
        ensures { slice_get self.now.dwells position ≡ Some result }
    {
        self.least.dwells[position]
    }
}

fn are_same(pattern: &[Spot], other: &[Spot]) -> bool
    ensures { IsTrue result ↔ (pattern.now ≡ other.now) }
{
    if pattern.len() != other.len() {
        return false;
    }
    for position in 0..pattern.len() {
        if !pattern[position].is_same(&other[position]) {
            return false;
        }
    }
    true
}

/// A timely run fits the shape of runs that it is one of.
pub fn fits_its_shape()
    ensures { FitShapes }
{}
