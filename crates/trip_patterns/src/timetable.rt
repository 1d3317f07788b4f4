ghost use Rattle.std.specs.Prelude.{◌≡◌, ◌<◌, ℕ, IfSome, List, Some, length, slice_get};

use crate::lane::Lane;
use crate::shape::Shape;
use crate::span::Span;
use otp_model::StopNo;

/// A position of a block's pattern.
#[derive(Clone, Copy, Debug, PartialEq, Eq)]
pub struct BlockStop {
    pub block: usize,
    pub position: usize,
}

/// A schedule as blocks of lanes: all lanes of a block are of one pattern and day, the rows of all lanes are the runs of the
/// schedule, each once, and of each stop it is known where it stands in which block. Blocks of one pattern may have one shape.
pub trait Timetable {
    ghost use Rattle.otp_model.specs.declared.timetable.Run.{Run as RunOf};
    ghost use Rattle.trip_patterns.specs.Lanes.{LaneOf};
    ghost use Rattle.trip_patterns.specs.Shapes.{HaveShapes, ShapeOf};
    ghost use Rattle.trip_patterns.specs.Spans.{IsSpanOf};
    ghost use Rattle.trip_patterns.specs.Timetables.{ArePlacesOf, StandsFor};

    ghost runs: { Self → List RunOf };

    ghost blocks: { Self → List (List LaneOf) };

    ghost shapes: { Self → List ShapeOf };

    /// The number of a block's shape.
    ghost shape_at: { Self → ℕ → ℕ };

    /// How many blocks it has.
    fn block_count(&self) -> usize
        ensures { result ≡ length (blocks self.now) };

    /// The lanes of a block.
    fn block(&self, n: usize) -> &[Lane]
        requires { n < length (blocks self.now) }
        ensures { slice_get (blocks self.now) n ≡ Some result.now };

    /// Each place of the stop in each block, once.
    fn blocks_at(&self, stop: StopNo) -> &[BlockStop]
        ensures { ArePlacesOf (blocks self.now) stop result.now };

    /// How many shapes it has.
    fn shape_count(&self) -> usize
        ensures { result ≡ length (shapes self.now) };

    /// The shape with this number.
    fn shape(&self, n: usize) -> &Shape
        requires { n < length (shapes self.now) }
        ensures { slice_get (shapes self.now) n ≡ Some result.now };

    /// The number of a block's shape.
    fn shape_of(&self, block: usize) -> usize
        requires { block < length (blocks self.now) }
        ensures is { result ≡ shape_at self.now block }
        ensures within { result < length (shapes self.now) };

    /// When the lanes of a block depart.
    fn span(&self, block: usize) -> Span
        requires { block < length (blocks self.now) }
        ensures { IfSome (slice_get (blocks self.now) block) (λ lanes. IsSpanOf lanes result) };

    ghost stands: { (t : Self) → StandsFor (blocks t) (runs t) };

    ghost fits: { (t : Self) → HaveShapes (blocks t) (shapes t) (shape_at t) };
}
