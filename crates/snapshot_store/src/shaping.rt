ghost use Rattle.std.specs.Prelude.{◌≡◌, ◌<◌, ◌++◌, IfOk, IfSome, length, map, slice_index};
ghost use Rattle.std.specs.Arc.{arc_value};
ghost use Rattle.std.specs.List.{All};
ghost use Rattle.trip_patterns.specs.FirstFit.{rows_of};
ghost use Rattle.trip_patterns.specs.Shapes.{HaveShapes, IsShapeOf};
ghost use Rattle.trip_patterns.specs.Timetables.{IsBlock};
ghost use Rattle.snapshot_store.specs.Shaping.{AreSpans, IsJoined, IsMade, IsShaped, shape_in};

use crate::order::{pattern_of, spot_number};
use crate::snapshot::Block;
use otp_base::Memory;
use std::alloc::Global;
use std::collections::HashMap;
use std::sync::Arc;
use trip_patterns::{Lane, Shape, Span, Spot, fits_its_shape, span_of};

/// The shapes of blocks, and for each block the number of its shape.
#[derive(Drop)]
pub struct Shapes {
    pub shapes: Vec<Shape>,
    pub numbers: Vec<usize>,
}

/// The shapes of blocks: blocks of one pattern get one shape, but where the hash of their pattern is that of another too.
pub fn shapes_of(alloc: Global, blocks: &[Arc<Block>]) -> Result<Shapes, Memory>
    requires { All IsBlock (map arc_value blocks.now) }
    ensures shapes { IfOk result (λ made. HaveShapes (map arc_value blocks.now) made.shapes.items (slice_index made.numbers.items)) }
    ensures count { IfOk result (λ made. length made.numbers.items ≡ length blocks.now) }
{
    let mut known = HashMap::new(alloc);
    let mut shapes = Vec::new(alloc);
    let mut numbers = Vec::with_capacity(alloc, blocks.len())?;
    for block in blocks {
        let pattern = pattern_of(block);
        numbers.push(put_block(alloc, pattern, block.as_slice(), &mut known, &mut shapes)?)?;
    }
    fits_its_shape();
    Ok(Shapes { shapes, numbers })
}

/// Brings the rows of a block into the shape of its pattern, of which the number is given. `known` has the last shape of each
/// hash; it is only a hint.
fn put_block(
    alloc: Global,
    pattern: &[Spot],
    lanes: &[Lane],
    known: &mut HashMap<u64, usize>,
    shapes: &mut Vec<Shape>,
) -> Result<usize, Memory>
    requires { All (λ lane. lane.pattern ≡ pattern.now) lanes.now }
    ensures { IfOk result (IsShaped pattern.now (rows_of lanes.now) shapes.old.items shapes.new.items) }
{
    let hash = hash_of(pattern);
    if let Some(number) = find(known, hash, shapes, pattern) {
        lower(&mut shapes[number], lanes);
        return Ok(number);
    }
    let number = shapes.len();
    push_shape(alloc, pattern, lanes, shapes)?;
    known.insert(hash, number)?;
    Ok(number)
}

/// The number of a shape of this pattern, if the map has one.
fn find(known: &HashMap<u64, usize>, hash: u64, shapes: &[Shape], pattern: &[Spot]) -> Option<usize>
    ensures within { IfSome result (λ number. number < length shapes.now) }
    ensures pattern { IfSome result (λ number. (shape_in shapes.now number).pattern ≡ pattern.now) }
{
    let number = *known.get(&hash)?;
    if number >= shapes.len() {
        return None;
    }
    if !shapes[number].is_of(pattern) {
        return None;
    }
    Some(number)
}

/// Adds the shape of lanes of one pattern.
fn push_shape(
    alloc: Global,
    pattern: &[Spot],
    lanes: &[Lane],
    shapes: &mut Vec<Shape>,
) -> Result<(), Memory>
    requires { All (λ lane. lane.pattern ≡ pattern.now) lanes.now }
    ensures { IfOk result (λ _. IsMade pattern.now (rows_of lanes.now) shapes.old.items shapes.new.items (length shapes.old.items)) }
{
    let mut shape = Shape::new(alloc, pattern)?;
    lower(&mut shape, lanes);
    shapes.push(shape)?;
    Ok(())
}

/// Lowers a shape by lanes of its pattern.
fn lower(shape: &mut Shape, lanes: &[Lane])
    requires { All (λ lane. lane.pattern ≡ shape.old.pattern) lanes.now }
    ensures { (runs : _) → IsShapeOf shape.old.pattern runs shape.old → IsShapeOf shape.old.pattern (runs ++ rows_of lanes.now) shape.new }
{
    for lane in lanes {
        shape.lower_by(lane);
    }
}

/// A hash of a pattern.
fn hash_of(pattern: &[Spot]) -> u64 {
    let mut hash: u64 = 0;
    for spot in pattern {
        hash = (hash ^ spot_number(spot)).wrapping_mul(0x9E37_79B9_7F4A_7C15);
        hash ^= hash >> 32;
    }
    hash
}

/// For each block when its lanes depart.
pub fn spans_of(alloc: Global, blocks: &[Arc<Block>]) -> Result<Vec<Span>, Memory>
    ensures { IfOk result (λ spans. AreSpans (map arc_value blocks.now) spans.items) }
{
    let mut spans = Vec::with_capacity(alloc, blocks.len())?;
    for block in blocks {
        spans.push(span_of(block.as_slice()))?;
    }
    Ok(spans)
}
