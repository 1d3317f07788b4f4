ghost use Rattle.std.specs.Prelude.{◌≡◌, ◌+◌, ◌++◌, ◌<◌, ◌≤◌, IfOk, OnOk, length, map, slice_index, sum_by};
ghost use Rattle.std.specs.Arc.{arc_value};
ghost use Rattle.std.specs.List.{All, AllPairs, flat_map};
ghost use Rattle.std.specs.List.Sorted.{IsPermutation};
ghost use Rattle.otp_model.specs.Patterns.{touched, with_changes as runs_with};
ghost use Rattle.trip_patterns.specs.FirstFit.{rows_of};
ghost use Rattle.trip_patterns.specs.Shapes.{HaveShapes};
ghost use Rattle.trip_patterns.specs.Timetables.{IsBlock, StandsFor};
ghost use Rattle.snapshot_store.specs.Changing.{IsChangeBelow};
ghost use Rattle.snapshot_store.specs.Order.{AreInOrder};
ghost use Rattle.snapshot_store.specs.Places.{IsIndex};
ghost use Rattle.snapshot_store.specs.Shaping.{AreSpans};

use crate::changed::Changed;
use crate::grouping::blocks_of;
use crate::order::{sort_blocks, sort_by_block};
use crate::places::places_of;
use crate::renewing::renewed_blocks;
use crate::rows::{changed_runs, copied_runs, put_kept};
use crate::shaping::{shapes_of, spans_of};
use otp_base::{List, Memory, Steps};
use otp_model::{Change, Feed, Run, StopNo};
use std::alloc::Global;
use std::marker::Brand;
use std::sync::Arc;
use std::sync::ledger::{Blank, Ledger};
use trip_patterns::{BlockStop, Lane, Shape, Span, Timetable};

/// The lanes of one pattern and day.
pub type Block = List<Lane>;

/// A schedule as blocks of lanes. Snapshots share the blocks that they have in common.
#[derive(Drop)]
pub struct Snapshot {
    /// By day, and on one day by pattern.
    blocks: Vec<Arc<Block>>,
    /// By stop.
    places: Vec<List<BlockStop>>,
    /// Those of the patterns of the blocks.
    shapes: Vec<Shape>,
    /// By block, the number of its shape.
    shape_of: Vec<usize>,
    /// By block.
    spans: Vec<Span>,
    ghost blocks_are: { All IsBlock (map arc_value blocks.items) },
    pub ghost in_order: { AreInOrder (map arc_value blocks.items) },
    ghost indexed: { IsIndex (map arc_value blocks.items) places.items },
    ghost shaped: { HaveShapes (map arc_value blocks.items) shapes.items (slice_index shape_of.items) },
    ghost numbered: { length shape_of.items ≡ length blocks.items },
    ghost spanned: { AreSpans (map arc_value blocks.items) spans.items },
}

impl Snapshot {
    ghost use Rattle.snapshot_store.specs.Snapshots.{blocks_of as blocks_in, runs_of};

    /// The snapshot of a feed's runs.
    pub fn build(alloc: Global, feed: &Feed) -> Result<Snapshot, Memory>
        ensures { IfOk result (λ snapshot. IsPermutation feed.now.runs (runs_of snapshot)) }
    {
        Snapshot::build_with::<Brand>(alloc, feed, Blank::new(1))
    }

    /// The same over a counter, of which nothing is asked.
    fn build_with<L: Ledger>(alloc: Global, feed: &Feed, blank: Blank) -> Result<Snapshot, Memory>
        requires name { blank.name ≡ L.name }
        requires parts { blank.parts ≡ L.parts }
        requires some { 0 < blank.parts }
        ensures { IfOk result (λ snapshot. IsPermutation feed.now.runs (runs_of snapshot)) }
    {
        let mut steps = Steps::<L>::new(blank);
        let runs = copied_runs(alloc, feed.runs.as_slice())?;
        let blocks = blocks_of(alloc, runs, &mut steps)?;
        Snapshot::of(alloc, blocks)
    }

    /// The snapshot after changes, which rise by their names: each changed run is as its change says. The blocks that no change
    /// touches are shared, and the others are made anew. Each call that is written counts one step.
    pub fn with_changes<L: Ledger>(
        &self,
        alloc: Global,
        changes: &[Change],
        steps: &mut Steps<L>,
    ) -> Result<Snapshot, Memory>
        requires { AllPairs IsChangeBelow changes.now }
        ensures stands { IfOk result (λ snapshot. IsPermutation (runs_with (runs_of self.now) changes.now) (runs_of snapshot)) }
        ensures most { let before = runs_of self.now in steps.new ≤ steps.old + touched before (runs_with before changes.now) changes.now }
    {
        let mut added = changed_runs(alloc, changes)?;
        sort_by_block(&mut added)?;
        let changed = Changed::of(alloc, changes)?;
        let blocks = renewed_blocks(alloc, &self.blocks, &changed, &added, steps)?;
        Snapshot::of(alloc, blocks)
    }

    /// The snapshot of these blocks.
    fn of(alloc: Global, blocks: Vec<Arc<Block>>) -> Result<Snapshot, Memory>
        requires { All IsBlock (map arc_value blocks.items) }
        ensures { IfOk result (λ snapshot. IsPermutation (map arc_value blocks.items) (blocks_in snapshot)) }
    {
        let mut blocks = blocks;
        sort_blocks(&mut blocks)?;
        let places = places_of(alloc, &blocks)?;
        let spans = spans_of(alloc, &blocks)?;
        let made = shapes_of(alloc, &blocks)?;
        Ok(Snapshot {
            blocks,
            places,
            shapes: made.shapes,
            shape_of: made.numbers,
            spans,
        })
    }

    /// The runs of the schedule that it stands for, each once.
    pub fn all_runs(&self, alloc: Global) -> Result<Vec<Run>, Memory>
        ensures { IfOk result (λ runs. runs.items ≡ runs_of self.now) }
    {
        let none = Changed::of(alloc, &[])?;
        let mut runs = Vec::new(alloc);
        for block in &self.blocks {
            put_kept(alloc, block.as_slice(), &none, &mut runs)?;
        }
        Ok(runs)
    }
}

impl Timetable for Snapshot {
    ghost use Rattle.std.proofs.lemmas.List.Sorted.{IsPermutation-refl};
    ghost use Rattle.snapshot_store.specs.Snapshots.{blocks_of as blocks_in, runs_of, shape_at as shape_number, shapes_of as shapes_in};

    ghost runs = { runs_of };

    ghost blocks = { blocks_in };

    ghost shapes = { shapes_in };

    ghost shape_at = { shape_number };

    fn block_count(&self) -> usize {
        self.blocks.len()
    }

    fn block(&self, n: usize) -> &[Lane] {
        self.blocks[n].as_slice()
    }

    fn blocks_at(&self, stop: StopNo) -> &[BlockStop] {
        match self.places.get(stop as usize) {
            Some(places) => places.as_slice(),
            None => &[],
        }
    }

    fn shape_count(&self) -> usize {
        self.shapes.len()
    }

    fn shape(&self, n: usize) -> &Shape {
        &self.shapes[n]
    }

    fn shape_of(&self, block: usize) -> usize {
        self.shape_of[block]
    }

    fn span(&self, block: usize) -> Span {
        self.spans[block]
    }

    ghost stands = { λ t. record { blocks_are = t.blocks_are; rows = IsPermutation-refl (runs_of t) } };

    ghost fits = { λ t. t.shaped };
}
