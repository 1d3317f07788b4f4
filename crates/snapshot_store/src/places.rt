ghost use Rattle.std.specs.Prelude.{◌≡◌, ◌++◌, ◌==◌, [], ◌∷◌, IfOk, OnOk, length, map, slice_index_or, if◌then◌else◌, take, ◌<◌};
ghost use Rattle.std.specs.Arc.{arc_value};
ghost use Rattle.snapshot_store.specs.Places.{IsIndex, places_in};

use crate::order::pattern_of;
use crate::snapshot::Block;
use otp_base::{List, Memory};
use otp_model::StopNo;
use std::alloc::Global;
use std::sync::Arc;
use trip_patterns::{BlockStop, Spot};

/// For each stop its places in the blocks.
pub fn places_of(alloc: Global, blocks: &[Arc<Block>]) -> Result<Vec<List<BlockStop>>, Memory>
    ensures { IfOk result (λ places. IsIndex (map arc_value blocks.now) places.items) }
{
    let mut places = Vec::new(alloc);
    for block in 0..blocks.len() {
        put_block(alloc, &mut places, block, pattern_of(&blocks[block]))?;
    }
    Ok(places)
}

/// Adds the places that stops have in a block.
fn put_block(
    alloc: Global,
    places: &mut Vec<List<BlockStop>>,
    block: usize,
    pattern: &[Spot],
) -> Result<(), Memory>
    ensures { OnOk result ((stop : _) → slice_index_or places.new.items stop [] ≡ slice_index_or places.old.items stop [] ++ places_in stop block pattern.now (length pattern.now)) }
{
    for position in 0..pattern.len() {
        let place = BlockStop { block, position };
        put_place(alloc, places, pattern[position].stop(), place)?;
    }
    Ok(())
}

/// Adds a place of a stop.
fn put_place(
    alloc: Global,
    places: &mut Vec<List<BlockStop>>,
    stop: StopNo,
    place: BlockStop,
) -> Result<(), Memory>
    ensures { OnOk result ((other : _) → slice_index_or places.new.items other [] ≡ slice_index_or places.old.items other [] ++ (if stop == other then place ∷ [] else [])) }
{
    let stop = stop as usize;
    make_room(alloc, places, stop)?;
    places[stop].push(place)?;
    Ok(())
}

/// Makes a list for each stop up to this one.
fn make_room(alloc: Global, places: &mut Vec<List<BlockStop>>, stop: usize) -> Result<(), Memory>
    ensures room { OnOk result (stop < length places.new.items) }
    ensures same { OnOk result ((other : _) → slice_index_or places.new.items other [] ≡ slice_index_or places.old.items other []) }
{
    while places.len() <= stop {
        places.push(List::new(alloc))?;
    }
    Ok(())
}
