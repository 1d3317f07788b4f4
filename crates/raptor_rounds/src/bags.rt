ghost use Rattle.std.specs.Prelude.{◌≡◌, ◌<◌, ◌≤◌, ◌^◌, ◌-◌, ◌++◌, [], ◌∷◌, ℕ, List, pos, length, slice_get, IsTrue, OnOk};
ghost use Rattle.otp_base.specs.EachAt.{EachAt};
ghost use Rattle.label_bags.specs.Bags.{IsCovered};
ghost use Rattle.raptor_rounds.specs.declared.node.Node.{Node as NodeOf};
ghost use Rattle.raptor_rounds.specs.States.{AreBags, AreBagsIn, CoverStill, IsCoveredAt, IsCoveredIn, IsKeptCovered, bag_at, bag_in, bag_or_none, label_of as label_in, labels_in};

use crate::node::Node;
use label_bags::{Bag, Label};
use otp_base::Memory;
use otp_model::StopNo;
use std::alloc::Global;

/// The bags of a stop: the first is that of one ride, and so on, as far as there are any labels.
#[derive(Debug, Drop)]
pub struct StopBags {
    pub bags: Vec<Bag>,
}

/// Whether a bag of the label's stop for no more rides covers it.
pub fn is_met(bags: &[StopBags], node: &Node) -> bool
    requires { node.now.penalty < 2 ^ 62 }
    ensures { IsTrue result → IsCoveredAt bags.now node.now }
{
    match bags.get(node.stop as usize) {
        Some(at) => is_covered(&at.bags, node),
        None => false,
    }
}

/// Whether a bag for no more rides covers the label.
fn is_covered(bags: &[Bag], node: &Node) -> bool
    requires { node.now.penalty < 2 ^ 62 }
    ensures { IsTrue result → IsCoveredIn bags.now node.now }
{
    let count = bags.len().min(node.rides as usize);
    for k in 0..count {
        if covers(&bags[k], node) {
            return true;
        }
    }
    false
}

fn covers(bag: &Bag, node: &Node) -> bool
    requires { node.now.penalty < 2 ^ 62 }
    ensures { IsTrue result → IsCovered bag.now node.now.time (pos node.now.penalty) }
{
    bag.covers(node.time, node.penalty as i64)
}

/// Puts the label, which has this number, into the bag of its stop and of its rides.
pub fn put_label(
    alloc: Global,
    node: &Node,
    number: usize,
    bags: &mut Vec<StopBags>,
) -> Result<(), Memory>
    requires penalty { node.now.penalty < 2 ^ 62 }
    requires some { 1 ≤ node.now.rides }
    ensures bags { OnOk result ((arena : List NodeOf) → length arena ≡ number → AreBags arena bags.old.items → AreBags (arena ++ node.now ∷ []) bags.new.items) }
    ensures covered { OnOk result ((arena : List NodeOf) → EachAt (IsKeptCovered bags.old.items) arena → EachAt (IsKeptCovered bags.new.items) (arena ++ node.now ∷ [])) }
{
    let stop = node.stop as usize;
    make_stops(alloc, stop, bags)?;
    put_at_stop(alloc, node, number, &mut bags[stop].bags)?;
    Ok(())
}

/// Makes empty bags for each stop up to this one.
fn make_stops(alloc: Global, stop: usize, bags: &mut Vec<StopBags>) -> Result<(), Memory>
    ensures room { OnOk result (stop < length bags.new.items) }
    ensures same { OnOk result ((arena : List NodeOf) → AreBags arena bags.old.items → AreBags arena bags.new.items) }
    ensures still { OnOk result ((stop : ℕ) → CoverStill (bag_in (slice_get bags.old.items stop)) (bag_in (slice_get bags.new.items stop))) }
{
    while bags.len() <= stop {
        bags.push(StopBags {
            bags: Vec::new(alloc),
        })?;
    }
    Ok(())
}

fn put_at_stop(alloc: Global, node: &Node, number: usize, bags: &mut Vec<Bag>) -> Result<(), Memory>
    requires penalty { node.now.penalty < 2 ^ 62 }
    requires some { 1 ≤ node.now.rides }
    ensures bags { OnOk result ((arena : List NodeOf) → length arena ≡ number → AreBagsIn arena node.now.stop bags.old.items → AreBagsIn (arena ++ node.now ∷ []) node.now.stop bags.new.items) }
    ensures still { OnOk result (CoverStill (bag_at bags.old.items) (bag_at bags.new.items)) }
    ensures covered { OnOk result (IsCovered (bag_at bags.new.items (node.now.rides - 1)) node.now.time (pos node.now.penalty)) }
{
    let place = node.rides as usize - 1;
    make_bags(alloc, place, bags)?;
    let label = label_of(node, number);
    bags[place].insert(label)?;
    Ok(())
}

/// Makes empty bags up to this place.
fn make_bags(alloc: Global, place: usize, bags: &mut Vec<Bag>) -> Result<(), Memory>
    ensures room { OnOk result (place < length bags.new.items) }
    ensures same { OnOk result ((arena : List NodeOf) (stop : ℕ) → AreBagsIn arena stop bags.old.items → AreBagsIn arena stop bags.new.items) }
    ensures still { OnOk result (CoverStill (bag_at bags.old.items) (bag_at bags.new.items)) }
{
    while bags.len() <= place {
        bags.push(Bag::new(alloc))?;
    }
    Ok(())
}

fn label_of(node: &Node, number: usize) -> Label
    requires { node.now.penalty < 2 ^ 62 }
    ensures { result ≡ label_in node.now number }
{
    Label {
        time: node.time,
        penalty: node.penalty as i64,
        number,
    }
}

/// The labels that the bag of a stop and a number of rides keeps.
pub fn labels_at(bags: &[StopBags], stop: StopNo, rides: u32) -> &[Label]
    requires { 1 ≤ rides }
    ensures { result.now ≡ labels_in bags.now stop rides }
{
    match bags.get(stop as usize) {
        Some(at) => labels_by(&at.bags, rides as usize - 1),
        None => &[],
    }
}

fn labels_by(bags: &[Bag], place: usize) -> &[Label]
    ensures { result.now ≡ bag_or_none (slice_get bags.now place) }
{
    match bags.get(place) {
        Some(bag) => bag.labels(),
        None => &[],
    }
}
