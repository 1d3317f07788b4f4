ghost use Rattle.std.specs.Prelude.{◌≡◌, ◌≤◌, ◌<◌, ◌^◌, [], IsTrue, OnOk};
ghost use Rattle.raptor_rounds.specs.Marks.{IsMarked, mark_of as mark_in};
ghost use Rattle.raptor_rounds.specs.States.{IsCoveredAt};

use crate::bags::{StopBags, is_met, put_label};
use crate::node::Node;
use crate::ready::Ready;
use otp_base::Memory;
use std::alloc::Global;

/// Where some were ready for a ride and boarded, as labels without a ride, and the bags of them. Who comes there no earlier, after
/// no fewer rides and at no less a penalty, needn't board.
#[derive(Debug, Drop)]
pub struct Marks {
    pub nodes: Vec<Node>,
    pub bags: Vec<StopBags>,
}

impl Marks {
    pub fn new(alloc: Global) -> Marks
        ensures nodes { result.nodes.items ≡ [] }
        ensures bags { result.bags.items ≡ [] }
    {
        Marks {
            nodes: Vec::new(alloc),
            bags: Vec::new(alloc),
        }
    }
}

/// The mark of who is ready.
pub fn mark_of(ready: &Ready) -> Node
    ensures { result ≡ mark_in ready.now }
{
    Node {
        stop: ready.stop,
        departure: ready.departure,
        rides: ready.rides,
        time: ready.time,
        penalty: ready.penalty,
        parent: ready.parent,
        walk: ready.walk,
        block: 0,
        lane: 0,
        row: 0,
        board: 0,
        alight: 0,
    }
}

/// Whether some mark is no worse.
pub fn is_marked(mark: &Node, marks: &Marks) -> bool
    requires { mark.now.penalty < 2 ^ 62 }
    ensures { IsTrue result → IsCoveredAt marks.now.bags.items mark.now }
{
    is_met(&marks.bags, mark)
}

/// Adds a mark.
pub fn put_mark(alloc: Global, mark: &Node, marks: &mut Marks) -> Result<(), Memory>
    requires penalty { mark.now.penalty < 2 ^ 62 }
    requires some { 1 ≤ mark.now.rides }
    ensures { OnOk result (IsMarked marks.old mark.now marks.new) }
{
    let number = marks.nodes.len();
    put_label(alloc, mark, number, &mut marks.bags)?;
    marks.nodes.push(*mark)?;
    Ok(())
}
