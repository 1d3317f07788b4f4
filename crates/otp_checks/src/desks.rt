//! What the desk answers.
ghost use Rattle.std.specs.Prelude.{◌≡◌, ◌<◌, length, IfOk};

use crate::worked::loaded;
use commit_desk::{Desk, DeskFault, Done};
use commit_history::{Pass, TakeFault};
use otp_base::{List, Memory, Steps};
use otp_model::{Edges, Message};
use std::alloc::Global;
use std::marker::Brand;
use std::sync::ledger::{Blank, Ledger};
use std::sync::{Arc, Wait};
use std::test::Fail;

/// The most commits of a history.
const MOST: u64 = 1 << 40;

/// Commits what is pending; a full history is answered as want of memory.
pub fn commit<R: Wait, L: Ledger>(
    rt: &R,
    alloc: Global,
    desk: &mut Desk,
    blank: Blank,
) -> Result<Done, Memory>
    requires name { blank.name ≡ L.name }
    requires parts { blank.parts ≡ L.parts }
    requires some { 0 < blank.parts }
    requires one { length desk.old.state.slots ≡ 1 }
    ensures one { length desk.new.state.slots ≡ 1 }
{
    if desk.number() >= MOST {
        return Err(Memory);
    }
    let mut steps = Steps::<L>::new(blank);
    desk.commit(rt, alloc, &mut steps)
}

/// Offers a message to the one real-time feed.
pub fn accept(alloc: Global, desk: &mut Desk, message: Message) -> Result<u64, DeskFault>
    requires one { length desk.old.state.slots ≡ 1 }
    ensures one { length desk.new.state.slots ≡ 1 }
{
    let Ok(resolved) = desk.resolve(alloc, &message) else {
        return Err(DeskFault::Memory);
    };
    desk.accept(1, message, resolved.changes)
}

/// A message that says nothing, of this second.
fn silent(alloc: Global, timestamp: Option<u64>) -> Message {
    Message {
        timestamp,
        entities: List::new(alloc),
    }
}

/// A desk of one real-time feed over the worked feed, one pass, and the edges.
pub fn open_desk<R: Wait>(rt: &R, alloc: Global) -> Result<(Desk, Vec<Pass>, Edges), Fail>
    ensures { IfOk result (λ opened. length opened.0.state.slots ≡ 1) }
{
    let loaded = loaded(alloc)?;
    let feed = Arc::new(alloc, loaded.feed)?;
    let (desk, passes) = Desk::open(rt, alloc, feed, 1, 1)?;
    Ok((desk, passes, loaded.edges))
}

/// Whether a commit published something, and the number of commits after it.
fn told(done: &Done) -> (bool, u64) {
    match done {
        Done::Committed {
            number,
            note: _note,
        } => (true, *number),
        Done::Nothing {
            number,
            note: _note,
        } => (false, *number),
    }
}

/// A commit publishes what is pending, once.
#[test]
fn commits_what_is_pending(rt: HostRuntime) -> Result<(), Fail> {
    let alloc = rt.alloc();
    let (mut desk, _passes, _edges) = open_desk(&rt, alloc)?;
    let done = commit::<HostRuntime, Brand>(&rt, alloc, &mut desk, Blank::new(1))?;
    assert_eq!(rt; told(&done), (false, 0));
    assert_eq!(rt; accept(alloc, &mut desk, silent(alloc, None)), Ok(1));
    let done = commit::<HostRuntime, Brand>(&rt, alloc, &mut desk, Blank::new(1))?;
    assert_eq!(rt; told(&done), (true, 1));
    let done = commit::<HostRuntime, Brand>(&rt, alloc, &mut desk, Blank::new(1))?;
    assert_eq!(rt; told(&done), (false, 1));
    desk.end(&rt);
    Ok(())
}

/// A message older than the last of its feed that had a timestamp is refused, and that timestamp stays.
#[test]
fn refuses_older_messages(rt: HostRuntime) -> Result<(), Fail> {
    let alloc = rt.alloc();
    let (mut desk, _passes, _edges) = open_desk(&rt, alloc)?;
    let offers = [
        (Some(100), Ok(1)),
        (Some(99), Err(DeskFault::Older { have: 100 })),
        (Some(100), Ok(2)),
        (None, Ok(3)),
        (Some(99), Err(DeskFault::Older { have: 100 })),
        (Some(101), Ok(4)),
    ];
    for (timestamp, answer) in offers {
        assert_eq!(rt; accept(alloc, &mut desk, silent(alloc, timestamp)), answer);
    }
    desk.end(&rt);
    Ok(())
}

/// Once the writer is gone the reader is handed back.
#[test]
fn is_handed_back_at_the_end(rt: HostRuntime) -> Result<(), Fail> {
    let alloc = rt.alloc();
    let (desk, mut passes, _edges) = open_desk(&rt, alloc)?;
    let Some(mut pass) = passes.pop() else {
        return Err(Fail::from(Memory));
    };
    let view = pass.take();
    assert!(rt; view.is_ok_and(|view| view.number == 0));
    desk.end(&rt);
    assert!(rt; matches!(pass.take(), Err(TakeFault::Turned)));
    assert_eq!(rt; pass.turned(), 1);
    assert!(rt; matches!(pass.take(), Err(TakeFault::Turned)));
    assert_eq!(rt; pass.turned(), 2);
    Ok(())
}
