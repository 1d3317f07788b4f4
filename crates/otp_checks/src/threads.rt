//! One thread commits, the other takes views and plans over each.
ghost use Rattle.std.specs.Prelude.{◌≡◌, length};

use crate::desks::{accept, commit, open_desk};
use crate::worked::{is_planned, message, messages};
use commit_desk::Desk;
use commit_history::{Pass, View};
use otp_base::Memory;
use otp_model::Edges;
use std::alloc::Global;
use std::marker::Brand;
use std::sync::Wait;
use std::sync::atomic::{AtomicU64, Ordering};
use std::sync::ledger::Blank;
use std::test::Fail;
use std::thread::{join, yield_now};

/// How many views are taken.
const VIEWS: u64 = 1_000;

/// What is wrong with a view.
#[derive(Clone, Copy, Debug, PartialEq, Eq)]
enum Wrong {
    /// There is none.
    Missing,
    /// Its number is below one that was taken before.
    Falls,
    /// A plan over it hasn't the values that belong to its number.
    Values,
}

/// Takes a view whose number is no less than this one, plans over it, and gives its number.
fn next_number(alloc: Global, pass: &mut Pass, edges: &Edges, last: u64) -> Result<u64, Wrong> {
    let Ok(View { number, snapshot }) = pass.take() else {
        return Err(Wrong::Missing);
    };
    if number < last {
        return Err(Wrong::Falls);
    }
    if !is_planned(alloc, &snapshot, edges, number) {
        return Err(Wrong::Values);
    }
    Ok(number)
}

/// Takes so many views, counts them as it goes, and gives the last number.
fn take_views(
    alloc: Global,
    pass: &mut Pass,
    edges: &Edges,
    taken: &AtomicU64,
) -> Result<u64, Wrong> {
    let mut last = 0;
    for count in 0..VIEWS {
        last = next_number(alloc, pass, edges, last)?;
        taken.store(count, Ordering::SeqCst);
    }
    Ok(last)
}

/// Waits until more than so many views were taken, but not for ever: where no thread was to be had they come later.
fn wait_for(taken: &AtomicU64, count: u64) {
    for _ in 0..1_000_000u64 {
        if taken.load(Ordering::SeqCst) > count {
            return;
        }
        yield_now();
    }
}

/// Commits the messages in turn, each once some more views were taken.
fn commit_all<R: Wait>(
    rt: &R,
    alloc: Global,
    desk: &mut Desk,
    taken: &AtomicU64,
) -> Result<(), Fail>
    requires { length desk.old.state.slots ≡ 1 }
{
    let mut count = 0u64;
    for bytes in messages() {
        count = count.wrapping_add(200);
        wait_for(taken, count);
        accept(alloc, desk, message(alloc, bytes)?)?;
        commit::<R, Brand>(rt, alloc, desk, Blank::new(1))?;
    }
    Ok(())
}

/// Each view is of the commits of its number, and the numbers don't fall.
#[test]
fn plans_while_another_commits(rt: HostRuntime) -> Result<(), Fail> {
    let alloc = rt.alloc();
    let (mut desk, mut passes, edges) = open_desk(&rt, alloc)?;
    let Some(mut pass) = passes.pop() else {
        return Err(Fail::from(Memory));
    };
    let taken = AtomicU64::new(0);
    let (last, committed) = join(
        &rt,
        || take_views(alloc, &mut pass, &edges, &taken),
        || commit_all(&rt, alloc, &mut desk, &taken),
    );
    committed?;
    assert!(rt; last.is_ok(), "{last:?}");
    assert_eq!(rt; next_number(alloc, &mut pass, &edges, 3), Ok(3));
    desk.end(&rt);
    Ok(())
}
