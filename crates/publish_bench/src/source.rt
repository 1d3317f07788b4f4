//! Where readers take snapshots from.

use commit_history::Pass;
use snapshot_store::Snapshot;
use std::sync::{Arc, Mutex, Wait};

/// A reader's own way to the newest snapshot.
pub trait Source {
    /// Takes the newest snapshot and lets it go. It says how many commits that stands for, or 0 where nobody counts them; none where
    /// there was no snapshot to be had.
    fn take_once<R: Wait>(&mut self, rt: &R) -> Option<u64>;
}

impl Source for Pass {
    fn take_once<R: Wait>(&mut self, _rt: &R) -> Option<u64> {
        let view = self.take().ok()?;
        Some(view.number)
    }
}

/// A snapshot behind a lock.
#[derive(Clone, Copy)]
pub struct Locked<'a> {
    pub shared: &'a Mutex<Arc<Snapshot>>,
}

impl<'a> Source for Locked<'a> {
    fn take_once<R: Wait>(&mut self, rt: &R) -> Option<u64> {
        let _snapshot = Arc::try_clone(&*self.shared.lock(rt)).ok()?;
        Some(0)
    }
}
