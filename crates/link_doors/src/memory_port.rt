ghost use Rattle.std.specs.Prelude.{◌≡◌, Some};

use crate::memory_link::{MemoryLink, MemoryOutput};
use crate::share::SharePort;
use otp_base::{Accepted, List, Memory, MemorySource, Port};
use std::alloc::Global;
use std::sync::Arc;
use std::sync::atomic::{AtomicUsize, Ordering};

/// A port of a door in memory, whose calls with the numbers in `fails`, counted from 1, fail. Each link is
/// the next that no port of its door has given yet. A link for which there is no memory is a fault.
#[derive(Drop)]
pub struct MemoryPort {
    pub alloc: Global,
    pub links: Arc<Vec<MemoryLink>>,
    pub next: Arc<AtomicUsize>,
    pub share: u64,
    pub fails: List<u64>,
    pub calls: u64,
    pub faults: u64,
}

impl MemoryPort {
    /// The two ends of the next link, if there is memory for them.
    fn open_next(&self) -> Result<(MemorySource, MemoryOutput), Memory> {
        let place = self.next.fetch_add(1, Ordering::SeqCst);
        match self.links.get(place) {
            Some(link) => link.open(self.alloc),
            None => Err(Memory),
        }
    }
}

impl SharePort for MemoryPort {
    ghost share = { λ p. p.share };

    ghost faults = { λ p. p.faults };

    fn fault_count(&self) -> u64 {
        self.faults
    }
}

impl Port for MemoryPort {
    type Input = MemorySource;

    type Output = MemoryOutput;

    ghost links = { λ p. Some p.share };

    ghost faults = { λ p. p.faults };

    fn accept(&mut self) -> Accepted<MemorySource, MemoryOutput> {
        self.calls = self.calls.saturating_add(1);
        if self.fails.as_slice().contains(&self.calls) {
            self.faults = self.faults.saturating_add(1);
            return Accepted::Failed;
        }
        if self.share == 0 {
            return Accepted::Closed;
        }
        match self.open_next() {
            Ok((input, output)) => {
                self.share -= 1;
                Accepted::Link { input, output }
            }
            Err(Memory) => {
                self.faults = self.faults.saturating_add(1);
                Accepted::Failed
            }
        }
    }
}
