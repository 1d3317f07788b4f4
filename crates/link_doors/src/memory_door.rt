ghost use Rattle.std.specs.Prelude.{◌≡◌, ◌<◌, ◌+◌, Some, IfOk, IfSome, [], length, sum_by};
ghost use Rattle.otp_base.specs.Doors.{CountsFaults, TakesBack};

use crate::memory_link::{MemoryLink, copy_of};
use crate::memory_port::MemoryPort;
use crate::share::{MakePort, count_faults, share_out};
use otp_base::{Door, List, ListenFault, Memory};
use std::alloc::{AllocError, Global};
use std::sync::Arc;
use std::sync::atomic::AtomicUsize;

/// A door in memory, which gives each of its links once. Its calls of `listen` with the numbers in `fails`,
/// counted from 1, fail, and so do the calls of its ports with the numbers in `port_fails`, worker by
/// worker; a worker behind the list has none.
#[derive(Drop)]
pub struct MemoryDoor {
    links: Arc<Vec<MemoryLink>>,
    /// The place of the next link that no port has given.
    next: Arc<AtomicUsize>,
    /// How many links no port has a share of.
    left: u64,
    /// The ports that came back last.
    back: Vec<MemoryPort>,
    out: usize,
    fails: List<u64>,
    port_fails: List<List<u64>>,
    calls: u64,
    faults: u64,
    ghost idle: { 0 < out → back.items ≡ [] },
}

impl MemoryDoor {
    /// A door that has given none of these links yet.
    pub fn new(
        alloc: Global,
        links: List<MemoryLink>,
        fails: List<u64>,
        port_fails: List<List<u64>>,
    ) -> Result<MemoryDoor, Memory>
        ensures out { IfOk result (λ door. door.out ≡ 0) }
        ensures links { IfOk result (λ door. door.left + sum_by (λ p. p.share) door.back.items ≡ length links) }
        ensures none { IfOk result (λ door. door.faults ≡ 0) }
    {
        let left = links.len() as u64;
        Ok(MemoryDoor {
            links: Arc::new(alloc, links.into_vec()).map_err(AllocError::from)?,
            next: Arc::new(alloc, AtomicUsize::new(0)).map_err(AllocError::from)?,
            left,
            back: Vec::new(alloc),
            out: 0,
            fails,
            port_fails,
            calls: 0,
            faults: 0,
        })
    }

    /// Lets the ports go out, where so many links stay with the door.
    fn give_out(&mut self, alloc: Global, left: u64, ports: usize)
        ensures left { self.new.left ≡ left }
        ensures back { self.new.back.items ≡ [] }
        ensures out { self.new.out ≡ ports }
        ensures faults { self.new.faults ≡ self.old.faults }
    {
        self.back = Vec::new(alloc);
        self.left = left;
        self.out = ports;
    }

    /// Keeps the ports that were out.
    fn keep(&mut self, ports: Vec<MemoryPort>, faults: u64)
        requires { 0 < self.old.out }
        ensures left { self.new.left ≡ self.old.left }
        ensures before { self.old.back.items ≡ [] }
        ensures back { self.new.back.items ≡ ports.items }
        ensures out { self.new.out ≡ 0 }
        ensures faults { self.new.faults ≡ faults }
    {
        self.out = 0;
        self.faults = faults;
        self.back = ports;
    }

    /// The port of a worker, if there is memory for it.
    fn port_of(&self, alloc: Global, worker: usize, share: u64) -> Result<MemoryPort, Memory>
        ensures { IfOk result (λ port. (port.share ≡ share) × (port.faults ≡ 0)) }
    {
        let fails = match self.port_fails.as_slice().get(worker) {
            Some(fails) => copy_of(alloc, fails)?,
            None => List::new(alloc),
        };
        Ok(MemoryPort {
            alloc,
            links: Arc::try_clone(&self.links)?,
            next: Arc::try_clone(&self.next)?,
            share,
            fails,
            calls: 0,
            faults: 0,
        })
    }
}

impl MakePort for MemoryDoor {
    type Port = MemoryPort;

    fn make_port(
        &self,
        alloc: Global,
        worker: usize,
        share: u64,
    ) -> Result<MemoryPort, ListenFault> {
        self.port_of(alloc, worker, share)
            .map_err(|_| ListenFault::Memory)
    }
}

/// How many links these ports and a door have together, if a `u64` counts them.
fn links_of(ports: &[MemoryPort], left: u64) -> Option<u64>
    ensures { IfSome result (λ links. links ≡ left + sum_by (λ p. p.share) ports.now) }
{
    let mut links = left;
    for port in ports {
        links = links.checked_add(port.share)?;
    }
    Some(links)
}

impl Door for MemoryDoor {
    type Port = MemoryPort;

    ghost links = { λ d. Some (d.left + sum_by (λ p. p.share) d.back.items) };

    ghost out = { λ d. d.out };

    ghost faults = { λ d. d.faults };

    fn listen(
        &mut self,
        alloc: Global,
        _port: u16,
        connections: u64,
        workers: usize,
    ) -> Result<Vec<MemoryPort>, ListenFault> {
        self.calls = self.calls.saturating_add(1);
        let Some(links) = links_of(self.back.as_slice(), self.left) else {
            self.faults = self.faults.saturating_add(1);
            return Err(ListenFault::Failed);
        };
        if self.fails.as_slice().contains(&self.calls) {
            self.faults = self.faults.saturating_add(1);
            return Err(ListenFault::Failed);
        }
        let most = links.min(connections);
        let Ok(ports) = share_out(&*self, alloc, most, workers) else {
            return Err(ListenFault::Memory);
        };
        self.give_out(alloc, links - most, workers);
        Ok(ports)
    }

    fn close(&mut self, ports: Vec<MemoryPort>)
        requires { length ports.items ≡ self.old.out }
        ensures out { self.new.out ≡ 0 }
        ensures links { TakesBack (λ p. Some p.share) (Some (self.old.left + sum_by (λ p. p.share) self.old.back.items)) (Some (self.new.left + sum_by (λ p. p.share) self.new.back.items)) ports.items }
        ensures cause { CountsFaults (λ p. p.faults) self.old.faults self.new.faults ports.items }
    {
        let faults = count_faults(self.faults, ports.as_slice());
        if self.out == 0 {
            self.faults = faults;
            return;
        }
        self.keep(ports, faults);
    }
}
