use crate::doors::link;
use link_doors::{FarEnd, MemoryDoor, MemoryPort};
use otp_base::{Door, Got, List, Sink, Source, put_all};
use otp_workers::{Gate, Job, Worker, run_workers};
use std::alloc::Global;
use std::sync::Wait;
use std::sync::atomic::{AtomicBool, Ordering};
use std::test::Fail;
use std::thread;

/// Sends back what the first read gives. A seat counts its links.
struct Echo;

impl<I: Source + Drop, O: Sink + Drop> Job<I, O, u64> for Echo {
    ghost fits = { λ _ _. Unit {0} };

    ghost becomes = { λ _ _ _. Unit {0} };

    fn serve<R: Wait>(&self, _rt: &R, seat: &mut u64, input: I, output: O) {
        let mut input = input;
        let mut output = output;
        let mut room = [0u8; 8];
        if let Got::Bytes(count) = input.read(&mut room) {
            let _ = put_all(&mut output, &room[..count]);
        }
        *seat = seat.saturating_add(1);
    }
}

/// Holds each of two workers before its link until the other is there, for so many turns.
#[derive(Drop)]
struct Meeting {
    arrived: [AtomicBool; 2],
    ran_out: AtomicBool,
}

/// How often a worker looks for the other.
const TURNS: u64 = 10_000_000;

impl Gate for Meeting {
    fn before(&self, worker: usize) {
        if worker >= 2 {
            return;
        }
        self.arrived[worker].store(true, Ordering::SeqCst);
        for _ in 0..TURNS {
            if self.arrived[1 - worker].load(Ordering::SeqCst) {
                return;
            }
            thread::yield_now();
        }
        self.ran_out.store(true, Ordering::SeqCst);
    }

    fn after(&self, _worker: usize) {}
}

/// Two workers, each with a port that has one of two links.
fn two_workers(
    alloc: Global,
    first: &FarEnd,
    second: &FarEnd,
) -> Result<Vec<Worker<MemoryPort, u64>>, Fail> {
    let mut links = List::new(alloc);
    links.push(link(alloc, b"a", first)?)?;
    links.push(link(alloc, b"b", second)?)?;
    let mut door = MemoryDoor::new(alloc, links, List::new(alloc), List::new(alloc))?;
    let Ok(ports) = door.listen(alloc, 80, 9, 2) else {
        return Err(Fail::new("the door doesn't listen"));
    };
    let mut workers = Vec::new(alloc);
    for port in ports {
        workers.push(Worker {
            port,
            seat: 0,
            failed: true,
        })?;
    }
    Ok(workers)
}

#[test]
fn workers_serve_at_once(rt: HostRuntime) -> Result<(), Fail> {
    let alloc = rt.alloc();
    let (first, second) = (FarEnd::new(alloc)?, FarEnd::new(alloc)?);
    let mut workers = two_workers(alloc, &first, &second)?;
    let gate = Meeting {
        arrived: [AtomicBool::new(false), AtomicBool::new(false)],
        ran_out: AtomicBool::new(false),
    };
    run_workers(&rt, workers.as_mut_slice(), &Echo, &gate);
    assert!(rt; !gate.ran_out.load(Ordering::SeqCst));
    for worker in workers.as_slice() {
        assert_eq!(rt; worker.seat, 1);
        assert!(rt; !worker.failed);
    }
    for (far_end, sent) in [(&first, b"a"), (&second, b"b")] {
        match far_end.received() {
            Some(bytes) => assert_eq!(rt; bytes.as_slice(), sent.as_slice()),
            None => return Err(Fail::new("nothing was received")),
        }
    }
    Ok(())
}
