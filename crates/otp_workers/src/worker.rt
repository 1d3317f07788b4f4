ghost use Rattle.otp_workers.specs.Served.{AllFit, AllServed, IsServed};

use crate::gate::Gate;
use crate::job::Job;
use otp_base::{Accepted, Port, Sink, Source};
use std::sync::Wait;
use std::thread::{Threads, for_each_mut};

/// A port, and the seat that its links are served with.
#[derive(Drop)]
pub struct Worker<P, S> {
    pub port: P,
    pub seat: S,
    /// Whether the port failed when the worker was last run.
    pub failed: bool,
}

/// Serves the links of all ports at once, until each gives no more or fails. Where no thread can be made
/// workers run one after the other. It takes no memory.
pub fn run_workers<
    R: Threads + Wait + Sync,
    P: Port + Send,
    S: Send,
    J: Job<P::Input, P::Output, S>,
    G: Gate,
>(rt: &R, workers: &mut [Worker<P, S>], job: &J, gate: &G)
    requires { AllFit (J.fits job.now) workers.old }
    ensures { AllServed P.links P.faults (J.fits job.now) (J.becomes job.now) workers.old workers.new }
{
    let threads = workers.len();
    if threads == 0 {
        return;
    }
    for_each_mut(
        rt,
        workers,
        threads,
        &|place: usize, worker: &mut Worker<P, S>|
            requires { J.fits job.now worker.old.seat }
            ensures { IsServed P.links P.faults (J.fits job.entry.now) (J.becomes job.entry.now) worker.old worker.new }
        { serve_port(rt, place, worker, job, gate) },
    );
}

/// Serves the links of one port, one after the other.
fn serve_port<R: Wait, P: Port, S, J: Job<P::Input, P::Output, S>, G: Gate>(
    rt: &R,
    place: usize,
    worker: &mut Worker<P, S>,
    job: &J,
    gate: &G,
)
    requires { J.fits job.now worker.old.seat }
    ensures { IsServed P.links P.faults (J.fits job.now) (J.becomes job.now) worker.old worker.new }
{
    worker.failed = false;
    for _ in rt.forever() {
        match worker.port.accept() {
            Accepted::Link { input, output } => {
                serve_link(rt, place, &mut worker.seat, input, output, job, gate);
            }
            Accepted::Closed => return,
            Accepted::Failed => {
                worker.failed = true;
                return;
            }
        }
    }
}

/// Serves one link between the calls of the gate.
fn serve_link<R: Wait, I: Source + Drop, O: Sink + Drop, S, J: Job<I, O, S>, G: Gate>(
    rt: &R,
    place: usize,
    seat: &mut S,
    input: I,
    output: O,
    job: &J,
    gate: &G,
)
    requires { J.fits job.now seat.old }
    ensures fits { J.fits job.now seat.new }
    ensures becomes { J.becomes job.now seat.old seat.new }
{
    gate.before(place);
    job.serve(rt, seat, input, output);
    gate.after(place);
}
