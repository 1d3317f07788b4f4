//! Connections of all ports at once.
ghost use Rattle.otp_workers.specs.Served.{AllFit, AllServed};
ghost use Rattle.otp_session.specs.Connections.{Grows};
ghost use Rattle.otp_session.specs.Grounds.{IsAt};

use crate::naming::{Named, World};
use crate::requests::serve_connection;
use crate::session::Session;
use otp_base::{Port, Sink, Source};
use otp_workers::{Gate, Job, Worker, run_workers};
use std::alloc::Global;
use std::sync::Wait;
use std::thread::Threads;

/// Serves each link as a connection over a world.
#[derive(Drop)]
struct Serving<'a, W> {
    alloc: Global,
    world: &'a W,
}

impl<I: Source + Drop, O: Sink + Drop, N: Named + Send + Sync> Job<I, O, Session>
    for Serving<'_, World<N>> {
    ghost fits = { λ job seat. IsAt N.place seat };

    ghost becomes = { λ job before now. Grows before now };

    fn serve<R: Wait>(&self, rt: &R, seat: &mut Session, input: I, output: O) {
        let mut input = input;
        let mut output = output;
        let mut desk = self.world.desk();
        serve_connection(
            rt,
            self.alloc,
            self.world.base(),
            &mut desk,
            seat,
            &mut input,
            &mut output,
        );
    }
}

/// A gate that holds nobody back.
#[derive(Drop)]
pub struct Unhindered;

impl Gate for Unhindered {
    fn before(&self, _worker: usize) {}

    fn after(&self, _worker: usize) {}
}

/// Serves the links of all ports at once, each as a connection with the session of its worker, until each port gives no more or
/// fails. Where no thread can be made workers run one after the other. What a session knew begins what it knows then.
pub fn serve_ports<R: Threads + Wait + Sync, N: Named + Send + Sync, P: Port + Send, G: Gate>(
    rt: &R,
    alloc: Global,
    world: &World<N>,
    workers: &mut [Worker<P, Session>],
    gate: &G,
)
    requires { AllFit (IsAt N.place) workers.old }
    ensures { AllServed P.links P.faults (IsAt N.place) Grows workers.old workers.new }
{
    run_workers(rt, workers, &Serving { alloc, world }, gate);
}
