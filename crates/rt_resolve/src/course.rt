ghost use Rattle.std.specs.Prelude.{◌≡◌, [], ◌∷◌, List, OnOk};
ghost use Rattle.otp_model.specs.Moves.{raised};
ghost use Rattle.otp_model.specs.declared.timetable.Call.{Call as CallOf};
ghost use Rattle.rt_resolve.specs.Courses.{with_calls};

use otp_base::{List, Memory};
use otp_model::{Call, Time};
use std::alloc::Global;

/// The calls of a run as they come one after the other, each time raised to at least the one before it, in the
/// order arrival, departure.
#[derive(Drop)]
pub struct Course {
    calls: List<Call>,
    latest: Option<Time>,
}

impl Course {
    pub fn new(alloc: Global) -> Course
        ensures { (rest : List CallOf) → with_calls result rest ≡ raised rest }
    {
        Course {
            calls: List::new(alloc),
            latest: None,
        }
    }

    /// Adds a call behind the others.
    pub fn push(&mut self, call: Call) -> Result<(), Memory>
        ensures { OnOk result ((rest : List CallOf) → with_calls self.new rest ≡ with_calls self.old (call ∷ rest)) }
    {
        let latest: Time = self.latest.unwrap_or(call.arrival);
        let arrival: Time = latest.max(call.arrival);
        let departure: Time = arrival.max(call.departure);
        self.calls.push(Call {
            arrival,
            departure,
            ..call
        })?;
        self.latest = Some(departure);
        Ok(())
    }

    /// The calls.
    pub fn finish(self) -> List<Call>
        ensures { result ≡ with_calls self [] }
    {
        self.calls
    }
}
