//! Records whose references to other files are resolved.

ghost use Rattle.std.specs.Prelude.{◌↔◌, IsTrue};
ghost use Rattle.otp_model.specs.Transfers.{Bars, HasMinimum, IsInSeat};

use crate::timetable::{StopNo, TripNo};

/// A record of `stop_times.txt` that names a stop, of a trip that is kept: `row` counts from 1, times are
/// seconds from noon less 12 hours of the service day.
#[derive(Clone, Copy, Debug, PartialEq, Eq)]
pub struct TimeRow {
    pub row: u64,
    pub trip: TripNo,
    pub seq: u32,
    pub stop: StopNo,
    pub arrival: Option<u32>,
    pub departure: Option<u32>,
    pub board: bool,
    pub alight: bool,
}

/// A record of `transfers.txt`: its stops, where they are given, its `transfer_type`, its least time in
/// seconds, and whether it is narrowed to a route or a trip.
#[derive(Clone, Copy, Debug, PartialEq, Eq)]
pub struct TransferRow {
    pub from: Option<StopNo>,
    pub to: Option<StopNo>,
    pub kind: u8,
    pub minimum: u32,
    pub narrow: bool,
}

impl TransferRow {
    /// Whether a change takes at least its least time (`transfer_type` 2).
    pub fn has_minimum(&self) -> bool
        ensures { IsTrue result ↔ HasMinimum self.now }
    {
        self.kind == TIMED
    }

    /// Whether no change is possible (`transfer_type` 3).
    pub fn bars(&self) -> bool
        ensures { IsTrue result ↔ Bars self.now }
    {
        self.kind == BARRED
    }

    /// Whether it tells of staying in one's seat (`transfer_type` 4 and 5).
    pub fn is_in_seat(&self) -> bool
        ensures { IsTrue result ↔ IsInSeat self.now }
    {
        self.kind > BARRED
    }
}

/// The `transfer_type` of a change with a least time, and that of one which is not possible.
const TIMED: u8 = 2;

const BARRED: u8 = 3;
