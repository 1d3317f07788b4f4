ghost use Rattle.std.specs.Prelude.{◌≡◌, IsTrue, ◌↔◌};
ghost use Rattle.otp_model.specs.Patterns.{Spot as SpotOf, spot_of};

use otp_model::{Call, StopNo};
use std::marker::Model;

/// A stop of a pattern, and whether vehicles may be boarded and left there.
#[derive(Clone, Copy, Debug)]
pub struct Spot {
    stop: StopNo,
    board: bool,
    alight: bool,
}

impl Model for Spot {
    ghost Value = { SpotOf };

    ghost view = { λ spot. record { stop = spot.stop; board = spot.board; alight = spot.alight } };

    ghost inverse = { λ spot. record { stop = spot.stop; board = spot.board; alight = spot.alight } };
}

impl Spot {
    /// What a call shares with those of other runs of its pattern.
    pub fn of(call: &Call) -> Spot
        ensures { result ≡ spot_of call.now }
    {
        Spot {
            stop: call.stop,
            board: call.board,
            alight: call.alight,
        }
    }

    pub fn stop(&self) -> StopNo
        ensures { result ≡ self.now.stop }
    {
        self.stop
    }

    /// Whether vehicles may be boarded there.
    pub fn may_board(&self) -> bool
        ensures { result ≡ self.now.board }
    {
        self.board
    }

    /// Whether vehicles may be left there.
    pub fn may_alight(&self) -> bool
        ensures { result ≡ self.now.alight }
    {
        self.alight
    }

    /// Whether it is what the call shares with those of other runs of its pattern.
    pub fn is_of(&self, call: &Call) -> bool
        ensures { IsTrue result ↔ (spot_of call.now ≡ self.now) }
    {
        self.stop == call.stop && self.board == call.board && self.alight == call.alight
    }

    pub fn is_same(&self, other: &Spot) -> bool
        ensures { IsTrue result ↔ (self.now ≡ other.now) }
    {
        self.stop == other.stop && self.board == other.board && self.alight == other.alight
    }
}
