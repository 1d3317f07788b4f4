ghost use Rattle.std.specs.Prelude.{◌≡◌, ◌^◌, pos};
ghost use Rattle.otp_model.specs.Rows.{IsWithin};

use otp_model::Time;

/// Seconds by which a run is late, or early below 0.
#[derive(Clone, Copy)]
pub struct Delay {
    pub seconds: Time,
    ghost within: { IsWithin (2 ^ 41) seconds },
}

impl Delay {
    /// A run that is on time.
    pub fn none() -> Delay
        ensures { result.seconds ≡ pos 0 }
    {
        Delay { seconds: 0 }
    }
}
