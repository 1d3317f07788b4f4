use otp_model::Time;

/// When a journey arrives, and its cost.
#[derive(Clone, Copy, Debug, PartialEq, Eq)]
pub struct Step {
    pub arrival: Time,
    pub cost: i64,
}
