use otp_model::{Profile, Stop, StopNo};

/// The stops that ways lead between, and how people walk.
#[derive(Clone, Copy, Debug)]
pub struct Ground<'a> {
    pub stops: &'a [Stop],
    pub profile: &'a Profile,
}

/// A stop with its number.
#[derive(Clone, Copy, Debug)]
pub struct Numbered<'a> {
    pub number: StopNo,
    pub stop: &'a Stop,
}
