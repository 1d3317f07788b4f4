use otp_model::{StopNo, Time, Value};

/// A label: a beginning of a journey by its numbers, with its last ride, the walk before it, and the label that it goes on from.
#[derive(Clone, Copy, Debug)]
pub struct Node {
    pub stop: StopNo,
    pub departure: Time,
    pub rides: u32,
    pub time: Time,
    pub penalty: u64,
    pub parent: Option<usize>,
    pub walk: u32,
    pub block: usize,
    pub lane: usize,
    pub row: usize,
    pub board: usize,
    pub alight: usize,
}

/// A journey that was found: its value, the number of its label, and the seconds of the egress.
#[derive(Clone, Copy, Debug)]
pub struct Final {
    pub value: Value,
    pub label: usize,
    pub egress: u32,
}
