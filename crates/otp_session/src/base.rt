use otp_model::{Edges, Feed};
use std::sync::Arc;

/// What all sessions serve over: a feed, the edges between its stops, and how many real-time feeds there are, 1 to 99.
#[derive(Drop)]
pub struct Ground {
    pub feed: Arc<Feed>,
    pub edges: Edges,
    pub feeds: u32,
}
