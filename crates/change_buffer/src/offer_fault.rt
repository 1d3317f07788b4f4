/// Why a message wasn't accepted.
#[derive(Clone, Copy, Debug, PartialEq, Eq)]
pub enum OfferFault {
    /// Its timestamp is below `have`, the last one of its feed.
    Older { have: u64 },
    /// Its feed has accepted 2^40 messages.
    CountSpent,
    /// Memory ran out.
    Memory,
}
