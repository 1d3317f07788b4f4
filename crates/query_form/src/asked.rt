use otp_model::Request;

/// What a request asks for.
#[derive(Clone, Copy, Debug, PartialEq, Eq)]
pub enum Asked {
    /// A page of journeys.
    Plan(Request),
    /// How many commits there are, and what the feed holds.
    Status,
    /// To take a message of the RT feed of this number, counted from 1, and to commit it where `commit` says so.
    Update { feed_no: u32, commit: bool },
    /// To commit what was taken.
    Commit,
}
