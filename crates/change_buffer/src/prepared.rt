use otp_base::List;
use otp_model::{Change, Commit};

/// A commit that is to be made, and what it changes in the schedule: by rising name each run that has other
/// calls after it, or is out.
#[derive(Debug, Drop)]
pub struct Prepared {
    pub commit: Commit,
    pub changes: List<Change>,
}
