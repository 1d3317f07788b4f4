ghost use Rattle.query_form.specs.declared.fault.TargetFault.TheVariants as target;
ghost use Rattle.std.specs.Prelude.{◌≡◌};

use otp_base::{Memory, Text};

/// What is wrong with a parameter.
#[derive(Clone, Copy, Debug, PartialEq, Eq)]
pub enum QueryFault {
    /// It is needed and isn't there.
    Missing,
    /// Its text isn't of the form, or its number isn't in the range.
    Bad,
    /// It stands more than once.
    Twice,
    /// It names no stop, platform or station of the feed.
    UnknownPlace,
}

/// Why a target was not read.
#[derive(Debug, Drop)]
pub enum TargetFault {
    /// The path names nothing: 404.
    Path,
    /// No RT feed has the number: 404.
    FeedNumber,
    /// What the path names isn't asked for by this method: 405.
    Method,
    /// A parameter is at fault: 404 where it names no stop, 400 otherwise.
    Query { cause: QueryFault, parameter: Text },
    /// Memory ran out.
    Memory,
}

impl From<Memory> for TargetFault {
    ghost from_gives = { λ _ e. e ≡ target.Memory };

    fn from(_error: Memory) -> TargetFault {
        TargetFault::Memory
    }
}
