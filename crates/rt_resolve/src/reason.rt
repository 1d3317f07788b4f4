ghost use Rattle.std.specs.Prelude.{◌≡◌, ◌+◌, ◌<◌};
ghost use Rattle.rt_resolve.specs.Reasons.{number_of};
ghost use Rattle.rt_resolve.specs.declared.reason.Unresolved.TheVariants as unresolved;

use otp_base::Memory;

/// Why an entity of a message is ignored, in the order in which the reasons are looked for.
#[derive(Clone, Copy, Debug, PartialEq, Eq)]
pub enum Reason {
    /// It is marked deleted.
    Deleted,
    /// It has no trip update.
    NoUpdate,
    /// The relation of its trip is none that is read.
    OtherRelation,
    /// Its trip has no id.
    NoTripId,
    /// The feed lacks the trip, or has the one that is to be added.
    WrongTrip,
    /// No day of service is told.
    NoDay,
    /// The trip has no such run, or the day of an added one is none of the feed's.
    NoRun,
    /// A delay or time is out of range, or the calls of an added run can't be told.
    BadCalls,
    /// An earlier entity resolved for the same name.
    SameName,
}

impl Reason {
    /// How many reasons come before it.
    pub fn place(self) -> usize
        ensures number { result + 1 ≡ number_of self }
        ensures below { result < 9 }
    {
        match self {
            Reason::Deleted => 0,
            Reason::NoUpdate => 1,
            Reason::OtherRelation => 2,
            Reason::NoTripId => 3,
            Reason::WrongTrip => 4,
            Reason::NoDay => 5,
            Reason::NoRun => 6,
            Reason::BadCalls => 7,
            Reason::SameName => 8,
        }
    }
}

/// Why an entity gave no change.
#[derive(Clone, Copy, Debug, PartialEq, Eq)]
pub enum Unresolved {
    /// It is ignored.
    Ignored(Reason),
    /// Memory ran out.
    Memory,
}

impl From<Memory> for Unresolved {
    ghost from_gives = { λ _ e. e ≡ unresolved.Memory };

    fn from(_error: Memory) -> Unresolved {
        Unresolved::Memory
    }
}
