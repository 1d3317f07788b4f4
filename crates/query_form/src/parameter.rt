ghost use Rattle.std.specs.Prelude.{◌≡◌};
ghost use Rattle.query_form.specs.Query.{IsNamed, name_of};

use crate::fault::{QueryFault, TargetFault};
use otp_base::Text;
use std::alloc::Global;

/// The parameters of a plan, in the order in which they are looked at, and that of an update.
#[derive(Clone, Copy, Debug, PartialEq, Eq)]
pub enum Parameter {
    From,
    To,
    Time,
    Window,
    Rides,
    Slack,
    WalkPoints,
    BoardPoints,
    Page,
    Cursor,
    AtLeast,
    Pin,
    Commit,
}

impl Parameter {
    pub fn name(self) -> &'static str
        ensures { result.now ≡ name_of self }
    {
        match self {
            Parameter::From => "from",
            Parameter::To => "to",
            Parameter::Time => "time",
            Parameter::Window => "window",
            Parameter::Rides => "rides",
            Parameter::Slack => "slack",
            Parameter::WalkPoints => "walk_points",
            Parameter::BoardPoints => "board_points",
            Parameter::Page => "page",
            Parameter::Cursor => "cursor",
            Parameter::AtLeast => "at_least",
            Parameter::Pin => "pin",
            Parameter::Commit => "commit",
        }
    }

    /// This parameter is at fault.
    pub fn refused(self, cause: QueryFault) -> Refusal
        ensures { result ≡ record { cause = cause; parameter = self } }
    {
        Refusal {
            cause,
            parameter: self,
        }
    }
}

/// The first parameter at fault, and what is wrong with it.
#[derive(Clone, Copy, Debug, PartialEq, Eq)]
pub struct Refusal {
    pub cause: QueryFault,
    pub parameter: Parameter,
}

impl Refusal {
    /// The fault with the parameter's name.
    pub fn named(self, alloc: Global) -> TargetFault
        ensures { IsNamed self result }
    {
        match Text::from_str(alloc, self.parameter.name()) {
            Ok(parameter) => TargetFault::Query {
                cause: self.cause,
                parameter,
            },
            Err(_) => TargetFault::Memory,
        }
    }
}
