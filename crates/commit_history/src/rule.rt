//! The rule of the published cell: what holds of it and of what its readers and its writer know, between any two steps.
use crate::cell::Cell;
use atomic_table::{Join, Split};
use crossbeam_utils::rule::{Outcome, Protocol};
use otp_model::Feed;

/// Which history it is: that of a feed in a book, which goes by three numbers. No value of it is made.
pub struct HistoryName {
    pub feed: Feed,
    pub number: u64,
    pub log_name: u64,
    pub cells_name: u64,
}

/// What a reader or the writer knows: which history it is, and how often it has entered. No value of it is made.
pub struct Knowledge {
    pub name: Option<HistoryName>,
    pub entered: u64,
}

pub struct CellRule;

impl Protocol<Cell, Knowledge> for CellRule {
    ghost use Rattle.commit_history.specs.Rules.{IsKept, nothing};

    ghost holds = { IsKept };

    ghost first = { nothing };
}

/// A reader takes the entry.
pub struct Enters;

impl Outcome<Cell, Knowledge> for Enters {
    ghost use Rattle.commit_history.specs.Rules.{EntersAt};

    ghost then = { EntersAt };
}

/// The writer shows an entry.
pub struct Publishes;

impl Outcome<Cell, Knowledge> for Publishes {
    ghost use Rattle.commit_history.specs.Rules.{PublishesAt};

    ghost then = { PublishesAt };
}

/// The writer tells what it knows.
pub struct Tells;

impl Split<Knowledge> for Tells {
    ghost left = { λ knowledge. knowledge };

    ghost right = { λ knowledge. knowledge };
}

/// A new reader takes in which history it is.
pub struct Named;

impl Join<Knowledge> for Named {
    ghost use Rattle.commit_history.specs.Rules.{informed, nothing};

    ghost both = { informed };

    ghost spent = { nothing };
}
