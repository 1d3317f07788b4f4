use otp_base::Memory;
use otp_model::FeedFault;
use std::alloc::AllocFailed;
use std::io;
use thiserror::Error;

/// Why no measure was taken.
#[derive(Debug, Drop, Error)]
pub enum Stop {
    #[error("the words are none of a plan: plan FOLDER time|counts|values|compare N=QUERIES --zone NAME=RULE --from YYYYMMDD")]
    Words,
    #[error("{0}")]
    Feed(#[from] FeedFault),
    #[error("a file has no queries that can be read")]
    Queries,
    #[error("the whole list by enumeration has other values")]
    Other,
    #[error("{0}")]
    Output(#[from] io::Error),
    #[error("memory ran out")]
    Memory,
}

impl From<Memory> for Stop {
    fn from(_error: Memory) -> Stop {
        Stop::Memory
    }
}

impl<T: Drop> From<AllocFailed<T>> for Stop {
    fn from(_error: AllocFailed<T>) -> Stop {
        Stop::Memory
    }
}
