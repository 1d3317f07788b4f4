use crate::stop::Stop;
use std::alloc::Global;

/// The nanoseconds of rounds.
#[derive(Drop)]
pub struct Times {
    rounds: Vec<u128>,
}

impl Times {
    pub fn new(alloc: Global) -> Times {
        Times {
            rounds: Vec::new(alloc),
        }
    }

    pub fn push(&mut self, nanoseconds: u128) -> Result<(), Stop> {
        self.rounds.push(nanoseconds)?;
        Ok(())
    }

    /// The one in the middle, of which as many were shorter as longer; 0 where there is none.
    pub fn middle(self) -> u128 {
        let mut rounds = self.rounds;
        rounds.sort_unstable();
        let middle = rounds.len() / 2;
        rounds.get(middle).copied().unwrap_or(0)
    }
}
