ghost use Rattle.std.specs.Prelude.{◌≡◌, ◌<◌, ◌||◌, ℕ, IfOk, false, length, nat_eq, not};
ghost use Rattle.std.specs.List.{All};
ghost use Rattle.feed_load.specs.Marks.{AreMarks, is_marked, times_of};

use otp_base::Memory;
use std::alloc::Global;

/// Times of day that are marked, in rounds: each begins with none, and none takes the time of clearing them.
#[derive(Drop)]
pub struct Marks {
    /// The round that marked each time last, from 1 on.
    rounds: Vec<u32>,
    round: u32,
}

impl Marks {
    /// Marks for the times below an end.
    pub fn new(alloc: Global, times: usize) -> Result<Marks, Memory>
        ensures marks { IfOk result AreMarks }
        ensures times { IfOk result (λ marks. times_of marks ≡ times) }
    {
        let rounds = vec![in alloc; 0; times]?;
        Ok(Marks { rounds, round: 1 })
    }

    /// Begins a round.
    pub fn clear(&mut self)
        requires { AreMarks self.old }
        ensures marks { AreMarks self.new }
        ensures times { times_of self.new ≡ times_of self.old }
        ensures none { (time : ℕ) → is_marked self.new time ≡ false }
    {
        if self.round == u32::MAX {
            self.rounds.fill(0);
            self.round = 0;
        }
        self.round += 1;
    }

    /// Marks a time; whether it wasn't marked in this round.
    pub fn mark(&mut self, time: u32) -> bool
        requires marks { AreMarks self.old }
        requires within { time < times_of self.old }
        ensures marks { AreMarks self.new }
        ensures times { times_of self.new ≡ times_of self.old }
        ensures fresh { result ≡ not (is_marked self.old time) }
        ensures marked { (other : ℕ) → is_marked self.new other ≡ (nat_eq other time || is_marked self.old other) }
    {
        if self.rounds[time as usize] == self.round {
            return false;
        }
        self.rounds[time as usize] = self.round;
        true
    }
}
