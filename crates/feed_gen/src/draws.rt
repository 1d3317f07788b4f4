ghost use Rattle.std.specs.Prelude.{◌≡◌, ◌<◌, ◌^◌};
ghost use Rattle.feed_gen.specs.Draws.{drawn, next, start_of};

/// How many states there are, 2^64.
const STATES: u128 = 18_446_744_073_709_551_616;

/// How many states give one number before it is reduced, 2^33: the low bits of a state repeat too soon.
const LOW_STATES: u64 = 8_589_934_592;

/// A stream of numbers: the linear congruential generator with Knuth's multiplier of MMIX.
#[derive(Debug, Drop)]
pub struct Draws {
    pub state: u64,
}

impl Draws {
    /// The stream of a part, before its first number.
    pub fn of(seed: u64, part: u32) -> Draws
        ensures { result.state ≡ start_of seed part }
    {
        let state = ((u128::from(seed) + 1) * 1_000_003 + u128::from(part)) % STATES;
        Draws {
            state: state as u64,
        }
    }

    /// The next number, below `below`.
    pub fn draw(&mut self, below: u32) -> u32
        requires { 0 < below }
        ensures state { self.new.state ≡ next self.old.state }
        ensures value { result ≡ drawn self.new.state below }
        ensures less { result < below }
    {
        let product = u128::from(self.state) * 6_364_136_223_846_793_005;
        self.state = ((product + 1_442_695_040_888_963_407) % STATES) as u64;
        (self.state / LOW_STATES % u64::from(below)) as u32
    }
}
