//! The search by rounds: labels are beginnings of journeys, one ride longer each round.
#![tactic(auto)]

mod bags;
mod board;
mod fronts;
mod journey;
mod laws;
mod lost;
mod marks;
mod moments;
mod node;
mod offer;
mod ready;
mod ride;
mod round;
mod start;
mod state;
mod walk;

pub use journey::journey_of;
pub use laws::bags_cover;
pub use moments::moments_of;
pub use node::Final;
pub use round::rounds;
pub use state::RoundState;
