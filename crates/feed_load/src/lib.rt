//! The feed that a folder spells: its tables with their references, and a run for each trip and day, or for each
//! start of a trip that runs by headways.
#![tactic(auto)]

mod by_trip;
mod counts;
mod gap;
mod joins;
mod limits;
mod loading;
mod marks;
mod runs;
mod service_day;
mod starts;
mod trip_calls;
mod trip_table;
mod trips;

pub use loading::{Loaded, load};
pub use otp_model::Options;
