//! Days of service: the zone that a rule of POSIX spells, when a day starts on its clocks, the local day of
//! an instant, and which services run on a day.
#![tactic(auto)]

mod local_time;
mod services;
mod zone;

pub use local_time::{day_start, local_day};
pub use otp_model::parse_day;
pub use services::{Services, active};
pub use zone::{ZoneFault, zone_of};
