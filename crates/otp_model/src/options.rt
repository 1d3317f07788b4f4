use crate::timetable::{DayNo, Profile, Zone};
use otp_base::Text;

/// How a feed is loaded: on the clocks of `zone`, which the feed calls `zone_name`, over `days` days (1 to 31)
/// from `first_day` on, a day of the years 1970 to 2998; how many real-time feeds change it (1 to 16), and how
/// people walk.
#[derive(Debug, Drop)]
pub struct Options {
    pub zone: Zone,
    pub zone_name: Text,
    pub first_day: DayNo,
    pub days: u32,
    pub feeds: u32,
    pub profile: Profile,
}
