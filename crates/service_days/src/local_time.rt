ghost use Rattle.std.specs.Prelude.{◌≡◌, ◌-ℤ◌, ◌*ℤ◌, pos, IfOk, IfSome, Ok};
ghost use Rattle.jiff_core.specs.Calendar.{IsEpochDay, IsWithin};
ghost use Rattle.otp_model.specs.LocalDays.{local_day_of};
ghost use Rattle.otp_model.specs.Ranges.{IsServiceDay};
ghost use Rattle.service_days.specs.LocalTime.{IsNoon, IsStart, start_of};

use jiff::Timestamp;
use jiff::civil::{Date, DateTime};
use jiff::tz::Disambiguation;
use jiff_core::civil;
use otp_base::Memory;
use otp_model::{DayNo, Time, Zone};

/// Seconds from a day's start to noon.
const HALF_DAY: Time = 43_200;

/// The latest instant whose local day is told: so many seconds after 1970-01-01 00:00 UTC, in the year 9999.
const LATEST: u64 = 253_402_000_000;

/// Noon of a day, on no clock in particular.
fn noon_of(day: DayNo) -> DateTime
    requires { IsEpochDay day }
    ensures { IsNoon day result }
{
    let date = civil::Date::from_unix_epoch_day(i64::from(day)).unwrap();
    Date::from_plain(date).at(12, 0, 0, 0)
}

/// When a day of service starts: the instant of local noon, less 12 hours (GTFS Schedule reference, "Time"),
/// in seconds since 1970-01-01 00:00 UTC. Where the clocks show noon twice the earlier instant is meant; where
/// they skip it, the offset before the gap is used. The day is of the years 1970 to 2999.
pub fn day_start(zone: &Zone, day: DayNo) -> Result<Time, Memory>
    requires { IsServiceDay day }
    ensures start { result ≡ Ok (start_of zone.now day) }
    ensures noon { IfOk result (IsStart zone.now day) }
    ensures near { IfOk result (λ start. IsWithin 93599 (start -ℤ day *ℤ pos 86400)) }
{
    let noon = zone.rule.to_ambiguous_timestamp(noon_of(day));
    let noon = noon.disambiguate(Disambiguation::Compatible).unwrap();
    Ok(noon.to_plain().floor_second() - HALF_DAY)
}

/// The day that local clocks show at an instant, in seconds since 1970-01-01 00:00 UTC; `None` exactly where
/// the instant is above 253,402,000,000.
pub fn local_day(zone: &Zone, instant: u64) -> Result<Option<DayNo>, Memory>
    ensures day { result ≡ Ok (local_day_of zone.now instant) }
    ensures range { IfOk result (λ day. IfSome day IsEpochDay) }
{
    if instant > LATEST {
        return Ok(None);
    }
    let instant = Timestamp::from_second(instant as i64).unwrap();
    let date = zone.rule.to_datetime(instant).date();
    Ok(Some(date.to_plain().to_unix_epoch_day()))
}
