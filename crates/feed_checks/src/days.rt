use service_days::{ZoneFault, day_start, local_day, parse_day, zone_of};
use std::test::Fail;

const BERLIN: &str = "CET-1CEST,M3.5.0,M10.5.0/3";

const NEW_YORK: &str = "EST5EDT,M3.2.0,M11.1.0";

const SYDNEY: &str = "AEST-10AEDT,M10.1.0,M4.1.0/3";

/// At half past eleven on 10 April the clock goes to half past twelve: noon is skipped.
const SKIPS_NOON: &str = "STD0DST,J100/11:30,J200";

/// At half past twelve on 19 July the clock goes back to half past eleven: noon is there twice.
const TWO_NOONS: &str = "STD0DST,J100,J200/12:30";

/// Texts that are no rule of a zone.
const NO_RULES: [&str; 5] = [
    "12",
    "",
    "Europe/Berlin",
    "CET-1CEST",
    "EST5EDT,M3.2.0,M11.1.0 ",
];

/// A zone's rule, a date, and when its day starts.
const STARTS: [(&str, &str, i64); 14] = [
    (BERLIN, "20240330", 1_711_753_200),
    // Midnight is at 1,711,839,600: the day of the change has 23 hours.
    (BERLIN, "20240331", 1_711_836_000),
    (BERLIN, "20241027", 1_729_983_600),
    (BERLIN, "20240701", 1_719_784_800),
    (NEW_YORK, "20240310", 1_710_043_200),
    (NEW_YORK, "20241103", 1_730_610_000),
    (NEW_YORK, "20240115", 1_705_294_800),
    (SYDNEY, "20240407", 1_712_412_000),
    (SYDNEY, "20241006", 1_728_133_200),
    (SYDNEY, "20240701", 1_719_756_000),
    // Of a skipped noon by the offset before: 12:00 UTC. Of two noons the earlier one: 11:00 UTC.
    (SKIPS_NOON, "20240410", 1_712_707_200),
    (TWO_NOONS, "20240719", 1_721_343_600),
    ("UTC0", "19700101", 0),
    ("UTC0", "29991231", 32_503_593_600),
];

/// A zone's rule, an instant, and its local day.
const LOCAL_DAYS: [(&str, u64, Option<i32>); 9] = [
    (BERLIN, 1_711_839_599, Some(19_812)),
    (BERLIN, 1_711_839_600, Some(19_813)),
    (NEW_YORK, 1_730_606_399, Some(20_029)),
    (NEW_YORK, 1_730_606_400, Some(20_030)),
    (SYDNEY, 1_728_136_799, Some(20_001)),
    (SYDNEY, 1_728_136_800, Some(20_002)),
    (NEW_YORK, 0, Some(-1)),
    ("UTC0", 253_402_000_000, Some(2_932_893)),
    ("UTC0", 253_402_000_001, None),
];

fn is_no_rule(text: &str) -> bool {
    matches!(zone_of(text), Err(ZoneFault::BadZone))
}

/// When the day of a date of eight digits starts, or none of a date that isn't of the years 1970 to 2999.
fn start(rule: &str, date: &str) -> Result<Option<i64>, Fail> {
    let zone = zone_of(rule)?;
    match parse_day(date) {
        Some(day) if 0 <= day && day <= 376_199 => Ok(Some(day_start(&zone, day)?)),
        _ => Ok(None),
    }
}

fn day(rule: &str, instant: u64) -> Result<Option<i32>, Fail> {
    let zone = zone_of(rule)?;
    Ok(local_day(&zone, instant)?)
}

#[test]
fn reads_zones_and_days(rt: HostRuntime) -> Result<(), Fail> {
    for text in NO_RULES {
        assert!(rt; is_no_rule(text), "{text}");
    }
    for (rule, date, wanted) in STARTS {
        assert!(rt; start(rule, date)? == Some(wanted), "{rule} {date}");
    }
    for (rule, instant, wanted) in LOCAL_DAYS {
        assert!(rt; day(rule, instant)? == wanted, "{rule} {instant}");
    }
    Ok(())
}
