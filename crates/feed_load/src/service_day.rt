ghost use Rattle.std.specs.Prelude.{◌≡◌, IfOk};
ghost use Rattle.std.specs.List.{All, AllPairs};
ghost use Rattle.std.specs.List.Sorted.{IsStrictlyIncreasing};
ghost use Rattle.otp_model.specs.Ranges.{AreOptionsInRange, IsServiceDay};
ghost use Rattle.otp_model.specs.Rows.{AreTables};
ghost use Rattle.feed_load.specs.Runs.{IsEarlier, IsSoundDay, days_of, is_among, service_day};

use otp_base::{List, Memory};
use otp_model::{DayNo, Options, Tables, Time, Zone};
use service_days::{Services, day_start};
use std::alloc::Global;

/// A day of service: when it starts, and the services that run on it, by number and rising.
#[derive(Debug, Drop)]
pub struct ServiceDay {
    pub day: DayNo,
    pub start: Time,
    pub services: List<u32>,
}

impl ServiceDay {
    /// Whether a service runs on the day.
    pub fn has(&self, service: u32) -> bool
        requires { IsStrictlyIncreasing self.now.services }
        ensures { result ≡ is_among self.now.services service }
    {
        self.services.as_slice().binary_search(&service).is_ok()
    }
}

/// The days over which a feed is loaded.
pub fn days_of(alloc: Global, tables: &Tables, options: &Options) -> Result<Vec<ServiceDay>, Memory>
    requires tables { AreTables tables.now }
    requires options { AreOptionsInRange options.now }
    ensures days { IfOk result (λ days. days.items ≡ days_of tables.now options.now) }
    ensures sound { IfOk result (λ days. All IsSoundDay days.items) }
    ensures rise { IfOk result (λ days. AllPairs IsEarlier days.items) }
{
    let services = Services::of(alloc, tables)?;
    let mut days = Vec::new(alloc);
    for n in 0..options.days {
        let day = day_of(
            alloc,
            &services,
            &options.zone,
            options.first_day + n as DayNo,
        )?;
        days.push(day)?;
    }
    Ok(days)
}

fn day_of(alloc: Global, services: &Services, zone: &Zone, day: DayNo) -> Result<ServiceDay, Memory>
    requires { IsServiceDay day }
    ensures made { IfOk result (λ made. made ≡ service_day services.now zone.now day) }
    ensures sound { IfOk result IsSoundDay }
{
    let start = day_start(zone, day)?;
    let services = services.on(alloc, day)?;
    Ok(ServiceDay {
        day,
        start,
        services,
    })
}
