//! The two ways from A to D, messages that change them, and the best journeys after each.
ghost use Rattle.std.specs.Prelude.{IfOk};
ghost use Rattle.otp_model.specs.Sound.{IsSound};

use feed_load::{Loaded, Options, load};
use otp_base::{List, MemoryFolder, Text};
use otp_model::{Edges, Message, Place, Profile, Request, Value};
use planner::plan_runs;
use rt_reader::read_message;
use service_days::zone_of;
use snapshot_store::Snapshot;
use std::alloc::Global;
use std::test::Fail;
use worked_feeds::{CANCELED, LATE_BY_61, LATE_BY_62, TWO_WAYS, files_of};

/// When the day of service starts, 6 May 2024.
const START: i64 = 1_714_953_600;

/// The feed over that day.
pub fn loaded(alloc: Global) -> Result<Loaded, Fail>
    ensures { IfOk result (λ loaded. IsSound loaded.feed) }
{
    let files = files_of(alloc, TWO_WAYS.as_slice(), &[])?;
    let mut folder = MemoryFolder::new(files, List::new(alloc));
    let options = Options {
        zone: zone_of("UTC0")?,
        zone_name: Text::from_str(alloc, "Etc/UTC")?,
        first_day: 19_849,
        days: 1,
        feeds: 1,
        profile: Profile {
            speed: 1_330,
            reach: 1_000_000,
            scale: 111_195,
        },
    };
    Ok(load(alloc, &mut folder, "f", &options)?)
}

/// T1 is at B 61 seconds late, then 62, and then cancelled.
pub fn messages() -> [&'static [u8]; 3] {
    [LATE_BY_61, LATE_BY_62, CANCELED]
}

pub fn message(alloc: Global, bytes: &[u8]) -> Result<Message, Fail> {
    Ok(read_message(alloc, bytes)?)
}

/// From A to D within half an hour from 07:40:00.
fn request() -> Request {
    Request {
        from: Place::Stop(0),
        to: Place::Stop(3),
        time: START + 28_000,
        window: 1_800,
        rides: 4,
        slack: 120,
        walk_points: 200,
        board_points: 60_000,
        page: 20,
        cursor: None,
        at_least: 0,
        pin: false,
    }
}

/// By T1 to B, on foot to C, and on by T2.
const WITH_CHANGE: Value = Value {
    departure: START + 28_800,
    arrival: START + 30_600,
    rides: 2,
    cost: 341_900,
};

/// By T1 alone.
const BY_T1: Value = Value {
    departure: START + 28_800,
    arrival: START + 31_200,
    rides: 1,
    cost: 300_000,
};

/// The same, 61 seconds late.
const BY_T1_LATE_BY_61: Value = Value {
    departure: START + 28_800,
    arrival: START + 31_261,
    rides: 1,
    cost: 306_100,
};

/// The same, 62 seconds late.
const BY_T1_LATE_BY_62: Value = Value {
    departure: START + 28_800,
    arrival: START + 31_262,
    rides: 1,
    cost: 306_200,
};

/// By the earlier T3.
const BY_T3: Value = Value {
    departure: START + 28_200,
    arrival: START + 31_200,
    rides: 1,
    cost: 360_000,
};

/// The best values after so many of the messages. With 61 seconds the change is just caught.
fn values_after(number: u64) -> &'static [Value] {
    match number {
        0 => &[WITH_CHANGE, BY_T1],
        1 => &[BY_T3, WITH_CHANGE, BY_T1_LATE_BY_61],
        2 => &[BY_T3, BY_T1_LATE_BY_62],
        3 => &[BY_T3],
        _ => &[],
    }
}

/// Whether a plan over the snapshot has the values that belong to so many messages; not where memory runs out.
pub fn is_planned(alloc: Global, snapshot: &Snapshot, edges: &Edges, number: u64) -> bool {
    let Ok(runs) = snapshot.all_runs(alloc) else {
        return false;
    };
    let request = request();
    if !request.can_search(&runs, edges) {
        return false;
    }
    let Ok(page) = plan_runs(alloc, &runs, edges, &request) else {
        return false;
    };
    let found = page.found.as_slice().iter().map(|found| found.value);
    found.eq(values_after(number).iter().copied())
}
