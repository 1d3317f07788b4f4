ghost use Rattle.std.specs.Prelude.{◌≡◌, ◌<◌};

use otp_base::{List, Memory, Steps};
use otp_model::{Call, Run, RunName, TripName};
use std::alloc::Global;
use std::marker::Brand;
use std::sync::ledger::{Blank, Ledger};
use std::test::Fail;
use trip_patterns::{Lane, LaneBuilder, are_of_one_block, is_of_block, lanes_of};

fn call(stop: u32, arrival: i64, departure: i64) -> Call {
    Call {
        stop,
        seq: stop,
        arrival,
        departure,
        board: stop != 6,
        alight: stop != 4,
    }
}

fn run(alloc: Global, trip: u32, calls: &[Call]) -> Result<Run, Memory> {
    let name = RunName {
        trip: TripName::Planned(trip),
        day: 3,
        start: None,
    };
    let calls = List::from_vec(Vec::from_slice(alloc, calls)?);
    Ok(Run { name, calls })
}

fn lanes_with<L: Ledger>(alloc: Global, runs: &[Run], blank: Blank) -> Result<Vec<Lane>, Memory>
    requires name { blank.name ≡ L.name }
    requires parts { blank.parts ≡ L.parts }
    requires some { 0 < blank.parts }
{
    let mut steps = Steps::<L>::new(blank);
    if !are_of_one_block(runs) {
        return Ok(Vec::new(alloc));
    }
    lanes_of(alloc, runs, &mut steps)
}

/// A lane of the first run and those behind it that fit.
fn lane_from<L: Ledger>(
    alloc: Global,
    first: &Run,
    runs: &[Run],
    blank: Blank,
) -> Result<Lane, Memory>
    requires name { blank.name ≡ L.name }
    requires parts { blank.parts ≡ L.parts }
    requires some { 0 < blank.parts }
{
    let mut steps = Steps::<L>::new(blank);
    let mut builder = LaneBuilder::new(alloc, first)?;
    for run in runs {
        if builder.fits(run) {
            builder.push_row(run, &mut steps)?;
        }
    }
    Ok(builder.finish())
}

#[test]
fn keeps_runs_in_lanes(rt: HostRuntime) -> Result<(), Fail> {
    let alloc = rt.alloc();
    let runs = [
        run(
            alloc,
            0,
            &[call(4, 100, 110), call(5, 200, 230), call(6, 300, 305)],
        )?,
        // It departs from the last stop before it arrives.
        run(
            alloc,
            1,
            &[call(4, 150, 155), call(5, 260, 270), call(6, 400, 390)],
        )?,
        // It overtakes the one before it on the way to the second stop.
        run(
            alloc,
            2,
            &[call(4, 160, 165), call(5, 250, 280), call(6, 410, 410)],
        )?,
    ];
    assert!(rt; is_of_block(&runs[0], &runs[1]));
    let lanes = lanes_with::<Brand>(alloc, &runs, Blank::new(1))?;
    assert_eq!(rt; lanes.len(), 2);
    assert_eq!(rt; lanes[1].rows(), 1);
    let lane = lane_from::<Brand>(alloc, &runs[0], &runs, Blank::new(1))?;
    assert_eq!(rt; lane.rows(), 2);
    assert_eq!(rt; lane.positions(), 3);
    assert_eq!(rt; lane.day(), 3);
    for (position, hop, dwell, stop) in [(0, 90, 5, 4), (1, 70, 10, 5), (2, 4_294_967_294, 0, 6)] {
        assert!(rt; position < lane.positions());
        assert_eq!(rt; lane.hop(position), hop, "hop at {position}");
        assert_eq!(rt; lane.dwell(position), dwell, "dwell at {position}");
        assert_eq!(rt; lane.stop(position), stop);
        assert_eq!(rt; lane.may_board(position), position < 2);
        assert_eq!(rt; lane.may_alight(position), position > 0);
    }
    for (position, time, row) in [
        (0, 109, 0),
        (0, 110, 0),
        (0, 111, 1),
        (0, 155, 1),
        (0, 156, 2),
        (1, 231, 1),
        (2, 305, 0),
        (2, 391, 2),
    ] {
        assert!(rt; position < lane.positions());
        assert_eq!(rt;
            lane.first_catch(position, time),
            row,
            "at {position} from {time}"
        );
    }
    assert_eq!(rt; lane.call(1, 2).arrival, 400);
    Ok(())
}
