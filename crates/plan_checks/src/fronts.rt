use otp_base::List;
use otp_model::{Found, Journey, Value};
use pareto_front::front_of;
use std::test::Fail;

fn value(departure: i64, arrival: i64, rides: u32, cost: u64) -> Value {
    Value {
        departure,
        arrival,
        rides,
        cost,
    }
}

#[test]
fn keeps_the_best(rt: HostRuntime) -> Result<(), Fail> {
    let alloc = rt.alloc();
    let mut offers = Vec::new(alloc);
    for value in [
        value(20, 90, 2, 50),
        value(10, 80, 1, 70),
        // The same value twice.
        value(20, 90, 2, 50),
        // Beaten in the cost alone, in the arrival alone, in the rides alone, in the departure alone.
        value(20, 90, 2, 51),
        value(20, 91, 2, 50),
        value(20, 90, 3, 50),
        value(19, 90, 2, 50),
        // Ties with the first in departure, in arrival, in rides and in cost.
        value(20, 80, 2, 60),
        value(10, 90, 1, 50),
        value(30, 95, 2, 50),
    ] {
        offers.push(Found {
            value,
            journey: Journey {
                legs: List::new(alloc),
            },
        })?;
    }
    let list = front_of(alloc, offers)?;
    let values: Vec<Value> = list.iter().map(|found| found.value).collect(alloc)?;
    let expected = [
        value(10, 80, 1, 70),
        value(10, 90, 1, 50),
        value(20, 80, 2, 60),
        value(20, 90, 2, 50),
        value(30, 95, 2, 50),
    ];
    assert_eq!(rt; values.as_slice(), expected.as_slice());
    Ok(())
}
