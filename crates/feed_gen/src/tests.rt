use crate::{GenFault, generated};
use std::alloc::Global;

/// A file of seed 7, with the bytes that it begins and ends with.
#[derive(Clone, Copy)]
struct Made {
    name: &'static str,
    front: &'static [u8],
    back: &'static [u8],
}

const MADE: &[Made] = &[
    Made {
        name: "stops.txt",
        front: b"stop_id,stop_name,stop_lat,stop_lon\nS0,S0,0.000000,0.000000\nS1,S1,0.000000,0.004000\n",
        back: b"\nS399,S399,0.076000,0.076000\n",
    },
    Made {
        name: "trips.txt",
        front: b"route_id,service_id,trip_id\nL0,S,T0-0\n",
        back: b"\nL59,S,T59-99\n",
    },
    Made {
        name: "stop_times.txt",
        front: b"trip_id,arrival_time,departure_time,stop_id,stop_sequence\nT0-0,",
        back: b",12\n",
    },
    Made {
        name: "message-1-1.pb",
        front: b"\x0A\x0B\x0A\x03\x32\x2E\x30\x18\xBC\xBB\xE0\xB1\x06",
        back: b"",
    },
    Made {
        name: "queries.txt",
        front: b"from=stop:S",
        back: b"&window=3600&rides=4&page=200\n",
    },
];

fn files() -> &'static [Made] {
    MADE
}

fn are_made(alloc: Global) -> Result<bool, GenFault> {
    for file in files() {
        let bytes = generated(alloc, 7, file.name)?;
        if !bytes.as_slice().starts_with(file.front) || !bytes.as_slice().ends_with(file.back) {
            return Ok(false);
        }
    }
    Ok(true)
}

#[test]
fn makes_the_files_of_a_seed(rt: HostRuntime) {
    assert!(rt; matches!(are_made(rt.alloc()), Ok(true)));
    assert!(rt;
        matches!(
            generated(rt.alloc(), 7, "nothing"),
            Err(GenFault::UnknownName)
        )
    );
}
