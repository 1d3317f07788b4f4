//! Bodies of replies, laid out; blanks stand for nothing.

/// No journeys.
pub const NOTHING: &str = r#"
    {"behind": false, "commit": 0, "direct": null, "journeys": [],
     "more": false, "moved": false, "next": null}
"#;

/// The same for a cursor of another commit, and a client that was told of a later one.
pub const MOVED_AND_BEHIND: &str = r#"
    {"behind": true, "commit": 0, "direct": null, "journeys": [],
     "more": false, "moved": true, "next": null}
"#;

/// A walk of 557 metres, and no ride.
pub const ON_FOOT: &str = r#"
    {"behind": false, "commit": 0, "direct": 419, "journeys": [],
     "more": false, "moved": false, "next": null}
"#;

/// The first of two journeys, and more to come.
pub const FIRST_PAGE: &str = r#"
    {"behind": false, "commit": 0, "direct": null, "journeys": [
         {"arrival": 1714984200, "cost": 341900, "departure": 1714982400, "legs": [
            {"kind": "walk", "seconds": 0},
            {"alight": {"seq": 2, "stop": "B", "time": 1714983000}, "board": {"seq": 1, "stop": "A", "time": 1714982400},
             "date": "20240506", "kind": "ride", "trip": "T1"},
            {"kind": "walk", "seconds": 419},
            {"alight": {"seq": 2, "stop": "D", "time": 1714984200}, "board": {"seq": 1, "stop": "C", "time": 1714983600},
             "date": "20240506", "kind": "ride", "trip": "T2"},
            {"kind": "walk", "seconds": 0}],
          "rides": 2}],
     "more": true, "moved": false, "next": "v1-0-1714982400-1714984200-2-341900"}
"#;

/// The second one alone.
pub const SECOND_PAGE: &str = r#"
    {"behind": false, "commit": 0, "direct": null, "journeys": [
         {"arrival": 1714984800, "cost": 300000, "departure": 1714982400, "legs": [
            {"kind": "walk", "seconds": 0},
            {"alight": {"seq": 3, "stop": "D", "time": 1714984800}, "board": {"seq": 1, "stop": "A", "time": 1714982400},
             "date": "20240506", "kind": "ride", "trip": "T1"},
            {"kind": "walk", "seconds": 0}],
          "rides": 1}],
     "more": false, "moved": false, "next": "v1-0-1714982400-1714984800-1-300000"}
"#;

/// Both.
pub const BOTH: &str = r#"
    {"behind": false, "commit": 0, "direct": null, "journeys": [
         {"arrival": 1714984200, "cost": 341900, "departure": 1714982400, "legs": [
            {"kind": "walk", "seconds": 0},
            {"alight": {"seq": 2, "stop": "B", "time": 1714983000}, "board": {"seq": 1, "stop": "A", "time": 1714982400},
             "date": "20240506", "kind": "ride", "trip": "T1"},
            {"kind": "walk", "seconds": 419},
            {"alight": {"seq": 2, "stop": "D", "time": 1714984200}, "board": {"seq": 1, "stop": "C", "time": 1714983600},
             "date": "20240506", "kind": "ride", "trip": "T2"},
            {"kind": "walk", "seconds": 0}],
          "rides": 2},
         {"arrival": 1714984800, "cost": 300000, "departure": 1714982400, "legs": [
            {"kind": "walk", "seconds": 0},
            {"alight": {"seq": 3, "stop": "D", "time": 1714984800}, "board": {"seq": 1, "stop": "A", "time": 1714982400},
             "date": "20240506", "kind": "ride", "trip": "T1"},
            {"kind": "walk", "seconds": 0}],
          "rides": 1}],
     "more": false, "moved": false, "next": "v1-0-1714982400-1714984800-1-300000"}
"#;

/// The earlier trip.
pub const EARLIER_TRIP: &str = r#"
    {"behind": false, "commit": 0, "direct": null, "journeys": [
         {"arrival": 1714984800, "cost": 360000, "departure": 1714981800, "legs": [
            {"kind": "walk", "seconds": 0},
            {"alight": {"seq": 2, "stop": "D", "time": 1714984800}, "board": {"seq": 1, "stop": "A", "time": 1714981800},
             "date": "20240506", "kind": "ride", "trip": "T3"},
            {"kind": "walk", "seconds": 0}],
          "rides": 1}],
     "more": false, "moved": false, "next": "v1-0-1714981800-1714984800-1-360000"}
"#;

/// Both, from a point that is 335 seconds from A.
pub const FROM_A_POINT: &str = r#"
    {"behind": false, "commit": 0, "direct": null, "journeys": [
         {"arrival": 1714984200, "cost": 408900, "departure": 1714982065, "legs": [
            {"kind": "walk", "seconds": 335},
            {"alight": {"seq": 2, "stop": "B", "time": 1714983000}, "board": {"seq": 1, "stop": "A", "time": 1714982400},
             "date": "20240506", "kind": "ride", "trip": "T1"},
            {"kind": "walk", "seconds": 419},
            {"alight": {"seq": 2, "stop": "D", "time": 1714984200}, "board": {"seq": 1, "stop": "C", "time": 1714983600},
             "date": "20240506", "kind": "ride", "trip": "T2"},
            {"kind": "walk", "seconds": 0}],
          "rides": 2},
         {"arrival": 1714984800, "cost": 367000, "departure": 1714982065, "legs": [
            {"kind": "walk", "seconds": 335},
            {"alight": {"seq": 3, "stop": "D", "time": 1714984800}, "board": {"seq": 1, "stop": "A", "time": 1714982400},
             "date": "20240506", "kind": "ride", "trip": "T1"},
            {"kind": "walk", "seconds": 0}],
          "rides": 1}],
     "more": false, "moved": false, "next": "v1-0-1714982065-1714984800-1-367000"}
"#;

/// A call whose times stand between two others.
pub const BETWEEN_TIMES: &str = r#"
    {"behind": false, "commit": 0, "direct": null, "journeys": [
         {"arrival": 1714983600, "cost": 180000, "departure": 1714982400, "legs": [
            {"kind": "walk", "seconds": 0},
            {"alight": {"seq": 2, "stop": "B", "time": 1714983600}, "board": {"seq": 1, "stop": "A", "time": 1714982400},
             "date": "20240506", "kind": "ride", "trip": "T1"},
            {"kind": "walk", "seconds": 0}],
          "rides": 1}],
     "more": false, "moved": false, "next": "v1-0-1714982400-1714983600-1-180000"}
"#;

/// A trip behind midnight of its day of service.
pub const BEHIND_MIDNIGHT: &str = r#"
    {"behind": false, "commit": 0, "direct": null, "journeys": [
         {"arrival": 1715041200, "cost": 120000, "departure": 1715040600, "legs": [
            {"kind": "walk", "seconds": 0},
            {"alight": {"seq": 2, "stop": "B", "time": 1715041200}, "board": {"seq": 1, "stop": "A", "time": 1715040600},
             "date": "20240506", "kind": "ride", "trip": "T9"},
            {"kind": "walk", "seconds": 0}],
          "rides": 1}],
     "more": false, "moved": false, "next": "v1-0-1715040600-1715041200-1-120000"}
"#;

/// By a ride to the change, though a walk is there earlier.
pub const BY_RIDE: &str = r#"
    {"behind": false, "commit": 0, "direct": null, "journeys": [
         {"arrival": 1714992000, "cost": 360000, "departure": 1714989600, "legs": [
            {"kind": "walk", "seconds": 0},
            {"alight": {"seq": 2, "stop": "X", "time": 1714991238}, "board": {"seq": 1, "stop": "E", "time": 1714989600},
             "date": "20240506", "kind": "ride", "trip": "V2"},
            {"kind": "walk", "seconds": 0},
            {"alight": {"seq": 2, "stop": "D", "time": 1714992000}, "board": {"seq": 1, "stop": "X", "time": 1714991400},
             "date": "20240506", "kind": "ride", "trip": "V3"},
            {"kind": "walk", "seconds": 0}],
          "rides": 2}],
     "more": false, "moved": false, "next": "v1-0-1714989600-1714992000-2-360000"}
"#;

/// T1 by its starts at 08:00, 08:20 and 08:40.
pub const BY_STARTS: &str = r#"
    {"behind": false, "commit": 0, "direct": null, "journeys": [
         {"arrival": 1714984200, "cost": 341900, "departure": 1714982400, "legs": [
            {"kind": "walk", "seconds": 0},
            {"alight": {"seq": 2, "stop": "B", "time": 1714983000}, "board": {"seq": 1, "stop": "A", "time": 1714982400},
             "date": "20240506", "kind": "ride", "start": "08:00:00", "trip": "T1"},
            {"kind": "walk", "seconds": 419},
            {"alight": {"seq": 2, "stop": "D", "time": 1714984200}, "board": {"seq": 1, "stop": "C", "time": 1714983600},
             "date": "20240506", "kind": "ride", "trip": "T2"},
            {"kind": "walk", "seconds": 0}],
          "rides": 2},
         {"arrival": 1714984800, "cost": 300000, "departure": 1714982400, "legs": [
            {"kind": "walk", "seconds": 0},
            {"alight": {"seq": 3, "stop": "D", "time": 1714984800}, "board": {"seq": 1, "stop": "A", "time": 1714982400},
             "date": "20240506", "kind": "ride", "start": "08:00:00", "trip": "T1"},
            {"kind": "walk", "seconds": 0}],
          "rides": 1},
         {"arrival": 1714986000, "cost": 300000, "departure": 1714983600, "legs": [
            {"kind": "walk", "seconds": 0},
            {"alight": {"seq": 3, "stop": "D", "time": 1714986000}, "board": {"seq": 1, "stop": "A", "time": 1714983600},
             "date": "20240506", "kind": "ride", "start": "08:20:00", "trip": "T1"},
            {"kind": "walk", "seconds": 0}],
          "rides": 1},
         {"arrival": 1714987200, "cost": 300000, "departure": 1714984800, "legs": [
            {"kind": "walk", "seconds": 0},
            {"alight": {"seq": 3, "stop": "D", "time": 1714987200}, "board": {"seq": 1, "stop": "A", "time": 1714984800},
             "date": "20240506", "kind": "ride", "start": "08:40:00", "trip": "T1"},
            {"kind": "walk", "seconds": 0}],
          "rides": 1}],
     "more": false, "moved": false, "next": "v1-0-1714984800-1714987200-1-300000"}
"#;

/// A start five minutes after the day begins.
pub const BEFORE_THE_DAY: &str = r#"
    {"behind": false, "commit": 0, "direct": null, "journeys": [
         {"arrival": 1714956300, "cost": 300000, "departure": 1714953900, "legs": [
            {"kind": "walk", "seconds": 0},
            {"alight": {"seq": 3, "stop": "D", "time": 1714956300}, "board": {"seq": 1, "stop": "A", "time": 1714953900},
             "date": "20240506", "kind": "ride", "start": "00:05:00", "trip": "T1"},
            {"kind": "walk", "seconds": 0}],
          "rides": 1}],
     "more": false, "moved": false, "next": "v1-0-1714953900-1714956300-1-300000"}
"#;

/// A start of the day before.
pub const START_BEHIND_MIDNIGHT: &str = r#"
    {"behind": false, "commit": 0, "direct": null, "journeys": [
         {"arrival": 1715042400, "cost": 300000, "departure": 1715040000, "legs": [
            {"kind": "walk", "seconds": 0},
            {"alight": {"seq": 3, "stop": "D", "time": 1715042400}, "board": {"seq": 1, "stop": "A", "time": 1715040000},
             "date": "20240506", "kind": "ride", "start": "24:00:00", "trip": "T1"},
            {"kind": "walk", "seconds": 0}],
          "rides": 1}],
     "more": false, "moved": false, "next": "v1-0-1715040000-1715042400-1-300000"}
"#;
