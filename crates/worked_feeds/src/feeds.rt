ghost use Rattle.std.specs.Prelude.{◌≡◌, ◌++◌, IfOk, OnOk};
ghost use Rattle.worked_feeds.specs.Feeds.{entry_of, files_of as files_with, is_named as has_name};

use otp_base::{FileEntry, List, Memory, Text};
use std::alloc::Global;

/// A file of a sample feed in the folder `f`. One without a text isn't there.
#[derive(Clone, Copy, Debug)]
pub struct SampleFile {
    pub name: &'static str,
    pub text: &'static str,
}

/// Two ways from A to D on Monday, 6 May 2024: with a change on foot from B to C, or by one ride; and an earlier
/// trip. B and C are 555,975 mm apart.
pub const TWO_WAYS: [SampleFile; 6] = [
    SampleFile {
        name: "f/agency.txt",
        text: "agency_id,agency_name,agency_url,agency_timezone
X,Example,https://example.org,Etc/UTC
",
    },
    SampleFile {
        name: "f/stops.txt",
        text: "stop_id,stop_name,stop_lat,stop_lon
A,A,0.0,0.0
B,B,0.1,0.0
C,C,0.1,0.005
D,D,0.3,0.0
",
    },
    SampleFile {
        name: "f/routes.txt",
        text: "route_id,agency_id,route_short_name,route_type
R,X,R,3
",
    },
    SampleFile {
        name: "f/trips.txt",
        text: "route_id,service_id,trip_id
R,S,T1
R,S,T2
R,S,T3
",
    },
    SampleFile {
        name: "f/stop_times.txt",
        text: "trip_id,arrival_time,departure_time,stop_id,stop_sequence
T1,08:00:00,08:00:00,A,1
T1,08:10:00,08:10:00,B,2
T1,08:40:00,08:40:00,D,3
T2,08:20:00,08:20:00,C,1
T2,08:30:00,08:30:00,D,2
T3,7:50:00,7:50:00,A,1
T3,08:40:00,08:40:00,D,2
",
    },
    SampleFile {
        name: "f/calendar.txt",
        text: "service_id,monday,tuesday,wednesday,thursday,friday,saturday,sunday,start_date,end_date
S,1,0,0,0,0,0,0,20240506,20240506
",
    },
];

/// What makes it a feed of one trip that runs after midnight of its day of service.
pub const AFTER_MIDNIGHT: [SampleFile; 2] = [
    SampleFile {
        name: "f/trips.txt",
        text: "route_id,service_id,trip_id
R,S,T9
",
    },
    SampleFile {
        name: "f/stop_times.txt",
        text: "trip_id,arrival_time,departure_time,stop_id,stop_sequence
T9,24:10:00,24:10:00,A,1
T9,24:20:00,24:20:00,B,2
",
    },
];

/// What makes it a feed where a walk reaches the change at X earlier than a ride, at the same cost before the next
/// boarding, and the ride is what the best journey needs.
pub const WALK_OR_RIDE: [SampleFile; 3] = [
    SampleFile {
        name: "f/stops.txt",
        text: "stop_id,stop_name,stop_lat,stop_lon
E,E,1.0,0.0
P,P,1.1,0.0
X,X,1.1,0.005
D,D,1.3,0.0
",
    },
    SampleFile {
        name: "f/trips.txt",
        text: "route_id,service_id,trip_id
R,S,V1
R,S,V2
R,S,V3
",
    },
    SampleFile {
        name: "f/stop_times.txt",
        text: "trip_id,arrival_time,departure_time,stop_id,stop_sequence
V1,10:00:00,10:00:00,E,1
V1,10:13:20,10:13:20,P,2
V2,10:00:00,10:00:00,E,1
V2,10:27:18,10:27:18,X,2
V3,10:30:00,10:30:00,X,1
V3,10:40:00,10:40:00,D,2
",
    },
];

/// The files of a feed: a change stands in place of the file of its name, a change of another name is a file more, and
/// a file without a text isn't there.
pub fn files_of(
    alloc: Global,
    feed: &[SampleFile],
    changes: &[SampleFile],
) -> Result<List<FileEntry>, Memory>
    ensures { IfOk result (λ files. files ≡ files_with feed.now changes.now) }
{
    let mut files = List::new(alloc);
    for file in feed {
        if !is_named(changes, file.name) {
            push_file(alloc, &mut files, file)?;
        }
    }
    for change in changes {
        push_file(alloc, &mut files, change)?;
    }
    Ok(files)
}

fn is_named(files: &[SampleFile], name: &str) -> bool
    ensures { result ≡ has_name files.now name.now }
{
    files.iter().any(|file| file.name == name)
}

fn push_file(alloc: Global, files: &mut List<FileEntry>, file: &SampleFile) -> Result<(), Memory>
    ensures { OnOk result (files.new ≡ files.old ++ entry_of file.now) }
{
    if file.text.len() == 0 {
        return Ok(());
    }
    let name = Text::from_str(alloc, file.name)?;
    let bytes = List::from_vec(Vec::from_slice(alloc, file.text.as_bytes())?);
    files.push(FileEntry { name, bytes })
}
