ghost use Rattle.std.specs.Prelude.{◌≡◌};
ghost use Rattle.otp_model.specs.FeedFaults.{IsFault};
ghost use Rattle.gtfs_links.specs.Faults.{duplicate, fault_of_row, name_of, unknown};

use otp_model::{FeedCause, FeedFault, FeedFile};
use std::alloc::Global;

/// A column of a key or of a reference.
#[derive(Clone, Copy, Debug)]
pub enum Column {
    AgencyTimezone,
    StopId,
    ParentStation,
    RouteId,
    ServiceId,
    TripId,
    StopSequence,
    Date,
    FromStopId,
    ToStopId,
    StartTime,
}

impl Column {
    fn name(self) -> &'static str
        ensures { result.now ≡ name_of self }
    {
        match self {
            Column::AgencyTimezone => "agency_timezone",
            Column::StopId => "stop_id",
            Column::ParentStation => "parent_station",
            Column::RouteId => "route_id",
            Column::ServiceId => "service_id",
            Column::TripId => "trip_id",
            Column::StopSequence => "stop_sequence",
            Column::Date => "date",
            Column::FromStopId => "from_stop_id",
            Column::ToStopId => "to_stop_id",
            Column::StartTime => "start_time",
        }
    }
}

/// What is wrong with a record, and in which column.
#[derive(Clone, Copy, Debug)]
pub struct Wrong {
    pub cause: FeedCause,
    pub column: Column,
}

impl Wrong {
    pub fn duplicate(column: Column) -> Wrong
        ensures { result ≡ duplicate column }
    {
        Wrong {
            cause: FeedCause::Duplicate,
            column,
        }
    }

    pub fn unknown(column: Column) -> Wrong
        ensures { result ≡ unknown column }
    {
        Wrong {
            cause: FeedCause::UnknownRef,
            column,
        }
    }

    /// The fault of a row of a file; the header is row 0.
    pub fn at(self, alloc: Global, file: FeedFile, row: u64) -> FeedFault
        ensures { IsFault result (fault_of_row file row self) }
    {
        FeedFault::at(alloc, self.cause, file, row, self.column.name())
    }
}
