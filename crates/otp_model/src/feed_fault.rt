ghost use Rattle.std.specs.Prelude.{◌≡◌};
ghost use Rattle.otp_model.specs.FeedFaults.{IsFault, cause_number, fault_at, file_name, file_number};

use otp_base::{Memory, Text};
use std::alloc::Global;
use thiserror::Error;

/// Why a feed is refused. The numbers 6 and 12 stand for no cause.
#[derive(Clone, Copy, Debug, PartialEq, Eq)]
pub enum FeedCause {
    /// A file that must be there is not.
    MissingFile,
    /// The header lacks a column that must be there.
    MissingColumn,
    /// A field is no text.
    NotUtf8,
    /// A field is not of its form.
    BadField,
    /// A file has too many bytes.
    TooLarge,
    /// A record has the key of an earlier one of its file.
    Duplicate,
    /// A record names one that is not there.
    UnknownRef,
    /// An agency is in another time zone.
    ZonesDiffer,
    /// The first or the last call of a trip has no time.
    NoTimes,
    /// A call of a trip has a time below the one before it.
    TimesFall,
    /// There are too many stops, trips, calls or edges.
    TooMany,
}

impl FeedCause {
    /// The number by which it is told.
    pub fn number(self) -> u8
        ensures { result ≡ cause_number self }
    {
        match self {
            FeedCause::MissingFile => 1,
            FeedCause::MissingColumn => 2,
            FeedCause::NotUtf8 => 3,
            FeedCause::BadField => 4,
            FeedCause::TooLarge => 5,
            FeedCause::Duplicate => 7,
            FeedCause::UnknownRef => 8,
            FeedCause::ZonesDiffer => 9,
            FeedCause::NoTimes => 10,
            FeedCause::TimesFall => 11,
            FeedCause::TooMany => 13,
        }
    }
}

/// The files of a feed that are read, in their order (GTFS Schedule reference, "Dataset Files").
#[derive(Clone, Copy, Debug, PartialEq, Eq)]
pub enum FeedFile {
    Agency,
    Stops,
    Routes,
    Trips,
    StopTimes,
    Calendar,
    CalendarDates,
    Transfers,
    Frequencies,
}

impl FeedFile {
    /// Its number, from 1 on.
    pub fn number(self) -> u8
        ensures { result ≡ file_number self }
    {
        match self {
            FeedFile::Agency => 1,
            FeedFile::Stops => 2,
            FeedFile::Routes => 3,
            FeedFile::Trips => 4,
            FeedFile::StopTimes => 5,
            FeedFile::Calendar => 6,
            FeedFile::CalendarDates => 7,
            FeedFile::Transfers => 8,
            FeedFile::Frequencies => 9,
        }
    }

    /// Its name in the folder.
    pub fn name(self) -> &'static str
        ensures { result.now ≡ file_name self }
    {
        match self {
            FeedFile::Agency => "agency.txt",
            FeedFile::Stops => "stops.txt",
            FeedFile::Routes => "routes.txt",
            FeedFile::Trips => "trips.txt",
            FeedFile::StopTimes => "stop_times.txt",
            FeedFile::Calendar => "calendar.txt",
            FeedFile::CalendarDates => "calendar_dates.txt",
            FeedFile::Transfers => "transfers.txt",
            FeedFile::Frequencies => "frequencies.txt",
        }
    }
}

/// Why a feed was not read.
#[derive(Debug, Drop, Error)]
pub enum FeedFault {
    /// The first fault of the feed: the number of its cause, that of its file, its row and its column. The
    /// header is row 0, the first record row 1; a fault of a whole file has row 0 and an empty column.
    #[error("cause {cause} in file {file}, row {row}, column `{}`", .column.as_str())]
    At {
        cause: u8,
        file: u8,
        row: u64,
        column: Text,
    },
    /// A read failed, and the folder counted it.
    #[error("a read failed")]
    Read,
    /// Memory ran out.
    #[error("memory ran out")]
    Memory,
}

impl From<Memory> for FeedFault {
    ghost use Rattle.otp_model.specs.declared.feed_fault.FeedFault.TheVariants as fault;

    ghost from_gives = { λ _ e. e ≡ fault.Memory };

    fn from(_error: Memory) -> FeedFault {
        FeedFault::Memory
    }
}

impl FeedFault {
    /// The fault of a row of a file in the column of this name, or `Memory`.
    pub fn at(alloc: Global, cause: FeedCause, file: FeedFile, row: u64, column: &str) -> FeedFault
        ensures { IsFault result (fault_at cause file row column.now) }
    {
        match Text::from_str(alloc, column) {
            Ok(column) => FeedFault::At {
                cause: cause.number(),
                file: file.number(),
                row,
                column,
            },
            Err(_) => FeedFault::Memory,
        }
    }
}
