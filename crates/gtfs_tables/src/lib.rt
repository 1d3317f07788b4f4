//! The files of a timetable feed, read from a folder (GTFS Schedule reference).
//!
//! `read_tables` reads the nine files of a feed into lists of records, or gives the first fault.
#![tactic(auto)]

mod agency;
mod calendar;
mod calendar_dates;
mod day_cell;
mod feed;
mod feed_file;
mod frequencies;
mod routes;
mod stop_times;
mod stops;
mod table;
mod transfers;
mod trips;

pub use feed::read_tables;
pub use otp_model::{
    AgencyRow, CalendarRow, DateRow, FeedFault, FrequencyRow, RouteRow, StopRow, StopTimeRow,
    Tables, TransferLine, TripRow,
};
