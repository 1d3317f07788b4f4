//! The types of a timetable, of journeys and of messages, and in `specs/` what they mean: which
//! journeys a schedule has, what each is worth, which of them are best and what a page of them is.
#![tactic(auto)]

mod change;
mod clock;
mod day;
mod feed_fault;
mod journey;
mod laws;
mod links;
mod message;
mod options;
mod run_name;
mod tables;
mod timetable;
mod value;

pub use change::Change;
pub use clock::parse_clock;
pub use day::parse_day;
pub use feed_fault::{FeedCause, FeedFault, FeedFile};
pub use journey::{Cursor, Found, Journey, Leg, Page, Place, Request, Value};
pub use laws::{one_history, pages_join};
pub use links::{TimeRow, TransferRow};
pub use message::{Commit, Entity, Event, Message, StopUpdate, TripUpdate};
pub use options::Options;
pub use run_name::{RunName, TripName};
pub use tables::{
    AgencyRow, CalendarRow, DateRow, FrequencyRow, RouteRow, StopRow, StopTimeRow, Tables,
    TransferLine, TripRow,
};
pub use timetable::{
    Call, DayNo, Edge, Edges, Feed, Point, Profile, Run, Stop, StopNo, Time, Trip, TripNo, Zone,
};
pub use value::value_of;
