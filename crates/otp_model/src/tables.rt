//! The records of a feed's files: one field for each column that is read, by its name in the GTFS
//! Schedule reference. Ids and texts are empty where none is given; all numbers without a unit are the
//! codes of the reference.
use crate::timetable::DayNo;
use otp_base::{List, Text};

/// A record of `agency.txt`.
#[derive(Debug, Drop)]
pub struct AgencyRow {
    pub agency_timezone: Text,
}

/// A record of `stops.txt`, with its place in millionths of a degree (WGS 84).
#[derive(Debug, Drop)]
pub struct StopRow {
    pub stop_id: Text,
    pub stop_name: Text,
    pub stop_lat: i64,
    pub stop_lon: i64,
    pub location_type: u32,
    pub parent_station: Text,
}

/// A record of `routes.txt`.
#[derive(Debug, Drop)]
pub struct RouteRow {
    pub route_id: Text,
}

/// A record of `trips.txt`.
#[derive(Debug, Drop)]
pub struct TripRow {
    pub route_id: Text,
    pub service_id: Text,
    pub trip_id: Text,
}

/// A record of `stop_times.txt`, with its times in seconds from noon less 12 hours of the service day.
#[derive(Debug, Drop)]
pub struct StopTimeRow {
    pub trip_id: Text,
    pub arrival_time: Option<u32>,
    pub departure_time: Option<u32>,
    pub stop_id: Text,
    pub stop_sequence: u32,
    pub pickup_type: u32,
    pub drop_off_type: u32,
}

/// A record of `calendar.txt`.
#[derive(Debug, Drop)]
pub struct CalendarRow {
    pub service_id: Text,
    pub monday: u32,
    pub tuesday: u32,
    pub wednesday: u32,
    pub thursday: u32,
    pub friday: u32,
    pub saturday: u32,
    pub sunday: u32,
    pub start_date: DayNo,
    pub end_date: DayNo,
}

/// A record of `calendar_dates.txt`.
#[derive(Debug, Drop)]
pub struct DateRow {
    pub service_id: Text,
    pub date: DayNo,
    pub exception_type: u32,
}

/// A record of `transfers.txt`, with its least time in seconds.
#[derive(Debug, Drop)]
pub struct TransferLine {
    pub from_stop_id: Text,
    pub to_stop_id: Text,
    pub transfer_type: u32,
    pub min_transfer_time: u32,
    pub from_route_id: Text,
    pub to_route_id: Text,
    pub from_trip_id: Text,
    pub to_trip_id: Text,
}

/// A record of `frequencies.txt`, with its times in seconds from noon less 12 hours of the service day.
#[derive(Debug, Drop)]
pub struct FrequencyRow {
    pub trip_id: Text,
    pub start_time: u32,
    pub end_time: u32,
    pub headway_secs: u32,
    pub exact_times: u32,
}

/// The records of a feed's files, each list in row order; that of a missing file is empty.
#[derive(Debug, Drop)]
pub struct Tables {
    pub agencies: List<AgencyRow>,
    pub stops: List<StopRow>,
    pub routes: List<RouteRow>,
    pub trips: List<TripRow>,
    pub stop_times: List<StopTimeRow>,
    pub calendars: List<CalendarRow>,
    pub dates: List<DateRow>,
    pub transfers: List<TransferLine>,
    pub frequencies: List<FrequencyRow>,
}
