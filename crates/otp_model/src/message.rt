//! A GTFS Realtime message as far as trips are concerned (GTFS Realtime reference, FeedMessage).

use otp_base::{Copied, List, Memory, Text};
use std::alloc::Global;

/// StopTimeEvent: seconds of delay, and an instant in seconds since 1970-01-01 00:00 UTC.
#[derive(Clone, Copy, Debug, PartialEq, Eq)]
pub struct Event {
    pub delay: Option<i64>,
    pub time: Option<i64>,
}

/// StopTimeUpdate. A relation that is not given is 0, SCHEDULED.
#[derive(Debug, Drop)]
pub struct StopUpdate {
    pub seq: Option<u64>,
    pub stop_id: Option<Text>,
    pub relation: u64,
    pub arrival: Option<Event>,
    pub departure: Option<Event>,
}

impl Copied for StopUpdate {
    fn copy(&self, alloc: Global) -> Result<StopUpdate, Memory> {
        Ok(StopUpdate {
            seq: self.seq,
            stop_id: self.stop_id.copy(alloc)?,
            relation: self.relation,
            arrival: self.arrival,
            departure: self.departure,
        })
    }
}

/// TripUpdate with the fields of its TripDescriptor. A relation that is not given is 0, SCHEDULED.
#[derive(Debug, Drop)]
pub struct TripUpdate {
    pub trip_id: Option<Text>,
    pub start_date: Option<Text>,
    pub start_time: Option<Text>,
    pub route_id: Option<Text>,
    pub relation: u64,
    pub updates: List<StopUpdate>,
}

impl Copied for TripUpdate {
    fn copy(&self, alloc: Global) -> Result<TripUpdate, Memory> {
        Ok(TripUpdate {
            trip_id: self.trip_id.copy(alloc)?,
            start_date: self.start_date.copy(alloc)?,
            start_time: self.start_time.copy(alloc)?,
            route_id: self.route_id.copy(alloc)?,
            relation: self.relation,
            updates: self.updates.copy(alloc)?,
        })
    }
}

/// FeedEntity.
#[derive(Debug, Drop)]
pub struct Entity {
    pub deleted: bool,
    pub update: Option<TripUpdate>,
}

impl Copied for Entity {
    fn copy(&self, alloc: Global) -> Result<Entity, Memory> {
        Ok(Entity {
            deleted: self.deleted,
            update: self.update.copy(alloc)?,
        })
    }
}

/// FeedMessage with the timestamp of its header.
#[derive(Debug, Drop)]
pub struct Message {
    pub timestamp: Option<u64>,
    pub entities: List<Entity>,
}

impl Copied for Message {
    fn copy(&self, alloc: Global) -> Result<Message, Memory> {
        Ok(Message {
            timestamp: self.timestamp,
            entities: self.entities.copy(alloc)?,
        })
    }
}

/// What one commit publishes: at most one message of each real-time feed, by rising number of the feed.
#[derive(Debug, Drop)]
pub struct Commit {
    pub messages: List<(u32, Message)>,
}
