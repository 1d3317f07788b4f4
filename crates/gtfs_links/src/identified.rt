ghost use Rattle.std.specs.Prelude.{◌≡◌, List, ℕ};

use otp_model::{CalendarRow, DateRow, FrequencyRow, RouteRow, StopRow, StopTimeRow, TripRow};

/// A record that bears an id, or names a record by one.
pub trait Identified {
    ghost id_of: { Self → List ℕ };

    fn id(&self) -> &str
        ensures { result.now ≡ id_of self.now };
}

impl Identified for StopRow {
    ghost id_of = { λ row. row.stop_id };

    fn id(&self) -> &str {
        self.stop_id.as_str()
    }
}

impl Identified for RouteRow {
    ghost id_of = { λ row. row.route_id };

    fn id(&self) -> &str {
        self.route_id.as_str()
    }
}

impl Identified for TripRow {
    ghost id_of = { λ row. row.trip_id };

    fn id(&self) -> &str {
        self.trip_id.as_str()
    }
}

impl Identified for StopTimeRow {
    ghost id_of = { λ row. row.trip_id };

    fn id(&self) -> &str {
        self.trip_id.as_str()
    }
}

impl Identified for CalendarRow {
    ghost id_of = { λ row. row.service_id };

    fn id(&self) -> &str {
        self.service_id.as_str()
    }
}

impl Identified for DateRow {
    ghost id_of = { λ row. row.service_id };

    fn id(&self) -> &str {
        self.service_id.as_str()
    }
}

impl Identified for FrequencyRow {
    ghost id_of = { λ row. row.trip_id };

    fn id(&self) -> &str {
        self.trip_id.as_str()
    }
}
