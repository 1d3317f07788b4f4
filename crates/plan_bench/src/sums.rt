use otp_model::Found;

/// How many journeys there are, their rides, and what they cost.
#[derive(Clone, Copy)]
pub struct Sums {
    pub journeys: u64,
    pub rides: u64,
    pub cost: u64,
}

impl Sums {
    pub const NONE: Sums = Sums {
        journeys: 0,
        rides: 0,
        cost: 0,
    };

    /// With the journeys of a list, as far as numbers go.
    pub fn with(&self, list: &[Found]) -> Sums {
        let mut sums = *self;
        for found in list {
            sums = sums.with_one(found);
        }
        sums
    }

    fn with_one(&self, found: &Found) -> Sums {
        Sums {
            journeys: self.journeys.saturating_add(1),
            rides: self.rides.saturating_add(u64::from(found.value.rides)),
            cost: self.cost.saturating_add(found.value.cost),
        }
    }
}
