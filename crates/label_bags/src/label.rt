ghost use Rattle.std.specs.Prelude.{◌≡◌, ◌↔◌, IsTrue};
ghost use Rattle.label_bags.specs.Bags.{Covers, stays_beside as is_beside};

use otp_model::Time;

/// When something is reached, at what penalty, and a number of the caller's.
#[derive(Clone, Copy, Debug, PartialEq, Eq)]
pub struct Label {
    pub time: Time,
    pub penalty: i64,
    pub number: usize,
}

impl Label {
    /// Whether it comes no later than this time, at no greater a penalty.
    pub fn covers(&self, time: Time, penalty: i64) -> bool
        ensures { IsTrue result ↔ Covers self.now time penalty }
    {
        self.time <= time && self.penalty <= penalty
    }

    /// Whether it stays in a bag that another label comes into, which doesn't cover it.
    pub(crate) fn stays_beside(&self, label: &Label) -> bool
        ensures { result ≡ is_beside label.now self.now }
    {
        !(label.time <= self.time && label.penalty <= self.penalty)
    }
}
