ghost use Rattle.std.specs.Prelude.{◌≡◌, ◌≢◌, ℕ, ◌+◌, ◌<◌, ◌++◌, ◌∷◌, [], ◌^◌, IfOk, OnOk, length, slice_index_or, slice_set};
ghost use Rattle.std.specs.List.{All};
ghost use Rattle.feed_load.specs.ByTrip.{IsIndexTo, rows_by};

use gtfs_links::HeadwayRow;
use otp_base::Memory;
use otp_model::{TimeRow, TripNo};
use std::alloc::Global;

/// A row of a trip.
pub trait TripRow {
    ghost trip_of: { Self → ℕ };

    fn trip(&self) -> TripNo
        ensures { result ≡ trip_of self.now };
}

impl TripRow for TimeRow {
    ghost trip_of = { λ row. row.trip };

    fn trip(&self) -> TripNo {
        self.trip
    }
}

impl TripRow for HeadwayRow {
    ghost trip_of = { λ row. row.trip };

    fn trip(&self) -> TripNo {
        self.trip
    }
}

/// Where the rows of each trip stand in a list of rows: two numbers a row and a trip, in place of a list a trip.
#[derive(Drop)]
pub struct TripIndex {
    /// For each trip one more than the place of its last row, or 0.
    last: Vec<u32>,
    /// For each row one more than the place of the row before it of the same trip, or 0.
    before: Vec<u32>,
}

impl TripIndex {
    /// The index of rows of so many trips.
    pub fn of<R: TripRow>(alloc: Global, trips: usize, rows: &[R]) -> Result<TripIndex, Memory>
        requires few { length rows.now < 2 ^ 32 }
        requires within { All (λ row. R.trip_of row < trips) rows.now }
        ensures { IfOk result (IsIndexTo R.trip_of trips rows.now (length rows.now)) }
    {
        let mut index = TripIndex::of_none(alloc, trips, rows.len())?;
        for row in rows {
            index.note(row.trip())?;
        }
        Ok(index)
    }

    /// An index without rows, with room for so many.
    fn of_none(alloc: Global, trips: usize, rows: usize) -> Result<TripIndex, Memory>
        ensures trips { IfOk result (λ index. length index.last.items ≡ trips) }
        ensures last { IfOk result (λ index. All (λ from. from ≡ 0) index.last.items) }
        ensures before { IfOk result (λ index. index.before.items ≡ []) }
    {
        let last = vec![in alloc; 0; trips]?;
        let before = Vec::with_capacity(alloc, rows)?;
        Ok(TripIndex { last, before })
    }

    /// Adds a row of a trip.
    fn note(&mut self, trip: TripNo) -> Result<(), Memory>
        requires within { trip < length self.old.last.items }
        requires few { length self.old.before.items + 1 < 2 ^ 32 }
        ensures before { OnOk result (self.new.before.items ≡ self.old.before.items ++ slice_index_or self.old.last.items trip 0 ∷ []) }
        ensures last { OnOk result (self.new.last.items ≡ slice_set self.old.last.items trip (length self.old.before.items + 1)) }
    {
        let place = self.before.len();
        self.before.push(self.last[trip as usize])?;
        self.last[trip as usize] = place as u32 + 1;
        Ok(())
    }

    /// The rows of a trip, in row order.
    pub fn rows<R: TripRow + Copy>(
        &self,
        alloc: Global,
        rows: &[R],
        trip: TripNo,
    ) -> Result<Vec<R>, Memory>
        requires index { IsIndexTo R.trip_of (length self.now.last.items) rows.now (length rows.now) self.now }
        requires trip { trip < length self.now.last.items }
        ensures { IfOk result (λ own. own.items ≡ rows_by R.trip_of rows.now trip) }
    {
        let mut own = Vec::new(alloc);
        let mut from = self.last[trip as usize] as usize;
        while from > 0 {
            own.push(rows[from - 1])?;
            from = self.before[from - 1] as usize;
        }
        own.reverse();
        Ok(own)
    }
}
