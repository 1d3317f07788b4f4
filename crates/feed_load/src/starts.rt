ghost use Rattle.std.specs.Prelude.{◌≡◌, ◌↔◌, ◌||◌, ℕ, ◌+◌, ◌*◌, ◌<◌, ◌≤◌, IfOk, OnOk, length};
ghost use Rattle.std.specs.List.{All};
ghost use Rattle.otp_model.specs.Limits.{clock_end};
ghost use Rattle.feed_load.specs.Marks.{AreListed, AreMarks, is_marked, marked_count, times_of};
ghost use Rattle.feed_load.specs.Starts.{IsHeadway, is_start_of, starts_in};

use crate::marks::Marks;
use gtfs_links::HeadwayRow;
use otp_base::Memory;
use std::alloc::Global;

/// The latest end of the rows, or 0.
pub fn latest_end(rows: &[HeadwayRow]) -> u32
    ensures all { All (λ row. row.end ≤ result) rows.now }
    ensures least { (limit : ℕ) → All (λ row. row.end ≤ limit) rows.now → result ≤ limit }
{
    let mut latest: u32 = 0;
    for row in rows {
        latest = latest.max(row.end);
    }
    latest
}

/// How many starts the rows give, each counted once.
pub fn count_starts(marks: &mut Marks, rows: &[HeadwayRow]) -> u32
    requires marks { AreMarks marks.old }
    requires clock { times_of marks.old ≤ clock_end }
    requires rows { All (IsHeadway (times_of marks.old)) rows.now }
    ensures marks { AreMarks marks.new }
    ensures times { times_of marks.new ≡ times_of marks.old }
    ensures count { result ≡ length (starts_in rows.now) }
{
    marks.clear();
    let mut count = 0;
    for row in rows {
        count += mark_starts(marks, row);
    }
    count
}

/// Marks the starts of a row; how many of them weren't marked.
fn mark_starts(marks: &mut Marks, row: &HeadwayRow) -> u32
    requires marks { AreMarks marks.old }
    requires clock { times_of marks.old ≤ clock_end }
    requires row { IsHeadway (times_of marks.old) row.now }
    ensures marks { AreMarks marks.new }
    ensures times { times_of marks.new ≡ times_of marks.old }
    ensures marked { (time : ℕ) → is_marked marks.new time ≡ (is_start_of time row.now || is_marked marks.old time) }
    ensures count { marked_count marks.new ≡ marked_count marks.old + result }
{
    let mut count = 0;
    for turn in 0..turns(row) {
        if marks.mark(row.start + turn * row.headway) {
            count += 1;
        }
    }
    count
}

/// How many starts a row has.
fn turns(row: &HeadwayRow) -> u32
    requires { 0 < row.now.headway }
    ensures { (turn : ℕ) → turn < result ↔ (row.now.start + turn * row.now.headway < row.now.end) }
{
    row.end.saturating_sub(row.start).div_ceil(row.headway)
}

/// The starts that the rows give, rising and each once.
pub fn list_starts(
    alloc: Global,
    marks: &mut Marks,
    rows: &[HeadwayRow],
) -> Result<Vec<u32>, Memory>
    requires marks { AreMarks marks.old }
    requires clock { times_of marks.old ≤ clock_end }
    requires rows { All (IsHeadway (times_of marks.old)) rows.now }
    ensures marks { AreMarks marks.new }
    ensures times { times_of marks.new ≡ times_of marks.old }
    ensures starts { IfOk result (λ starts. starts.items ≡ starts_in rows.now) }
{
    marks.clear();
    let mut starts = Vec::new(alloc);
    for row in rows {
        add_starts(&mut starts, marks, row)?;
    }
    starts.sort()?;
    Ok(starts)
}

/// Marks the starts of a row, and adds those that weren't marked.
fn add_starts(starts: &mut Vec<u32>, marks: &mut Marks, row: &HeadwayRow) -> Result<(), Memory>
    requires marks { AreMarks marks.old }
    requires clock { times_of marks.old ≤ clock_end }
    requires row { IsHeadway (times_of marks.old) row.now }
    requires listed { AreListed marks.old starts.old.items }
    ensures marks { AreMarks marks.new }
    ensures times { times_of marks.new ≡ times_of marks.old }
    ensures marked { OnOk result ((time : ℕ) → is_marked marks.new time ≡ (is_start_of time row.now || is_marked marks.old time)) }
    ensures listed { OnOk result (AreListed marks.new starts.new.items) }
{
    for turn in 0..turns(row) {
        let start = row.start + turn * row.headway;
        if marks.mark(start) {
            starts.push(start)?;
        }
    }
    Ok(())
}
