ghost use Rattle.std.specs.Prelude.{◌≡◌, ◌||◌, ◌-◌, ℕ, ◌<◌, IfOk, IsTrue, OnOk, Some, length, slice_get};
ghost use Rattle.std.specs.List.{All};
ghost use Rattle.std.specs.List.Sorted.{IsPermutation};
ghost use Rattle.feed_load.specs.Joins.{AreJoined, GoesOn, GoesOnLast};
ghost use Rattle.feed_load.specs.Starts.{IsHeadway, is_start, is_start_of};

use gtfs_links::HeadwayRow;
use otp_base::Memory;
use std::alloc::Global;

/// Rows with the same starts, of which those that are in step and touch are one: a start that many rows give isn't
/// looked at once for each of them.
pub fn join_rows(alloc: Global, mut rows: Vec<HeadwayRow>) -> Result<Vec<HeadwayRow>, Memory>
    requires { All (λ row. 0 < row.headway) rows.items }
    ensures { IfOk result (λ joined. AreJoined rows.items joined.items) }
{
    sort_by_step(&mut rows)?;
    let mut joined = Vec::new(alloc);
    for row in &rows {
        join_row(&mut joined, *row)?;
    }
    Ok(joined)
}

/// Puts those that are in step one behind the other.
fn sort_by_step(rows: &mut Vec<HeadwayRow>) -> Result<(), Memory>
    ensures { IsPermutation rows.old.items rows.new.items }
{
    rows.sort_by_key(|row| (row.headway, row.start.checked_rem(row.headway), row.start))?;
    Ok(())
}

/// Adds a row, or joins it with the last one.
fn join_row(joined: &mut Vec<HeadwayRow>, row: HeadwayRow) -> Result<(), Memory>
    requires { 0 < row.headway }
    ensures starts { OnOk result ((time : ℕ) → is_start joined.new.items time ≡ (is_start joined.old.items time || is_start_of time row)) }
    ensures some { OnOk result (0 < length joined.new.items) }
    ensures headways { OnOk result ((times : ℕ) → IsHeadway times row → All (IsHeadway times) joined.old.items → All (IsHeadway times) joined.new.items) }
{
    if !goes_on_last(joined, &row) {
        joined.push(row)?;
        return Ok(());
    }
    let last = joined.len() - 1;
    joined[last].end = joined[last].end.max(row.end);
    Ok(())
}

/// Whether a row's starts go on those of the last one.
fn goes_on_last(rows: &[HeadwayRow], row: &HeadwayRow) -> bool
    requires { 0 < row.now.headway }
    ensures { IsTrue result → GoesOnLast rows.now row.now }
{
    if rows.len() == 0 {
        return false;
    }
    goes_on(&rows[rows.len() - 1], row)
}

/// Whether a row's starts go on those of another one.
fn goes_on(one: &HeadwayRow, other: &HeadwayRow) -> bool
    requires { 0 < other.now.headway }
    ensures { IsTrue result → GoesOn one.now other.now }
{
    if one.headway != other.headway {
        return false;
    }
    if other.start < one.start || one.end < other.start {
        return false;
    }
    (other.start - one.start) % other.headway == 0
}
