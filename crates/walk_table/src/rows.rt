ghost use Rattle.std.specs.Prelude.{◌≡◌, ◌↔◌, IsTrue, IfOk, Some};
ghost use Rattle.std.specs.List.{Any, Contains};
ghost use Rattle.otp_base.specs.Adds.{FromSome, IsOnly};
ghost use Rattle.walk_table.specs.Edges.{IsGreatest, IsMeant, IsStationAt};
ghost use Rattle.walk_table.specs.Rows.{Arrives, BarsWayTo, IsLeaving, IsMinimum};

use crate::ground::Numbered;
use otp_base::{Memory, push_some};
use otp_model::{Stop, StopNo, TransferRow};
use std::alloc::Global;

/// The rows that may hold for ways from a stop.
pub fn rows_from(
    alloc: Global,
    stops: &[Stop],
    transfers: &[TransferRow],
    from: &Numbered,
) -> Result<Vec<TransferRow>, Memory>
    ensures { IfOk result (λ rows. (row : _) → Contains rows.items row ↔ FromSome (IsLeaving stops.now from.now.number from.now.stop.now) transfers.now row) }
{
    let mut rows = Vec::new(alloc);
    for row in transfers {
        push_some(&mut rows, leaving(stops, from, row))?;
    }
    Ok(rows)
}

/// The row, if it may hold for ways from the stop.
fn leaving(stops: &[Stop], at: &Numbered, row: &TransferRow) -> Option<TransferRow>
    ensures { IsOnly (IsLeaving stops.now at.now.number at.now.stop.now row.now) result }
{
    if row.narrow || row.is_in_seat() {
        return None;
    }
    if !is_meant(stops, row.from, at) {
        return None;
    }
    Some(*row)
}

/// Whether one of the rows leads to the stop.
pub fn is_named(stops: &[Stop], rows: &[TransferRow], at: &Numbered) -> bool
    ensures { IsTrue result ↔ Any (Arrives stops.now at.now.number at.now.stop.now) rows.now }
{
    rows.iter().any(|row| arrives(stops, at, row))
}

fn arrives(stops: &[Stop], at: &Numbered, row: &TransferRow) -> bool
    ensures { IsTrue result ↔ Arrives stops.now at.now.number at.now.stop.now row.now }
{
    is_meant(stops, row.to, at)
}

/// Whether one of the rows takes the edge to the stop away.
pub fn is_barred(stops: &[Stop], rows: &[TransferRow], at: &Numbered) -> bool
    ensures { IsTrue result ↔ Any (BarsWayTo stops.now at.now.number at.now.stop.now) rows.now }
{
    rows.iter().any(|row| bars(stops, at, row))
}

fn bars(stops: &[Stop], at: &Numbered, row: &TransferRow) -> bool
    ensures { IsTrue result ↔ BarsWayTo stops.now at.now.number at.now.stop.now row.now }
{
    row.bars() && arrives(stops, at, row)
}

/// The greatest of the least times of the rows that lead to the stop, 0 where there is none.
pub fn greatest_minimum(stops: &[Stop], rows: &[TransferRow], at: &Numbered) -> u32
    ensures { IsGreatest (FromSome (IsMinimum stops.now at.now.number at.now.stop.now) rows.now) result }
{
    let mut greatest: u32 = 0;
    for row in rows {
        greatest = greatest.max(minimum_to(stops, at, row));
    }
    greatest
}

/// The least time of a row, if it leads to the stop, else 0.
fn minimum_to(stops: &[Stop], at: &Numbered, row: &TransferRow) -> u32
    ensures { IsGreatest (IsMinimum stops.now at.now.number at.now.stop.now row.now) result }
{
    if !arrives(stops, at, row) {
        return 0;
    }
    if row.has_minimum() { row.minimum } else { 0 }
}

/// Whether a row means the stop with the number by a stop that it names.
pub fn is_meant(stops: &[Stop], side: Option<StopNo>, at: &Numbered) -> bool
    ensures { IsTrue result ↔ IsMeant stops.now side at.now.number at.now.stop.now }
{
    let Some(named) = side else {
        return false;
    };
    if !at.stop.is_platform() {
        return false;
    }
    if named == at.number {
        return true;
    }
    match at.stop.parent {
        Some(parent) if parent == named => is_station(stops, named),
        _ => false,
    }
}

fn is_station(stops: &[Stop], number: StopNo) -> bool
    ensures { IsTrue result ↔ IsStationAt stops.now number }
{
    match stops.get(number as usize) {
        Some(stop) => stop.is_station(),
        None => false,
    }
}
