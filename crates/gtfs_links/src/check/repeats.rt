ghost use Rattle.std.specs.Prelude.{◌≡◌, ◌<◌, ◌^◌, ℤ, pos, true, nat_lt, ◌<ℤ◌, IfOk, length};
ghost use Rattle.std.specs.Bool.{OnTrue};
ghost use Rattle.gtfs_links.specs.Keys.{AreApartBefore, IsFirstRepeat, is_same_key, numbers_in};

use super::keys::{Key, Keys};
use crate::identified::Identified;
use name_index::Names;
use otp_base::Memory;
use otp_model::{DateRow, FrequencyRow, StopTimeRow};
use std::alloc::Global;

/// A record whose key is the record that it names, and a sequence, day or time of it.
pub trait Keyed: Identified {
    ghost part_of: { Self → ℤ };

    fn part(&self) -> i64
        ensures { result ≡ part_of self.now };
}

impl Keyed for StopTimeRow {
    ghost part_of = { λ row. pos row.stop_sequence };

    fn part(&self) -> i64 {
        i64::from(self.stop_sequence)
    }
}

impl Keyed for DateRow {
    ghost part_of = { λ row. row.date };

    fn part(&self) -> i64 {
        i64::from(self.date)
    }
}

impl Keyed for FrequencyRow {
    ghost part_of = { λ row. pos row.start_time };

    fn part(&self) -> i64 {
        i64::from(self.start_time)
    }
}

/// Whether a number is that of one of the names.
pub fn has_number(names: &Names, number: u32) -> bool
    ensures { result ≡ nat_lt number (length names.now) }
{
    (number as usize) < names.len()
}

/// The place of the first row that has the key of an earlier one, or how many rows there are. `numbers` are
/// those of the records that the rows name.
pub fn first_repeat<R: Keyed>(
    alloc: Global,
    names: &Names,
    numbers: &[u32],
    rows: &[R],
) -> Result<usize, Memory>
    requires few { length names.now < 2 ^ 32 }
    requires numbers { numbers.now ≡ numbers_in names.now R.id_of rows.now }
    ensures { IfOk result (IsFirstRepeat (is_same_key names.now R.id_of R.part_of) rows.now) }
{
    if are_rising(alloc, names, numbers, rows)? {
        return Ok(rows.len());
    }
    first_noted(alloc, names, numbers, rows)
}

/// Whether, of the rows that name one record, each has a greater part than the one before.
fn are_rising<R: Keyed>(
    alloc: Global,
    names: &Names,
    numbers: &[u32],
    rows: &[R],
) -> Result<bool, Memory>
    requires few { length names.now < 2 ^ 32 }
    requires numbers { numbers.now ≡ numbers_in names.now R.id_of rows.now }
    ensures { IfOk result (λ rising. rising ≡ true → AreApartBefore (is_same_key names.now R.id_of R.part_of) rows.now (length rows.now)) }
{
    let mut greatest = vec![in alloc; i64::MIN; names.len() + 1]?;
    for (place, row) in rows.iter().enumerate() {
        let owner = numbers[place] as usize;
        if !is_raised(&mut greatest[owner], row) {
            return Ok(false);
        }
    }
    Ok(true)
}

/// Whether a row's part is above the greatest so far, which it then is itself.
fn is_raised<R: Keyed>(greatest: &mut i64, row: &R) -> bool
    ensures { OnTrue result ((greatest.old <ℤ R.part_of row.now) × (greatest.new ≡ R.part_of row.now)) }
{
    let part = row.part();
    if part <= *greatest {
        return false;
    }
    *greatest = part;
    true
}

/// The place of the first row whose key was noted before.
fn first_noted<R: Keyed>(
    alloc: Global,
    names: &Names,
    numbers: &[u32],
    rows: &[R],
) -> Result<usize, Memory>
    requires { numbers.now ≡ numbers_in names.now R.id_of rows.now }
    ensures { IfOk result (IsFirstRepeat (is_same_key names.now R.id_of R.part_of) rows.now) }
{
    let mut keys = Keys::new(alloc);
    for (place, row) in rows.iter().enumerate() {
        if keys.note(key_of(numbers[place], row))? {
            return Ok(place);
        }
    }
    Ok(rows.len())
}

fn key_of<R: Keyed>(owner: u32, row: &R) -> Key
    ensures { result ≡ record { owner = owner; part = R.part_of row.now } }
{
    Key {
        owner,
        part: row.part(),
    }
}
