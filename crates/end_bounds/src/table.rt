ghost use Rattle.std.specs.Prelude.{◌≡◌, ◌<◌, ◌+◌, ◌*◌, IfOk, length};
ghost use Rattle.end_bounds.specs.Tables.{AreOthersKept, IsBlank, IsColumn, row_of};

use crate::far::FAR;
use otp_base::Memory;
use std::alloc::Global;

/// A table in which nothing is reached.
pub fn blank(alloc: Global, rows: usize, columns: usize) -> Result<Vec<u32>, Memory>
    ensures size { IfOk result (λ table. length table.items ≡ rows * columns) }
    ensures blank { IfOk result (λ table. IsBlank table.items) }
{
    let count = rows.checked_mul(columns).ok_or(Memory)?;
    let table = vec![in alloc; FAR; count]?;
    Ok(table)
}

/// The numbers of a row, none beyond the table.
pub fn row(table: &[u32], columns: usize, number: usize) -> &[u32]
    ensures { result.now ≡ row_of columns table.now number }
{
    let from = number.saturating_mul(columns).min(table.len());
    let rest = &table[from..];
    &rest[..columns.min(rest.len())]
}

/// The numbers of a row so many behind another, none beyond the table.
pub fn row_behind(table: &[u32], columns: usize, start: usize, behind: usize) -> &[u32]
    ensures { result.now ≡ row_of columns table.now (start + behind) }
{
    if start >= table.len() {
        return &[];
    }
    if behind >= table.len() {
        return &[];
    }
    row(table, columns, start + behind)
}

/// Writes a column of a table.
pub fn write_column(table: &mut Vec<u32>, columns: usize, column: usize, numbers: &[u32])
    requires column { column < columns }
    requires size { length table.old.items ≡ length numbers.now * columns }
    ensures size { length table.new.items ≡ length table.old.items }
    ensures written { IsColumn columns table.new.items column numbers.now }
    ensures kept { AreOthersKept columns column table.old.items table.new.items }
{
    for row in 0..numbers.len() {
        table[row * columns + column] = numbers[row];
    }
}
