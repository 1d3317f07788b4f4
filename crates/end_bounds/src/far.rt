ghost use Rattle.std.specs.Prelude.{◌≤◌, ◌<◌, ◌≡◌, ◌+◌};
ghost use Rattle.end_bounds.specs.Scans.{far, number_at};

/// The number of what can't be reached. All other numbers are at most 2^32 - 2.
pub const FAR: u32 = u32::MAX;

/// The sum, at most 2^32 - 2; `FAR` where the first is.
pub fn plus(a: u32, b: u32) -> u32
    ensures within { a < far → result < far }
    ensures most { result ≤ a + b }
{
    if a == FAR {
        return FAR;
    }
    a.saturating_add(b).min(FAR - 1)
}

/// The number at a place of a table, `FAR` beyond it.
pub fn number_at(table: &[u32], place: usize) -> u32
    ensures { result ≡ number_at table.now place }
{
    match table.get(place) {
        Some(number) => *number,
        None => FAR,
    }
}
