ghost use Rattle.std.specs.Prelude.{◌≡◌, ◌+◌, ◌*◌, ◌<◌, ◌≤◌, ◌++◌, [], ◌∷◌, length, vec_capacity, vec_len};
ghost use Rattle.std.specs.List.{All};
ghost use Rattle.trip_patterns.specs.Rows.{IsRow, column, columns};

use crate::row::Row;
use otp_model::Time;

/// The departures of the rows, position by position, in the room that was made for them.
pub fn with_columns(written: Vec<Time>, positions: usize, rows: &[Row]) -> Vec<Time>
    requires empty { written.items ≡ [] }
    requires room { length rows.now * positions ≤ vec_capacity written }
    requires rows { All (IsRow positions) rows.now }
    ensures { result.items ≡ columns positions rows.now }
{
    let mut written = written;
    for position in 0..positions {
        put_column(&mut written, rows, position);
    }
    written
}

/// Puts the departures of the rows at one position behind those that are written.
fn put_column(written: &mut Vec<Time>, rows: &[Row], position: usize)
    requires room { vec_len written.old + length rows.now ≤ vec_capacity written.old }
    requires rows { All (λ row. position < length row.departures) rows.now }
    ensures written { written.new.items ≡ written.old.items ++ column rows.now position }
    ensures len { vec_len written.new ≡ vec_len written.old + length rows.now }
    ensures capacity { vec_capacity written.new ≡ vec_capacity written.old }
{
    for row in rows {
        let times = row.departures.as_slice();
        put_time(written, &times[position]);
    }
}

fn put_time(written: &mut Vec<Time>, time: &Time)
    requires { vec_len written.old < vec_capacity written.old }
    ensures written { written.new.items ≡ written.old.items ++ time.now ∷ [] }
    ensures len { vec_len written.new ≡ vec_len written.old + 1 }
    ensures capacity { vec_capacity written.new ≡ vec_capacity written.old }
{
    written.push_reserved(*time);
}
