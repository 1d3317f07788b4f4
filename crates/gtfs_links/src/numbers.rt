ghost use Rattle.std.specs.Prelude.{◌≡◌, ◌<◌, ◌^◌, IfOk, length};
ghost use Rattle.otp_model.specs.Sights.{place_of};
ghost use Rattle.gtfs_links.specs.Index.{AreFew, stop_of_time};
ghost use Rattle.gtfs_links.specs.Keys.{numbers_in};
ghost use Rattle.gtfs_links.specs.Numbers.{AreNumbered};

use crate::identified::Identified;
use crate::indexes::Indexes;
use name_index::Names;
use otp_base::{List, Memory};
use otp_model::{StopTimeRow, Tables};
use std::alloc::Global;

/// What the rows of the files name, by number and in row order. The number of an id that isn't there is how
/// many there are.
#[derive(Drop)]
pub struct Numbers {
    /// The trips of `stop_times.txt`.
    pub trips: List<u32>,
    /// The stops of `stop_times.txt`.
    pub stops: List<u32>,
    /// The services of `calendar_dates.txt`.
    pub services: List<u32>,
    /// The trips of `frequencies.txt`.
    pub frequencies: List<u32>,
}

impl Numbers {
    pub fn of(alloc: Global, tables: &Tables, indexes: &Indexes) -> Result<Numbers, Memory>
        requires { AreFew indexes.now }
        ensures { IfOk result (AreNumbered tables.now indexes.now) }
    {
        let times = tables.stop_times.as_slice();
        Ok(Numbers {
            trips: numbers_of(alloc, &indexes.trips, times)?,
            stops: stop_numbers(alloc, &indexes.stops, times)?,
            services: numbers_of(alloc, &indexes.services, tables.dates.as_slice())?,
            frequencies: numbers_of(alloc, &indexes.trips, tables.frequencies.as_slice())?,
        })
    }
}

/// The numbers of the records that the rows name.
fn numbers_of<R: Identified>(alloc: Global, names: &Names, rows: &[R]) -> Result<List<u32>, Memory>
    requires { length names.now < 2 ^ 32 }
    ensures { IfOk result (λ numbers. numbers ≡ numbers_in names.now R.id_of rows.now) }
{
    let mut numbers = Vec::with_capacity(alloc, rows.len())?;
    let mut last = "";
    let mut place = names.place(last);
    for row in rows {
        let id = row.id();
        place = place_beside(names, last, place, id);
        numbers.push(place as u32)?;
        last = id;
    }
    Ok(List::from_vec(numbers))
}

/// The place of a name, where that of another is known: rows that name one record mostly stand together.
fn place_beside(names: &Names, last: &str, place: usize, name: &str) -> usize
    requires { place ≡ place_of names.now last.now }
    ensures { result ≡ place_of names.now name.now }
{
    if name == last {
        return place;
    }
    names.place(name)
}

/// The numbers of the stops that the calls name.
fn stop_numbers(alloc: Global, stops: &Names, rows: &[StopTimeRow]) -> Result<List<u32>, Memory>
    requires { length stops.now < 2 ^ 32 }
    ensures { IfOk result (λ numbers. numbers ≡ numbers_in stops.now stop_of_time rows.now) }
{
    let mut numbers = Vec::with_capacity(alloc, rows.len())?;
    for row in rows {
        numbers.push(stops.place(row.stop_id.as_str()) as u32)?;
    }
    Ok(List::from_vec(numbers))
}
