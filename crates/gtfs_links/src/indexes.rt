ghost use Rattle.std.specs.Prelude.{◌≡◌, ℕ, List, ◌++◌, IfOk, OnOk, map};
ghost use Rattle.otp_model.specs.Sights.{first_sights};
ghost use Rattle.gtfs_links.specs.Index.{AreIndexes};

use crate::identified::Identified;
use name_index::Names;
use otp_base::Memory;
use otp_model::Tables;
use std::alloc::Global;

/// The ids of a feed's stops, routes, trips and services, each by its number.
#[derive(Drop)]
pub struct Indexes<'a> {
    pub stops: Names<'a>,
    pub routes: Names<'a>,
    pub trips: Names<'a>,
    pub services: Names<'a>,
}

impl<'a> Indexes<'a> {
    /// The services are those of `calendar.txt` and then those of `calendar_dates.txt`.
    pub fn of(alloc: Global, tables: &'a Tables) -> Result<Indexes<'a>, Memory>
        ensures { IfOk result (AreIndexes tables.now) }
    {
        let mut stops = Names::new(alloc);
        note_ids(&mut stops, tables.stops.as_slice())?;
        let mut routes = Names::new(alloc);
        note_ids(&mut routes, tables.routes.as_slice())?;
        let mut trips = Names::new(alloc);
        note_ids(&mut trips, tables.trips.as_slice())?;
        let mut services = Names::new(alloc);
        note_ids(&mut services, tables.calendars.as_slice())?;
        note_ids(&mut services, tables.dates.as_slice())?;
        Ok(Indexes {
            stops,
            routes,
            trips,
            services,
        })
    }
}

/// Notes the ids of a file's rows, after those that were noted before.
fn note_ids<'a, R: Identified>(names: &mut Names<'a>, rows: &'a [R]) -> Result<(), Memory>
    ensures { OnOk result ((before : List (List ℕ)) → names.old ≡ first_sights before → names.new ≡ first_sights (before ++ map R.id_of rows.now)) }
{
    for row in rows {
        names.note(row.id())?;
    }
    Ok(())
}
