ghost use Rattle.std.specs.Prelude.{◌≡◌, length};
ghost use Rattle.pb_wire.specs.Wire.{LiesWithin};
ghost use Rattle.rt_reader.specs.Tables.{descriptor_table, trip_table};
ghost use Rattle.rt_reader.specs.Trips.{descriptor_walked, stop_walked, descriptor_seen, descriptor_add, descriptor_blank, trip_seen, trip_add, trip_blank, update_of};

use crate::draft::Draft;
use crate::fault::MessageFault;
use crate::slots::{next_part, number, only_part, text};
use otp_base::{List, Text};
use otp_model::{StopUpdate, TripUpdate};
use pb_wire::Field;
use std::alloc::Global;

/// TripDescriptor.
#[derive(Debug, Drop)]
pub struct Descriptor {
    pub trip_id: Option<Text>,
    pub start_time: Option<Text>,
    pub start_date: Option<Text>,
    pub relation: u64,
    pub route_id: Option<Text>,
}

/// TripUpdate, with its descriptor where one was read.
#[derive(Debug, Drop)]
pub struct TripDraft {
    pub trip: Option<Descriptor>,
    pub updates: List<StopUpdate>,
}

impl TripDraft {
    pub fn into_update(self) -> TripUpdate
        ensures { result ≡ update_of self }
    {
        let TripDraft { trip, updates } = self;
        match trip {
            None => TripUpdate {
                trip_id: None,
                start_date: None,
                start_time: None,
                route_id: None,
                relation: 0,
                updates,
            },
            Some(
                Descriptor {
                    trip_id,
                    start_time,
                    start_date,
                    relation,
                    route_id,
                },
            ) => TripUpdate {
                trip_id,
                start_date,
                start_time,
                route_id,
                relation,
                updates,
            },
        }
    }
}

impl Draft for Descriptor {
    ghost table = { descriptor_table };

    ghost seen = { descriptor_seen };

    ghost add = { descriptor_add };

    ghost blank = { descriptor_blank };

    fn empty(_alloc: Global) -> Descriptor {
        Descriptor {
            trip_id: None,
            start_time: None,
            start_date: None,
            relation: 0,
            route_id: None,
        }
    }

    fn put(&mut self, alloc: Global, body: &[u8], field: &Field) -> Result<(), MessageFault> {
        match field.number {
            1 => {
                self.trip_id = Some(text(alloc, body, field)?);
                Ok(())
            }
            2 => {
                self.start_time = Some(text(alloc, body, field)?);
                Ok(())
            }
            3 => {
                self.start_date = Some(text(alloc, body, field)?);
                Ok(())
            }
            4 => {
                self.relation = number(field)?;
                Ok(())
            }
            5 => {
                self.route_id = Some(text(alloc, body, field)?);
                Ok(())
            }
            _ => Ok(()),
        }
    }
}

impl Draft for TripDraft {
    ghost table = { trip_table descriptor_walked stop_walked };

    ghost seen = { trip_seen };

    ghost add = { trip_add };

    ghost blank = { trip_blank };

    fn empty(alloc: Global) -> TripDraft {
        TripDraft {
            trip: None,
            updates: List::new(alloc),
        }
    }

    fn put(&mut self, alloc: Global, body: &[u8], field: &Field) -> Result<(), MessageFault> {
        match field.number {
            1 => {
                let again = self.trip.is_some();
                self.trip = Some(only_part::<Descriptor>(alloc, body, field, again)?);
                Ok(())
            }
            2 => {
                let update = next_part::<StopUpdate>(alloc, body, field)?;
                self.updates.push(update)?;
                Ok(())
            }
            _ => Ok(()),
        }
    }
}
