ghost use Rattle.std.specs.Prelude.{◌≡◌, length};
ghost use Rattle.pb_wire.specs.Wire.{LiesWithin};
ghost use Rattle.rt_reader.specs.Tables.{event_table, stop_table};
ghost use Rattle.rt_reader.specs.Events.{event_walked, event_seen, event_add, event_blank, stop_seen, stop_add, stop_blank};

use crate::draft::Draft;
use crate::fault::MessageFault;
use crate::slots::{number, only_part, text};
use otp_model::{Event, StopUpdate};
use pb_wire::Field;
use std::alloc::Global;

impl Draft for Event {
    ghost table = { event_table };

    ghost seen = { event_seen };

    ghost add = { event_add };

    ghost blank = { event_blank };

    fn empty(_alloc: Global) -> Event {
        Event {
            delay: None,
            time: None,
        }
    }

    fn put(&mut self, _alloc: Global, _body: &[u8], field: &Field) -> Result<(), MessageFault> {
        match field.number {
            1 => {
                self.delay = Some(number(field)?.cast_signed());
                Ok(())
            }
            2 => {
                self.time = Some(number(field)?.cast_signed());
                Ok(())
            }
            _ => Ok(()),
        }
    }
}

impl Draft for StopUpdate {
    ghost table = { stop_table event_walked };

    ghost seen = { stop_seen };

    ghost add = { stop_add };

    ghost blank = { stop_blank };

    fn empty(_alloc: Global) -> StopUpdate {
        StopUpdate {
            seq: None,
            stop_id: None,
            relation: 0,
            arrival: None,
            departure: None,
        }
    }

    fn put(&mut self, alloc: Global, body: &[u8], field: &Field) -> Result<(), MessageFault> {
        match field.number {
            1 => {
                self.seq = Some(number(field)?);
                Ok(())
            }
            2 => {
                let again = self.arrival.is_some();
                self.arrival = Some(only_part::<Event>(alloc, body, field, again)?);
                Ok(())
            }
            3 => {
                let again = self.departure.is_some();
                self.departure = Some(only_part::<Event>(alloc, body, field, again)?);
                Ok(())
            }
            4 => {
                self.stop_id = Some(text(alloc, body, field)?);
                Ok(())
            }
            5 => {
                self.relation = number(field)?;
                Ok(())
            }
            _ => Ok(()),
        }
    }
}
