ghost use Rattle.std.specs.Prelude.{◌≡◌, length};
ghost use Rattle.pb_wire.specs.Wire.{LiesWithin};
ghost use Rattle.rt_reader.specs.Tables.{entity_table, header_table, feed_table};
ghost use Rattle.rt_reader.specs.Feeds.{trip_walked, header_walked, entity_walked, entity_seen, entity_add, entity_blank, header_seen, header_add, header_blank, feed_seen, feed_add, feed_blank};

use crate::draft::Draft;
use crate::fault::MessageFault;
use crate::slots::{next_part, number, only_part};
use crate::trip::TripDraft;
use otp_base::List;
use otp_model::Entity;
use pb_wire::Field;
use std::alloc::Global;

/// FeedHeader.
#[derive(Clone, Copy, Debug, PartialEq, Eq)]
pub struct Header {
    pub incrementality: Option<u64>,
    pub timestamp: Option<u64>,
}

/// FeedMessage, with its header where one was read.
#[derive(Debug, Drop)]
pub struct Feed {
    pub header: Option<Header>,
    pub entities: List<Entity>,
}

impl Draft for Header {
    ghost table = { header_table };

    ghost seen = { header_seen };

    ghost add = { header_add };

    ghost blank = { header_blank };

    fn empty(_alloc: Global) -> Header {
        Header {
            incrementality: None,
            timestamp: None,
        }
    }

    fn put(&mut self, _alloc: Global, _body: &[u8], field: &Field) -> Result<(), MessageFault> {
        match field.number {
            2 => {
                self.incrementality = Some(number(field)?);
                Ok(())
            }
            3 => {
                self.timestamp = Some(number(field)?);
                Ok(())
            }
            _ => Ok(()),
        }
    }
}

impl Draft for Entity {
    ghost table = { entity_table trip_walked };

    ghost seen = { entity_seen };

    ghost add = { entity_add };

    ghost blank = { entity_blank };

    fn empty(_alloc: Global) -> Entity {
        Entity {
            deleted: false,
            update: None,
        }
    }

    fn put(&mut self, alloc: Global, body: &[u8], field: &Field) -> Result<(), MessageFault> {
        match field.number {
            2 => {
                let flag = number(field)?;
                self.deleted = flag != 0;
                Ok(())
            }
            3 => {
                let again = self.update.is_some();
                let draft = only_part::<TripDraft>(alloc, body, field, again)?;
                self.update = Some(draft.into_update());
                Ok(())
            }
            _ => Ok(()),
        }
    }
}

impl Draft for Feed {
    ghost table = { feed_table header_walked entity_walked };

    ghost seen = { feed_seen };

    ghost add = { feed_add };

    ghost blank = { feed_blank };

    fn empty(alloc: Global) -> Feed {
        Feed {
            header: None,
            entities: List::new(alloc),
        }
    }

    fn put(&mut self, alloc: Global, body: &[u8], field: &Field) -> Result<(), MessageFault> {
        match field.number {
            1 => {
                let again = self.header.is_some();
                self.header = Some(only_part::<Header>(alloc, body, field, again)?);
                Ok(())
            }
            2 => {
                let entity = next_part::<Entity>(alloc, body, field)?;
                self.entities.push(entity)?;
                Ok(())
            }
            _ => Ok(()),
        }
    }
}
