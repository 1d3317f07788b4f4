ghost use Rattle.std.specs.Prelude.{◌≡◌, [], IfOk, OnOk};
ghost use Rattle.std.specs.List.{list_any};
ghost use Rattle.gtfs_links.specs.Keys.{is_key, with_key};

use indexmap::IndexSet;
use otp_base::Memory;
use std::alloc::Global;
use std::marker::Model;

/// A key of two parts: the number of a trip or service, and a sequence, day or time of it.
#[derive(Clone, Copy, Debug, PartialEq, Eq, Hash)]
pub struct Key {
    pub owner: u32,
    pub part: i64,
}

/// Keys, each once.
#[derive(Drop)]
pub struct Keys {
    set: IndexSet<Key>,
}

impl Model for Keys {
    ghost use Rattle.std.specs.Prelude.{List};
    ghost use Rattle.gtfs_links.specs.declared.check.keys.Key.{Key as KeyValue};

    ghost Value = { List KeyValue };

    ghost view = { λ keys. keys.set.keys };
}

impl Keys {
    pub fn new(alloc: Global) -> Keys
        ensures { result ≡ [] }
    {
        Keys {
            set: IndexSet::new(alloc),
        }
    }

    /// Adds a key, and tells whether it was there.
    pub fn note(&mut self, key: Key) -> Result<bool, Memory>
        ensures had { IfOk result (λ had. had ≡ list_any (is_key key) self.old) }
        ensures keys { OnOk result (self.new ≡ with_key self.old key) }
    {
        let (_, added) = self.set.insert_full(key)?;
        Ok(!added)
    }
}
