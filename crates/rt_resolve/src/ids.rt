ghost use Rattle.std.specs.Prelude.{◌≡◌, ◌≤◌, [], OnOk, length};
ghost use Rattle.otp_model.specs.Sights.{noted, place_of};

use indexmap::IndexSet;
use otp_base::Memory;
use std::alloc::Global;
use std::marker::Model;

/// Texts, each once, in the order in which they were noted, with an index to find them by. It owns them.
#[derive(Drop)]
pub struct Ids {
    set: IndexSet<String>,
}

impl Model for Ids {
    ghost use Rattle.std.specs.Prelude.{List, ℕ, map, string_bytes};

    ghost Value = { List (List ℕ) };

    ghost view = { λ ids. map string_bytes ids.set.keys };
}

impl Ids {
    pub fn new(alloc: Global) -> Ids
        ensures { result ≡ [] }
    {
        Ids {
            set: IndexSet::new(alloc),
        }
    }

    /// Adds a text at the end, if it isn't there.
    pub fn note(&mut self, alloc: Global, id: &str) -> Result<(), Memory>
        ensures { OnOk result (self.new ≡ noted self.old id.now) }
    {
        self.set.insert_full(String::from_str(alloc, id)?)?;
        Ok(())
    }

    /// How many texts stand before this one.
    pub fn place(&self, id: &str) -> usize
        ensures place { result ≡ place_of self.now id.now }
        ensures within { result ≤ length self.now }
    {
        match self.set.get_index_of(id) {
            Some(place) => place,
            None => self.set.len(),
        }
    }
}
