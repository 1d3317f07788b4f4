ghost use Rattle.std.specs.Prelude.{◌≡◌, ◌≤◌, [], IfOk, OnOk, length, option_map, slice_get};
ghost use Rattle.otp_model.specs.Sights.{has_name, noted, place_of};

use indexmap::IndexSet;
use otp_base::Memory;
use std::alloc::Global;
use std::marker::Model;

/// Names, each once, in the order in which they were noted, with an index to find them by.
#[derive(Drop)]
pub struct Names<'a> {
    set: IndexSet<&'a str>,
}

impl<'a> Model for Names<'a> {
    ghost use Rattle.std.specs.Prelude.{List, ℕ};
    ghost use Rattle.name_index.specs.Keys.{texts_of};

    ghost Value = { List (List ℕ) };

    ghost view = { λ names. texts_of names.set.keys };
}

impl<'a> Names<'a> {
    pub fn new(alloc: Global) -> Names<'a>
        ensures { result ≡ [] }
    {
        Names {
            set: IndexSet::new(alloc),
        }
    }

    /// Adds a name at the end, if it isn't there.
    pub fn note(&mut self, name: &'a str) -> Result<(), Memory>
        ensures { OnOk result (self.new ≡ noted self.old name.now) }
    {
        self.set.insert_full(name)?;
        Ok(())
    }

    /// Whether the name is there.
    pub fn has(&self, name: &str) -> bool
        ensures { result ≡ has_name self.now name.now }
    {
        self.set.contains(name)
    }

    /// How many names stand before this one.
    pub fn place(&self, name: &str) -> usize
        ensures place { result ≡ place_of self.now name.now }
        ensures within { result ≤ length self.now }
    {
        match self.set.get_index_of(name) {
            Some(place) => place,
            None => self.set.len(),
        }
    }

    pub fn len(&self) -> usize
        ensures { result ≡ length self.now }
    {
        self.set.len()
    }

    /// The name at a place.
    pub fn get(&self, place: usize) -> Option<&str>
        ensures { option_map (λ s. s.now) result ≡ slice_get self.now place }
    {
        match self.set.get_index(place) {
            Some(name) => Some(*name),
            None => None,
        }
    }
}
