// A list of names that each stand once, with the place of each by a hash map.
ghost use Rattle.std.specs.Prelude.{◌≡◌, ◌<◌, ◌^◌, [], length, slice_get, option_map, IfOk, OnOk, OnErr};
ghost use Rattle.std.specs.Option.{option_copied};
ghost use Rattle.set_names.specs.Distinct.{added, place_of};

use indexmap::IndexSet;
use std::alloc::{AllocError, Global};
use std::marker::Model;

/// Names in the order in which they were added first.
#[derive(Drop)]
pub struct DistinctNames {
    names: IndexSet<Vec<u8>>,
}

impl Model for DistinctNames {
    ghost use Rattle.std.specs.Prelude.{List};
    ghost use Rattle.set_names.specs.Names.{Name};
    ghost use Rattle.set_names.specs.Distinct.{names_of};

    ghost Value = { List Name };

    ghost view = { λ n. names_of n.names.keys };
}

impl DistinctNames {
    pub fn new(alloc: Global) -> DistinctNames
        ensures { result ≡ [] }
    {
        DistinctNames {
            names: IndexSet::new(alloc),
        }
    }

    /// How many there are.
    pub fn len(&self) -> usize
        ensures { result ≡ length self.now }
    {
        self.names.len()
    }

    /// The place of a name, where it is one of them.
    pub fn place(&self, name: &[u8]) -> Option<usize>
        ensures { result ≡ place_of self.now name.now }
    {
        self.names.get_index_of(name)
    }

    /// The name at a place.
    pub fn get(&self, place: usize) -> Option<&[u8]>
        ensures { option_copied result ≡ slice_get self.now place }
    {
        match self.names.get_index(place) {
            Some(name) => Some(name.as_slice()),
            None => None,
        }
    }

    /// Adds a name that isn't there yet at the end.
    pub fn add(&mut self, alloc: Global, name: &[u8]) -> Result<(), AllocError>
        ensures ok { OnOk result (self.new ≡ added self.old name.now) }
        ensures err { OnErr result (self.new ≡ self.old) }
    {
        if self.place(name).is_some() {
            return Ok(());
        }
        let key = Vec::from_slice(alloc, name)?;
        self.names.insert(key)?;
        Ok(())
    }
}
