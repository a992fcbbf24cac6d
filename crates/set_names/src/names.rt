// Names and their numbers, by a hash map.
ghost use Rattle.std.specs.Prelude.{◌≡◌, ◌<◌, ◌^◌, [], List, ℕ, length, IfOk, OnOk, OnErr};
ghost use Rattle.set_names.specs.Names.{number_under, noted, first_under};

use cil_base::Name;
use indexmap::IndexMap;
use std::alloc::{AllocError, Global};
use std::marker::Model;

/// Names with the number under which each was noted first.
#[derive(Drop)]
pub struct Names {
    numbers: IndexMap<Vec<u8>, u32>,
}

impl Model for Names {
    ghost use Rattle.set_names.specs.Names.{Noted, contents_of};

    ghost Value = { Noted };

    ghost view = { λ n. contents_of n.numbers.entries };
}

impl Names {
    pub fn new(alloc: Global) -> Names
        ensures { result ≡ [] }
    {
        Names {
            numbers: IndexMap::new(alloc),
        }
    }

    /// The number of a name.
    pub fn number(&self, name: &[u8]) -> Option<u32>
        ensures { result ≡ number_under self.now name.now }
    {
        self.numbers.get(name).copied()
    }

    /// Notes a number for a name that has none.
    pub fn note(&mut self, alloc: Global, name: &[u8], number: u32) -> Result<(), AllocError>
        ensures ok { OnOk result (self.new ≡ noted self.old name.now number) }
        ensures err { OnErr result (self.new ≡ self.old) }
    {
        if self.number(name).is_some() {
            return Ok(());
        }
        let key = Vec::from_slice(alloc, name)?;
        self.numbers.insert(key, number)?;
        Ok(())
    }
}

/// The first row of each name, where `names` has them by row from 0.
pub fn rows_by_name(alloc: Global, names: &[Option<Name>]) -> Result<Names, AllocError>
    requires { length names.now < 2 ^ 32 }
    ensures { IfOk result (λ rows. (name : List ℕ) → number_under rows name ≡ first_under names.now name) }
{
    let mut rows = Names::new(alloc);
    for k in 0..names.len() {
        if let Some(name) = &names[k] {
            rows.note(alloc, name.as_slice(), k as u32 + 1)?;
        }
    }
    Ok(rows)
}
