// Keys of numbers, each with a number, by a hash map.
ghost use Rattle.std.specs.Prelude.{◌≡◌, ◌<◌, ◌^◌, length, [], ℕ, List, IfOk, OnOk, OnErr};
ghost use Rattle.set_names.specs.Names.{number_under, noted};
ghost use Rattle.set_names.specs.Names.{first_under};

use crate::hasher::KeyHasher;
use cil_base::U32s;
use indexmap::IndexMap;
use std::alloc::{AllocError, Global};
use std::hash::BuildHasherDefault;
use std::marker::Model;

/// Keys with the number under which each was noted first.
#[derive(Drop)]
pub struct Keys {
    numbers: IndexMap<Vec<u32>, u32, BuildHasherDefault<KeyHasher>>,
}

impl Model for Keys {
    ghost use Rattle.set_names.specs.Names.{Noted, contents_of};

    ghost Value = { Noted };

    ghost view = { λ n. contents_of n.numbers.entries };
}

impl Keys {
    pub fn new(alloc: Global) -> Keys
        ensures { result ≡ [] }
    {
        Keys {
            numbers: IndexMap::with_hasher(alloc, BuildHasherDefault::new()),
        }
    }

    /// The number of a key.
    pub fn number(&self, key: &[u32]) -> Option<u32>
        ensures { result ≡ number_under self.now key.now }
    {
        self.numbers.get(key).copied()
    }

    /// Notes a number for a key that has none.
    pub fn note(&mut self, alloc: Global, key: &[u32], number: u32) -> Result<(), AllocError>
        ensures ok { OnOk result (self.new ≡ noted self.old key.now number) }
        ensures err { OnErr result (self.new ≡ self.old) }
    {
        if self.number(key).is_some() {
            return Ok(());
        }
        let key = Vec::from_slice(alloc, key)?;
        self.numbers.insert(key, number)?;
        Ok(())
    }
}

/// The first row of each key, where `keys` has the keys by row from 0.
pub fn rows_by_key(alloc: Global, keys: &[Option<U32s>]) -> Result<Keys, AllocError>
    requires { length keys.now < 2 ^ 32 }
    ensures { IfOk result (λ found. (key : List ℕ) → number_under found key ≡ first_under keys.now key) }
{
    let mut found = Keys::new(alloc);
    for k in 0..keys.len() {
        if let Some(key) = &keys[k] {
            found.note(alloc, key.as_slice(), k as u32 + 1)?;
        }
    }
    Ok(found)
}
