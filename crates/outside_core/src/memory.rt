// Files and text in memory, which fail as they are told.
ghost use Rattle.std.specs.Prelude.{◌≡◌, ◌≢◌, ◌+◌, ◌-◌, ◌<◌, ◌≤◌, [], ◌∷◌, ◌++◌, length, true, false, IfOk, OnOk, OnErr, vec_len, vec_capacity, Some, None, Ok, Err, ℕ, List};
ghost use Rattle.std.specs.Option.{option_map};
ghost use Rattle.outside_core.specs.Memory.{file_under, is_nil, never_fails, known_room};
ghost use Rattle.outside_core.specs.Store.{TellsFile, Writes};

use crate::sink::{Sink, SinkFailed};
use crate::store::{ReadRefusal, Store, StoreRefusal};
use cil_base::{Bytes, U32s};
use sqlite_items::Items;
use std::alloc::{AllocError, Global};

/// A file with its name.
#[derive(Drop)]
pub struct Entry {
    name: Bytes,
    bytes: Bytes,
}

/// Files in memory. It counts the calls of its trait from 0, and those that are listed fail.
#[derive(Drop)]
pub struct MemStore {
    alloc: Global,
    entries: Items<Entry>,
    failing: U32s,
    calls: u32,
    faults: u64,
}

impl MemStore {
    ghost use Rattle.outside_core.specs.MemStores.{IsNewStore, file_in, SameCounts};

    /// No files.
    pub fn new(alloc: Global, failing: U32s) -> MemStore
        ensures { IsNewStore failing result }
    {
        MemStore {
            alloc,
            entries: Items::new(alloc),
            failing,
            calls: 0,
            faults: 0,
        }
    }

    /// Puts a file there. This is no call of the trait: it isn't counted, and fails for memory alone.
    pub fn put_file(&mut self, name: &str, bytes: &[u8]) -> Result<(), AllocError>
        ensures there { OnOk result (file_in self.new name.now ≡ Some bytes.now) }
        ensures others { OnOk result ((other : List ℕ) → other ≢ name.now → file_in self.new other ≡ file_in self.old other) }
        ensures err { OnErr result (self.new ≡ self.old) }
        ensures counts { SameCounts self.old self.new }
    {
        put_entry(self.alloc, &mut self.entries, name.as_bytes(), bytes)
    }

    /// What stands under a name, or None where there is no such file.
    pub fn file(&self, name: &str) -> Option<&[u8]>
        ensures { option_map (λ x. x.now) result ≡ file_in self.now name.now }
    {
        find(self.entries.as_slice(), name.as_bytes())
    }
}

fn find<'a>(entries: &'a [Entry], name: &[u8]) -> Option<&'a [u8]>
    ensures { option_map (λ x. x.now) result ≡ file_under entries.now name.now }
{
    let mut found = None;
    for entry in entries {
        if entry.name.as_slice() == name {
            found = Some(entry.bytes.as_slice());
        }
    }
    found
}

/// Puts the bytes under the name.
fn put_entry(
    alloc: Global,
    entries: &mut Items<Entry>,
    name: &[u8],
    bytes: &[u8],
) -> Result<(), AllocError>
    ensures ok { OnOk result (file_under entries.new name.now ≡ Some bytes.now) }
    ensures others { OnOk result ((other : List ℕ) → other ≢ name.now → file_under entries.new other ≡ file_under entries.old other) }
    ensures err { OnErr result (entries.new ≡ entries.old) }
{
    let name = Bytes::from_slice(alloc, name)?;
    let bytes = Bytes::from_slice(alloc, bytes)?;
    entries.push(Entry { name, bytes })
}

/// Counts a call, and says whether it fails.
fn count_call(calls: &mut u32, failing: &[u32]) -> bool
    ensures { failing.now ≡ [] → result ≡ false }
{
    let call = *calls;
    *calls = call.saturating_add(1);
    failing.contains(&call)
}

fn copy_of(alloc: Global, bytes: &[u8], cap: u64) -> Result<Bytes, ReadRefusal>
    ensures told { TellsFile (Some bytes.now) cap result }
    ensures capped { IfOk result (λ copy. length copy ≤ cap) }
    ensures not_failed { result ≢ Err ReadRefusal.Failed }
{
    if bytes.len() as u64 > cap {
        return Err(ReadRefusal::TooLong);
    }
    Bytes::from_slice(alloc, bytes).map_err(ReadRefusal::Memory)
}

impl Store for MemStore {
    ghost tells = { λ s. true };

    ghost file = { λ s. file_under s.entries };

    ghost faults = { λ s. s.faults };

    ghost steady = { λ s. never_fails s.failing s.faults };

    fn read_all(&mut self, alloc: Global, name: &str, cap: u64) -> Result<Bytes, ReadRefusal> {
        if count_call(&mut self.calls, self.failing.as_slice()) {
            self.faults = self.faults.saturating_add(1);
            return Err(ReadRefusal::Failed);
        }
        match find(self.entries.as_slice(), name.as_bytes()) {
            None => Err(ReadRefusal::Failed),
            Some(bytes) => copy_of(alloc, bytes, cap),
        }
    }

    fn replace(&mut self, alloc: Global, name: &str, bytes: &[u8]) -> Result<(), StoreRefusal> {
        if count_call(&mut self.calls, self.failing.as_slice()) {
            self.faults = self.faults.saturating_add(1);
            return Err(StoreRefusal::Failed);
        }
        put_entry(alloc, &mut self.entries, name.as_bytes(), bytes).map_err(StoreRefusal::Memory)
    }
}

/// Text in memory, up to a room that is reserved. The calls that are listed fail.
#[derive(Drop)]
pub struct MemSink {
    taken: Vec<u8>,
    room: usize,
    failing: U32s,
    calls: u32,
    faults: u64,
    ghost reserved: { vec_len taken + room ≤ vec_capacity taken },
}

impl MemSink {
    ghost use Rattle.outside_core.specs.MemSinks.{IsNewSink, taken_by};

    /// Nothing taken yet. The room is reserved.
    pub fn new(alloc: Global, room: usize, failing: U32s) -> Result<MemSink, AllocError>
        ensures { IfOk result (IsNewSink room failing) }
    {
        Ok(MemSink {
            taken: Vec::with_capacity(alloc, room)?,
            room,
            failing,
            calls: 0,
            faults: 0,
        })
    }

    /// All that was taken, in order.
    pub fn taken(&self) -> &[u8]
        ensures { result.now ≡ taken_by self.now }
    {
        self.taken.as_slice()
    }
}

/// Appends bytes for which there is room.
fn append_reserved(taken: &mut Vec<u8>, bytes: &[u8])
    requires { vec_len taken.old + length bytes.now ≤ vec_capacity taken.old }
    ensures items { taken.new.items ≡ taken.old.items ++ bytes.now }
    ensures len { vec_len taken.new ≡ vec_len taken.old + length bytes.now }
    ensures capacity { vec_capacity taken.old ≤ vec_capacity taken.new }
{
    taken.extend_from_slice(bytes).unwrap();
}

impl Sink for MemSink {
    ghost tells = { λ s. true };

    ghost taken = { λ s. s.taken.items };

    ghost faults = { λ s. s.faults };

    ghost room = { λ s. known_room s.failing s.room };

    fn put(&mut self, bytes: &[u8]) -> Result<(), SinkFailed> {
        if count_call(&mut self.calls, self.failing.as_slice()) {
            self.faults = self.faults.saturating_add(1);
            return Err(SinkFailed);
        }
        if bytes.len() > self.room {
            append_reserved(&mut self.taken, &bytes[..self.room]);
            self.room = 0;
            self.faults = self.faults.saturating_add(1);
            return Err(SinkFailed);
        }
        append_reserved(&mut self.taken, bytes);
        self.room -= bytes.len();
        Ok(())
    }
}

#[cfg(test)]
mod tests {
    use super::*;
    use std::test::Fail;

    #[test]
    fn listed_calls_fail(rt: HostRuntime) -> Result<(), Fail> {
        let alloc = rt.alloc();
        let mut failing = U32s::new(alloc);
        failing.push(1)?;
        let mut store = MemStore::new(alloc, failing);
        store.put_file("a", b"one")?;
        let read =
            matches!(store.read_all(alloc, "a", 3), Ok(bytes) if bytes.as_slice() == b"one".as_slice());
        assert!(rt; read);
        let failed = matches!(store.replace(alloc, "a", b"two"), Err(StoreRefusal::Failed));
        assert!(rt; failed);
        assert!(rt; store.file("a") == Some(b"one".as_slice()));
        assert!(rt; store.replace(alloc, "a", b"two").is_ok());
        assert!(rt; store.file("a") == Some(b"two".as_slice()));
        let missing = matches!(store.read_all(alloc, "b", 3), Err(ReadRefusal::Failed));
        assert!(rt; missing);
        Ok(())
    }

    #[test]
    fn a_put_past_the_room_takes_what_fits(rt: HostRuntime) -> Result<(), Fail> {
        let alloc = rt.alloc();
        let mut out = MemSink::new(alloc, 5, U32s::new(alloc))?;
        assert!(rt; out.put(b"abc").is_ok());
        assert!(rt; out.put(b"def").is_err());
        assert!(rt; out.taken() == b"abcde".as_slice());
        Ok(())
    }
}
