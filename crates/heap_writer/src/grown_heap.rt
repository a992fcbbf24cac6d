// One heap that grows at its end, and the offsets of what was appended.
ghost use Rattle.std.specs.Prelude.{◌≡◌, ◌+◌, ◌<◌, ◌≤◌, ◌^◌, ◌++◌, ◌∷◌, [], length, ◌==◌, nat_lt, if◌then◌else◌, Option, Some, None, IfOk, OnErr};
ghost use Rattle.heap_writer.specs.Growth.{no_growth, entry_offset, front, next_offset, user_string_content, with_entry};

use crate::text::find_text;
use indexmap::IndexMap;
use std::alloc::{AllocError, Global};
use std::marker::Model;

/// What is appended to a heap of `base` bytes.
#[derive(Drop)]
pub struct GrownHeap {
    base: u32,
    added: Vec<u8>,
    offsets: IndexMap<Vec<u8>, u32>,
}

impl Model for GrownHeap {
    ghost use Rattle.heap_writer.specs.Growth.{HeapGrowth, contents_of};

    ghost Value = { HeapGrowth };

    ghost view = { λ g. record { base = g.base; added = g.added.items; entries = contents_of g.offsets.entries } };
}

/// What stands in front of the first entry of an empty heap.
fn front_of(len: usize) -> &'static [u8]
    ensures { result.now ≡ (if len == 0 then 0 ∷ [] else []) }
{
    if len == 0 { &[0] } else { &[] }
}

fn join(
    alloc: Global,
    front: &[u8],
    head: &[u8],
    content: &[u8],
    tail: &[u8],
) -> Result<Vec<u8>, AllocError>
    ensures { IfOk result (λ v. v.items ≡ front.now ++ (head.now ++ content.now ++ tail.now)) }
{
    let mut bytes = Vec::new(alloc);
    bytes.extend_from_slice(front)?;
    bytes.extend_from_slice(head)?;
    bytes.extend_from_slice(content)?;
    bytes.extend_from_slice(tail)?;
    Ok(bytes)
}

impl GrownHeap {
    pub fn new(alloc: Global, base: u32) -> GrownHeap
        ensures { result ≡ no_growth base }
    {
        GrownHeap {
            base,
            added: Vec::new(alloc),
            offsets: IndexMap::new(alloc),
        }
    }

    /// What stands behind the old bytes.
    pub fn added(&self) -> &[u8]
        ensures { result.now ≡ self.now.added }
    {
        self.added.as_slice()
    }

    /// The offset of the entry with these contents.
    pub fn find(&self, content: &[u8]) -> Option<u32>
        ensures { result ≡ entry_offset self.now content.now }
    {
        self.offsets.get(content).copied()
    }

    /// The offset of the entry of a text.
    pub fn find_text(&self, units: &[u16]) -> Option<u32>
        ensures { result ≡ entry_offset self.now (user_string_content units.now) }
    {
        find_text(&self.offsets, units)
    }

    /// Whether an entry of so many bytes would pass a limit.
    pub fn is_full(&self, len: usize, limit: u32) -> bool
        requires { len < 2 ^ 63 + 2 ^ 32 }
        ensures { result ≡ nat_lt limit (next_offset self.now + len) }
    {
        let old = self.base as usize + self.added.as_slice().len();
        let at = old + front_of(old).len();
        at > limit as usize || len > limit as usize - at
    }

    /// Appends the entry `head content tail`, and answers its offset.
    pub fn add(
        &mut self,
        alloc: Global,
        head: &[u8],
        content: &[u8],
        tail: &[u8],
    ) -> Result<u32, AllocError>
        requires absent { entry_offset self.old content.now ≡ None }
        requires small { next_offset self.old < 2 ^ 32 }
        ensures ok { IfOk result (λ at. (at ≡ next_offset self.old) × (self.new ≡ with_entry self.old content.now (head.now ++ content.now ++ tail.now))) }
        ensures unchanged { OnErr result (self.new ≡ self.old) }
    {
        let old = self.base as usize + self.added.as_slice().len();
        let front = front_of(old);
        let at = (old + front.len()) as u32;
        let entry = join(alloc, front, head, content, tail)?;
        let key = Vec::from_slice(alloc, content)?;
        self.offsets.reserve(1)?;
        self.added.extend_from_slice(entry.as_slice())?;
        match self.offsets.insert(key, at) {
            Ok(_) => Ok(at),
            Err(_) => unreachable!(),
        }
    }
}
