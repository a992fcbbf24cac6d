// The heaps of one assembly, to be appended to.
ghost use Rattle.std.specs.Prelude.{◌≡◌, ◌+◌, ◌<◌, ◌≤◌, ◌^◌, ◌++◌, ◌∷◌, [], ◌%◌, ◌/◌, ℕ, false, length, nat_lt, Option, Some, None, IfOk, IsOk, OnErr, if◌then◌else◌};
ghost use Rattle.std.specs.List.{list_any, flat_map};
ghost use Rattle.cil_base.specs.Packed.{packed_spelling};
ghost use Rattle.cil_base.specs.Refusals.{OnRefused, OnMemory, limit_refusal};
ghost use Rattle.cli_heaps.specs.Root.{Metadata, is_zero, strings, blobs, user_strings};
ghost use Rattle.cli_heaps.specs.Entries.{string_at, blob_at};
ghost use Rattle.heap_writer.specs.Growth.{HeapGrowths, no_growth, entry_offset, Appends, IsFull, ReadsAt, AllRead, KeepsEntries, KeepsUserStrings, string_entry, blob_entry, user_string_content, is_special, unit_bytes, next_offset};

use crate::grown_heap::GrownHeap;
use crate::text::has_special;
use cil_base::limits::{HEAP_LIMIT, USER_STRING_LIMIT};
use cil_base::{Fault, Refusal, Rule, push_packed};
use cli_heaps::Heaps;
use std::alloc::{AllocError, Global};
use std::marker::Model;

/// The heaps of an assembly with what is appended to them. The same entry, appended again, stands
/// once. A refused call leaves them as they were.
#[derive(Drop)]
pub struct HeapBuilder {
    alloc: Global,
    strings: GrownHeap,
    blobs: GrownHeap,
    user_strings: GrownHeap,
}

impl Model for HeapBuilder {
    ghost use Rattle.cli_heaps.specs.Entries.{string_at, blob_at};
    ghost use Rattle.heap_writer.specs.Growth.{HeapGrowths, AllRead, KeepsUserStrings};

    ghost Value = { HeapGrowths };

    ghost view = { λ b. record { strings = b.strings; blobs = b.blobs; user_strings = b.user_strings } };

    ghost invariant = { λ b. AllRead string_at b.strings × AllRead blob_at b.blobs × AllRead blob_at b.user_strings × KeepsUserStrings b.user_strings };
}

/// The bytes of an entry of `#US`, behind its length.
fn user_string_content(alloc: Global, units: &[u16]) -> Result<Vec<u8>, AllocError>
    ensures { IfOk result (λ v. v.items ≡ user_string_content units.now) }
{
    let mut bytes = Vec::new(alloc);
    for unit in units {
        bytes.push((*unit % 256) as u8)?;
        bytes.push((*unit / 256) as u8)?;
    }
    bytes.push(has_special(units) as u8)?;
    Ok(bytes)
}

/// How many bytes the compressed spelling of a number has.
fn packed_width(n: u32) -> usize
    ensures { result ≡ length (packed_spelling n) }
{
    if n < 0x80 {
        1
    } else if n < 0x4000 {
        2
    } else {
        4
    }
}

/// Appends bytes with a zero byte behind them.
fn append_ended(
    heap: &mut GrownHeap,
    alloc: Global,
    content: &[u8],
    limit: u32,
) -> Result<u32, Fault>
    requires { limit < 2 ^ 29 }
    ensures ok { IfOk result (λ at. Appends heap.old content.now (string_entry content.now) limit at heap.new) }
    ensures again { (at : ℕ) → entry_offset heap.old content.now ≡ Some at → result ≡ Ok at }
    ensures refused { OnRefused result (λ r. (r ≡ limit_refusal Rule.L5 limit) × IsFull heap.old content.now (string_entry content.now) limit) }
    ensures memory { OnMemory result (next_offset heap.old + length (string_entry content.now) ≤ limit) }
    ensures unchanged { OnErr result (heap.new ≡ heap.old) }
{
    if let Some(at) = heap.find(content) {
        return Ok(at);
    }
    if heap.is_full(content.len() + 1, limit) {
        return Err(Fault::Refused(Refusal::limit(Rule::L5, limit)));
    }
    Ok(heap.add(alloc, &[], content, &[0])?)
}

/// Appends a length and the bytes that it counts.
fn append_counted(
    heap: &mut GrownHeap,
    alloc: Global,
    content: &[u8],
    limit: u32,
) -> Result<u32, Fault>
    requires { limit < 2 ^ 29 }
    ensures ok { IfOk result (λ at. Appends heap.old content.now (blob_entry content.now) limit at heap.new) }
    ensures again { (at : ℕ) → entry_offset heap.old content.now ≡ Some at → result ≡ Ok at }
    ensures refused { OnRefused result (λ r. (r ≡ limit_refusal Rule.L5 limit) × IsFull heap.old content.now (blob_entry content.now) limit) }
    ensures memory { OnMemory result (next_offset heap.old + length (blob_entry content.now) ≤ limit) }
    ensures unchanged { OnErr result (heap.new ≡ heap.old) }
{
    if let Some(at) = heap.find(content) {
        return Ok(at);
    }
    if content.len() > limit as usize {
        return Err(Fault::Refused(Refusal::limit(Rule::L5, limit)));
    }
    let len = content.len() as u32;
    if heap.is_full(packed_width(len) + content.len(), limit) {
        return Err(Fault::Refused(Refusal::limit(Rule::L5, limit)));
    }
    let mut head = Vec::new(alloc);
    push_packed(&mut head, len)?;
    Ok(heap.add(alloc, head.as_slice(), content, &[])?)
}

/// Whether the entry of a text would pass the limit of `#US`.
fn is_full_of_text(heap: &GrownHeap, units: &[u16]) -> bool
    ensures { result ≡ nat_lt (2 ^ 24) (next_offset heap.now + length (blob_entry (user_string_content units.now))) }
{
    if units.len() > USER_STRING_LIMIT as usize {
        return true;
    }
    let len = 2 * units.len() + 1;
    heap.is_full(packed_width(len as u32) + len, USER_STRING_LIMIT)
}

/// Appends the entry of a text. Where it would pass the limit, nothing is allocated.
fn append_text(heap: &mut GrownHeap, alloc: Global, units: &[u16]) -> Result<u32, Fault>
    ensures ok { IfOk result (λ at. Appends heap.old (user_string_content units.now) (blob_entry (user_string_content units.now)) (2 ^ 24) at heap.new) }
    ensures refused { OnRefused result (λ r. (r ≡ limit_refusal Rule.L5 (2 ^ 24)) × IsFull heap.old (user_string_content units.now) (blob_entry (user_string_content units.now)) (2 ^ 24)) }
    ensures memory { OnMemory result (next_offset heap.old + length (blob_entry (user_string_content units.now)) ≤ 2 ^ 24) }
    ensures unchanged { OnErr result (heap.new ≡ heap.old) }
{
    if is_full_of_text(heap, units) {
        let full = Refusal::limit(Rule::L5, USER_STRING_LIMIT);
        return match heap.find_text(units) {
            Some(at) => Ok(at),
            None => Err(Fault::Refused(full)),
        };
    }
    let content = user_string_content(alloc, units)?;
    append_counted(heap, alloc, &content, USER_STRING_LIMIT)
}

impl HeapBuilder {
    /// The heaps as they are, with nothing appended.
    pub fn new(alloc: Global, heaps: &Heaps<'_>) -> Result<HeapBuilder, AllocError>
        ensures made { IsOk result }
        ensures empty { IfOk result (λ b. b ≡ record { strings = no_growth (length (strings heaps.now.bytes)); blobs = no_growth (length (blobs heaps.now.bytes)); user_strings = no_growth (length (user_strings heaps.now.bytes)) }) }
    {
        let (strings, blobs, user_strings) = heaps.lengths();
        Ok(HeapBuilder {
            alloc,
            strings: GrownHeap::new(alloc, strings),
            blobs: GrownHeap::new(alloc, blobs),
            user_strings: GrownHeap::new(alloc, user_strings),
        })
    }

    /// What stands behind the old bytes of `#Strings`. Each appended entry is read in it.
    pub fn strings_added(&self) -> &[u8]
        ensures added { result.now ≡ self.now.strings.added }
        ensures read { AllRead string_at self.now.strings }
    {
        self.strings.added()
    }

    /// What stands behind the old bytes of `#Blob`. Each appended entry is read in it.
    pub fn blobs_added(&self) -> &[u8]
        ensures added { result.now ≡ self.now.blobs.added }
        ensures read { AllRead blob_at self.now.blobs }
    {
        self.blobs.added()
    }

    /// What stands behind the old bytes of `#US`. Each appended entry is read in it.
    pub fn user_strings_added(&self) -> &[u8]
        ensures added { result.now ≡ self.now.user_strings.added }
        ensures read { AllRead blob_at self.now.user_strings }
        // With them `#US` is still whole entries, as the rules want.
        ensures whole { KeepsUserStrings self.now.user_strings }
    {
        self.user_strings.added()
    }

    /// Appends a string, and answers its offset. L5 where `#Strings` would have over 2^28 bytes.
    pub fn append_string(&mut self, s: &[u8]) -> Result<u32, Fault>
        requires { list_any is_zero s.now ≡ false }
        ensures ok { IfOk result (λ at. Appends self.old.strings s.now (string_entry s.now) (2 ^ 28) at self.new.strings) }
        ensures again { (at : ℕ) → entry_offset self.old.strings s.now ≡ Some at → result ≡ Ok at }
        ensures reads_back { IfOk result (λ at. ReadsAt string_at self.new.strings at s.now) }
        ensures old_entries { KeepsEntries string_at self.old.strings self.new.strings }
        ensures others { self.new ≡ record self.old { strings = self.new.strings } }
        ensures memory { OnMemory result (next_offset self.old.strings + length (string_entry s.now) ≤ 2 ^ 28) }
        ensures refused { OnRefused result (λ r. (r ≡ limit_refusal Rule.L5 (2 ^ 28)) × IsFull self.old.strings s.now (string_entry s.now) (2 ^ 28)) }
        ensures unchanged { OnErr result (self.new ≡ self.old) }
    {
        append_ended(&mut self.strings, self.alloc, s, HEAP_LIMIT)
    }

    /// Appends a blob, and answers its offset. L5 where `#Blob` would have over 2^28 bytes.
    pub fn append_blob(&mut self, b: &[u8]) -> Result<u32, Fault>
        ensures ok { IfOk result (λ at. Appends self.old.blobs b.now (blob_entry b.now) (2 ^ 28) at self.new.blobs) }
        ensures again { (at : ℕ) → entry_offset self.old.blobs b.now ≡ Some at → result ≡ Ok at }
        ensures reads_back { IfOk result (λ at. ReadsAt blob_at self.new.blobs at b.now) }
        ensures old_entries { KeepsEntries blob_at self.old.blobs self.new.blobs }
        ensures others { self.new ≡ record self.old { blobs = self.new.blobs } }
        ensures memory { OnMemory result (next_offset self.old.blobs + length (blob_entry b.now) ≤ 2 ^ 28) }
        ensures refused { OnRefused result (λ r. (r ≡ limit_refusal Rule.L5 (2 ^ 28)) × IsFull self.old.blobs b.now (blob_entry b.now) (2 ^ 28)) }
        ensures unchanged { OnErr result (self.new ≡ self.old) }
    {
        append_counted(&mut self.blobs, self.alloc, b, HEAP_LIMIT)
    }

    /// Appends a text of UTF-16 units, and answers its offset. L5 where `#US` would have over
    /// 2^24 bytes.
    pub fn append_user(&mut self, units: &[u16]) -> Result<u32, Fault>
        ensures ok { IfOk result (λ at. Appends self.old.user_strings (user_string_content units.now) (blob_entry (user_string_content units.now)) (2 ^ 24) at self.new.user_strings) }
        ensures reads_back { IfOk result (λ at. ReadsAt blob_at self.new.user_strings at (user_string_content units.now)) }
        ensures old_entries { KeepsEntries blob_at self.old.user_strings self.new.user_strings }
        ensures others { self.new ≡ record self.old { user_strings = self.new.user_strings } }
        ensures memory { OnMemory result (next_offset self.old.user_strings + length (blob_entry (user_string_content units.now)) ≤ 2 ^ 24) }
        ensures refused { OnRefused result (λ r. (r ≡ limit_refusal Rule.L5 (2 ^ 24)) × IsFull self.old.user_strings (user_string_content units.now) (blob_entry (user_string_content units.now)) (2 ^ 24)) }
        ensures unchanged { OnErr result (self.new ≡ self.old) }
    {
        append_text(&mut self.user_strings, self.alloc, units)
    }
}
