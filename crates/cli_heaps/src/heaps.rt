// The metadata root with its streams, and the entries of the heaps (ECMA-335, II.24.2).
ghost use Rattle.std.specs.Prelude.{◌≡◌, ◌<◌, ◌≤◌, ◌^◌, ◌+◌, ◌*◌, length, is_some, codes, count_ones, Option, Some, None, IfOk, OnOk, IfErr, map};
ghost use Rattle.std.specs.Option.{option_copied};
ghost use Rattle.cil_base.specs.Refusals.{First, NoneBroken};
ghost use Rattle.cil_base.specs.Numbers.{num};
ghost use Rattle.cli_heaps.specs.Root.{Metadata, strings, blobs, user_strings, guids, tables, tables_offset, first_named, stream_bytes, streams};
ghost use Rattle.cli_heaps.specs.RootRules.{Broken};
ghost use Rattle.cli_heaps.specs.Entries.{string_at, blob_at, guid_at, is_guid_index};

use crate::entries::{self, strings_end};
use crate::root::first_fault;
use crate::streams::{self, Stream, bytes_named, bytes_of, find_stream, offset_of};
use cil_base::Refusal;
use std::alloc::{AllocError, Global};
use std::marker::Model;

/// The metadata of one assembly, whose root and streams break no rule. It borrows the bytes.
#[derive(Drop)]
pub struct Heaps<'a> {
    meta: &'a [u8],
    assembly: u32,
    strings: &'a [u8],
    strings_end: usize,
    blobs: &'a [u8],
    user_strings: &'a [u8],
    guids: &'a [u8],
    tables: &'a [u8],
    tables_offset: u32,
}

impl<'a> Model for Heaps<'a> {
    ghost use Rattle.cli_heaps.specs.Root.{Metadata};
    ghost use Rattle.cli_heaps.specs.Split.{IsSplit};

    ghost Value = { Metadata };

    ghost view = { λ h. record { bytes = h.meta.now; assembly = h.assembly } };

    ghost invariant = { λ h. IsSplit h.meta.now h.assembly h.strings.now h.blobs.now h.user_strings.now h.guids.now h.tables.now h.tables_offset h.strings_end };
}

impl<'a> Heaps<'a> {
    /// Reads the root and its stream headers (II.24.2.1, II.24.2.2). `assembly` is named by a refusal:
    /// M1, M2 or M3 at the first broken offset.
    pub fn read(meta: &'a [u8], assembly: u32) -> Result<Heaps<'a>, Refusal>
        requires { length meta.now < 2 ^ 32 }
        ensures ok { IfOk result (λ h. h ≡ record { bytes = meta.entry.now; assembly = assembly }) }
        ensures accepted { OnOk result (NoneBroken (Broken meta.entry.now assembly)) }
        ensures refused { IfErr result (First (Broken meta.entry.now assembly)) }
    {
        if let Some(refusal) = first_fault(meta, assembly) {
            return Err(refusal);
        }
        let strings = bytes_named(meta, b"#Strings");
        let tables = find_stream(meta, b"#~");
        Ok(Heaps {
            meta,
            assembly,
            strings,
            strings_end: strings_end(strings),
            blobs: bytes_named(meta, b"#Blob"),
            user_strings: bytes_named(meta, b"#US"),
            guids: bytes_named(meta, b"#GUID"),
            tables: bytes_of(meta, &tables),
            tables_offset: offset_of(&tables),
        })
    }

    /// The streams in the order of their headers, also those that are not known.
    pub fn streams(&self, alloc: Global) -> Result<Vec<Stream<'a>>, AllocError>
        ensures { IfOk result (λ v. v.items ≡ streams self.now.bytes) }
    {
        streams::all_streams(alloc, self.meta)
    }

    /// Whether there is a stream of this name.
    pub fn has_stream(&self, name: &[u8]) -> bool
        ensures { result ≡ is_some (first_named self.now.bytes name.now) }
    {
        find_stream(self.meta, name).is_some()
    }

    /// The bytes of a stream of this metadata.
    pub fn stream_bytes(&self, stream: &Stream<'_>) -> &'a [u8]
        ensures { result.now ≡ stream_bytes self.now.bytes stream.now }
    {
        streams::bytes_in(self.meta, stream)
    }

    /// The whole metadata.
    pub fn metadata(&self) -> &'a [u8]
        ensures bytes { result.now ≡ self.now.bytes }
        ensures accepted { NoneBroken (Broken self.now.bytes self.now.assembly) }
        ensures short { length self.now.bytes < 2 ^ 32 }
    {
        self.meta
    }

    /// The number of the assembly among the files of the command.
    pub fn assembly(&self) -> u32
        ensures { result ≡ self.now.assembly }
    {
        self.assembly
    }

    /// The stream `#~` of the tables.
    pub fn tables(&self) -> &'a [u8]
        ensures bytes { result.now ≡ tables self.now.bytes }
        // It has its header and a count for each bit of Valid.
        ensures whole { 24 + 4 * count_ones (num (tables self.now.bytes) 8 8) ≤ length result.now }
    {
        self.tables
    }

    /// Where `#~` begins in the metadata.
    pub fn tables_offset(&self) -> u32
        ensures offset { result ≡ tables_offset self.now.bytes }
        ensures within { tables_offset self.now.bytes + length (tables self.now.bytes) ≤ length self.now.bytes }
    {
        self.tables_offset
    }

    /// The bytes of `#Strings`; none where there is no such stream.
    pub fn strings(&self) -> &'a [u8]
        ensures { result.now ≡ strings self.now.bytes }
    {
        self.strings
    }

    /// The bytes of `#Blob`; none where there is no such stream.
    pub fn blobs(&self) -> &'a [u8]
        ensures { result.now ≡ blobs self.now.bytes }
    {
        self.blobs
    }

    /// The bytes of `#US`; none where there is no such stream.
    pub fn user_strings(&self) -> &'a [u8]
        ensures { result.now ≡ user_strings self.now.bytes }
    {
        self.user_strings
    }

    /// The bytes of `#GUID`; none where there is no such stream.
    pub fn guids(&self) -> &'a [u8]
        ensures { result.now ≡ guids self.now.bytes }
    {
        self.guids
    }

    /// The lengths of `#Strings`, `#Blob` and `#US`.
    pub fn lengths(&self) -> (u32, u32, u32)
        ensures strings { result.0 ≡ length (strings self.now.bytes) }
        ensures blobs { result.1 ≡ length (blobs self.now.bytes) }
        ensures user_strings { result.2 ≡ length (user_strings self.now.bytes) }
    {
        (
            self.strings.len() as u32,
            self.blobs.len() as u32,
            self.user_strings.len() as u32,
        )
    }

    /// The string at an offset of `#Strings`, without the zero byte behind it (II.24.2.3).
    pub fn string(&self, at: u32) -> Option<&'a [u8]>
        ensures { option_copied result ≡ string_at (strings self.now.bytes) at }
    {
        entries::string_at(self.strings, at)
    }

    /// The bytes of the entry at an offset of `#Blob` (II.24.2.4).
    pub fn blob(&self, at: u32) -> Option<&'a [u8]>
        ensures { option_copied result ≡ blob_at (blobs self.now.bytes) at }
    {
        entries::blob_at(self.blobs, at)
    }

    /// The bytes of the entry at an offset of `#US`: UTF-16 units, the low byte first, and one
    /// byte more; none for the empty text (II.24.2.4).
    pub fn user(&self, at: u32) -> Option<&'a [u8]>
        ensures { option_copied result ≡ blob_at (user_strings self.now.bytes) at }
    {
        entries::blob_at(self.user_strings, at)
    }

    /// The 16 bytes of an entry of `#GUID`, numbered from 1 (II.24.2.5).
    pub fn guid(&self, index: u32) -> Option<&'a [u8]>
        ensures { option_copied result ≡ guid_at (guids self.now.bytes) index }
    {
        entries::guid_at(self.guids, index)
    }

    /// Whether a string stands at the offset. It reads no bytes.
    pub fn has_string(&self, at: u32) -> bool
        ensures { result ≡ is_some (string_at (strings self.now.bytes) at) }
    {
        at == 0 || (at as usize) < self.strings_end
    }

    /// Whether a whole entry stands at the offset.
    pub fn has_blob(&self, at: u32) -> bool
        ensures { result ≡ is_some (blob_at (blobs self.now.bytes) at) }
    {
        entries::blob_at(self.blobs, at).is_some()
    }

    /// Whether the index is 0, which names no identifier, or that of a whole entry.
    pub fn has_guid(&self, index: u32) -> bool
        ensures { result ≡ is_guid_index (guids self.now.bytes) index }
    {
        index == 0 || entries::guid_at(self.guids, index).is_some()
    }
}
