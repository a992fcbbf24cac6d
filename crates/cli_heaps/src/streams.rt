// Stream headers (ECMA-335, II.24.2.2).
ghost use Rattle.std.specs.Prelude.{◌≡◌, ◌<◌, ◌≤◌, ◌^◌, ◌+◌, ◌*◌, ◌/◌, ◌==◌, length, take, drop, position, find, Option, Some, None, IfOk};
ghost use Rattle.cli_heaps.specs.Root.{is_zero, is_named, name_at, name_width, header_end, is_whole_header, header_at, stream_at, stream_bytes, first_header, stream_count, streams, streams_from, first_named, bytes_of, offset_of, heap_named};
ghost use Rattle.cli_heaps.specs.RootRules.{root_cut};

use crate::entries::zero_at;
use cil_base::{bytes_from, part, read_u16_at, read_u32_at};
use std::alloc::{AllocError, Global};
use std::marker::Model;

/// A stream of the metadata (ECMA-335, II.24.2.2).
#[derive(Drop)]
pub struct Stream<'a> {
    header: u32,
    offset: u32,
    size: u32,
    name: &'a [u8],
}

impl<'a> Model for Stream<'a> {
    ghost use Rattle.cli_heaps.specs.Root.{Stream};

    ghost Value = { Stream };

    ghost view = { λ s. record { header = s.header; offset = s.offset; size = s.size; name = s.name.now } };
}

impl<'a> Stream<'a> {
    /// Where the header begins in the metadata.
    pub fn header(&self) -> u32
        ensures { result ≡ self.now.header }
    {
        self.header
    }

    /// Where the stream begins in the metadata.
    pub fn offset(&self) -> u32
        ensures { result ≡ self.now.offset }
    {
        self.offset
    }

    /// The number of its bytes.
    pub fn size(&self) -> u32
        ensures { result ≡ self.now.size }
    {
        self.size
    }

    /// Whether it has this name.
    pub fn is_named(&self, name: &[u8]) -> bool
        ensures { result ≡ is_named name.now self.now }
    {
        self.name == name
    }

    /// The name, without the zero byte behind it.
    pub fn name(&self) -> &'a [u8]
        ensures { result.now ≡ self.now.name }
    {
        self.name
    }
}

/// The name that begins at an offset, or all that is left where no zero byte ends it.
fn name_at(meta: &[u8], at: usize) -> &[u8]
    ensures { result.now ≡ name_at meta.now at }
{
    let rest = bytes_from(meta, at);
    match zero_at(rest) {
        Some(n) => &rest[..n],
        None => rest,
    }
}

/// Where the header at an offset ends, by the name in it.
pub fn header_end(meta: &[u8], at: usize) -> usize
    requires short { length meta.now < 2 ^ 32 }
    requires near { at < 2 ^ 33 }
    ensures { result ≡ header_end meta.now at }
{
    at + 8 + 4 * (name_at(meta, at + 8).len() / 4 + 1)
}

/// The stream whose header begins at an offset, and where the header ends; None where it is not whole.
pub fn header_at(meta: &[u8], at: usize) -> Option<(Stream<'_>, usize)>
    requires short { length meta.now < 2 ^ 32 }
    requires near { at < 2 ^ 33 }
    ensures { result ≡ header_at meta.now at }
{
    let end = header_end(meta, at);
    if end > meta.len() {
        return None;
    }
    match (read_u32_at(meta, at), read_u32_at(meta, at + 4)) {
        (Some(offset), Some(size)) => {
            let name = name_at(meta, at + 8);
            Some((
                Stream {
                    header: at as u32,
                    offset,
                    size,
                    name,
                },
                end,
            ))
        }
        _ => None,
    }
}

/// Where the first stream header begins, and the number of streams.
pub fn first_header(meta: &[u8]) -> (usize, u16)
    requires { root_cut meta.now ≡ None }
    ensures first { result.0 ≡ first_header meta.now }
    ensures within { result.0 ≤ length meta.now }
    ensures count { result.1 ≡ stream_count meta.now }
{
    let length = read_u32_at(meta, 12).unwrap_or(0) as usize;
    let count = read_u16_at(meta, 18 + length).unwrap_or(0);
    (20 + length, count)
}

/// The first stream of this name.
pub fn find_stream<'a>(meta: &'a [u8], name: &[u8]) -> Option<Stream<'a>>
    requires short { length meta.now < 2 ^ 32 }
    requires whole { root_cut meta.now ≡ None }
    ensures { result ≡ first_named meta.now name.now }
{
    let (mut at, mut left) = first_header(meta);
    while left > 0 {
        let Some((stream, end)) = header_at(meta, at) else {
            return None;
        };
        if stream.is_named(name) {
            return Some(stream);
        }
        at = end;
        left -= 1;
    }
    None
}

/// Whether all headers are whole.
pub fn are_whole(meta: &[u8]) -> bool
    requires short { length meta.now < 2 ^ 32 }
    requires whole { root_cut meta.now ≡ None }
    ensures { result ≡ (length (streams meta.now) == stream_count meta.now) }
{
    let (mut at, mut left) = first_header(meta);
    while left > 0 {
        let end = header_end(meta, at);
        if end > meta.len() {
            return false;
        }
        at = end;
        left -= 1;
    }
    true
}

/// The streams in the order of their headers, up to the first header that is not whole.
pub fn all_streams(alloc: Global, meta: &[u8]) -> Result<Vec<Stream<'_>>, AllocError>
    requires short { length meta.now < 2 ^ 32 }
    requires whole { root_cut meta.now ≡ None }
    ensures { IfOk result (λ v. v.items ≡ streams meta.now) }
{
    let mut found = Vec::new(alloc);
    let (mut at, mut left) = first_header(meta);
    while left > 0 {
        let Some((stream, end)) = header_at(meta, at) else {
            return Ok(found);
        };
        found.push(stream)?;
        at = end;
        left -= 1;
    }
    Ok(found)
}

/// The bytes of a stream, as far as the metadata goes.
pub fn bytes_in<'a>(meta: &'a [u8], stream: &Stream<'_>) -> &'a [u8]
    ensures { result.now ≡ stream_bytes meta.now stream.now }
{
    part(meta, stream.offset as usize, stream.size as usize)
}

/// The bytes of a stream, or none.
pub fn bytes_of<'a>(meta: &'a [u8], stream: &Option<Stream<'_>>) -> &'a [u8]
    ensures { result.now ≡ bytes_of meta.now stream.now }
{
    match stream {
        Some(stream) => bytes_in(meta, stream),
        None => &[],
    }
}

/// Where a stream begins, or 0.
pub fn offset_of(stream: &Option<Stream<'_>>) -> u32
    ensures { result ≡ offset_of stream.now }
{
    match stream {
        Some(stream) => stream.offset,
        None => 0,
    }
}

/// The bytes of the first stream of this name, or none.
pub fn bytes_named<'a>(meta: &'a [u8], name: &[u8]) -> &'a [u8]
    requires short { length meta.now < 2 ^ 32 }
    requires whole { root_cut meta.now ≡ None }
    ensures { result.now ≡ heap_named meta.now name.now }
{
    bytes_of(meta, &find_stream(meta, name))
}
