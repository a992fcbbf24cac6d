// The metadata root with what was appended to its heaps (ECMA-335, II.24.2.1 and II.24.2.2).
ghost use Rattle.std.specs.Prelude.{◌≡◌, ◌+◌, ◌-◌, ◌*◌, ◌/◌, ◌%◌, ◌<◌, ◌≤◌, ◌^◌, ◌++◌, ◌⊎◌, length, take, replicate, count_ones, None, IfOk, OnOk};
ghost use Rattle.std.specs.List.{flat_map};
ghost use Rattle.cil_base.specs.Bytes.{number_bytes, zeros, padding, padded};
ghost use Rattle.cil_base.specs.Numbers.{num};
ghost use Rattle.cil_base.specs.Refusals.{OnRefused, OnMemory, NoneBroken, Fails, first_of};
ghost use Rattle.cli_heaps.specs.Root.{first_header, version_length, name_width};
ghost use Rattle.cli_heaps.specs.RootRules.{root_cut};
ghost use Rattle.heap_writer.specs.Written.{Part, parts, name_field, headers, headers_size, bodies, headers_end, first_body, written_root, limit_tests, GrewFrom, IsWritten, EntriesRead, IsTooLong, Within};

use crate::builder::HeapBuilder;
use crate::limits::first_limit;
use crate::parts::{Part, all_parts};
use cil_base::{Bytes, Fault, padding, push_u16, push_u32, push_zeros};
use cli_heaps::{Heaps, first_header};
use sqlite_items::Items;
use std::alloc::{AllocError, Global};

/// Where the stream headers end that begin at an offset.
fn headers_end(first: usize, parts: &[Part<'_>]) -> usize
    requires { first + headers_size parts.now < 2 ^ 32 }
    ensures { result ≡ first + headers_size parts.now }
{
    let mut end = first;
    for part in parts {
        end += 8 + 4 * (part.name().len() / 4 + 1);
    }
    end
}

fn push_header(out: &mut Vec<u8>, at: u32, part: &Part<'_>) -> Result<(), AllocError>
    requires { length part.now.bytes < 2 ^ 32 }
    ensures { OnOk result (out.new.items ≡ out.old.items ++ (number_bytes 4 at ++ (number_bytes 4 (length part.now.bytes) ++ name_field part.now.name))) }
{
    let name = part.name();
    push_u32(out, at)?;
    push_u32(out, part.size() as u32)?;
    out.extend_from_slice(name)?;
    push_zeros(out, 4 * (name.len() / 4 + 1) - name.len())
}

/// The stream headers, where the first stream begins at `start`.
fn push_headers(out: &mut Vec<u8>, start: usize, parts: &[Part<'_>]) -> Result<(), AllocError>
    requires { start + length (bodies parts.now) < 2 ^ 32 }
    ensures { OnOk result (out.new.items ≡ out.old.items ++ headers start parts.now) }
{
    let mut at = start;
    for part in parts {
        let size = part.size();
        push_header(out, at as u32, part)?;
        at += size + padding(4, size);
    }
    Ok(())
}

fn push_bodies(out: &mut Vec<u8>, parts: &[Part<'_>]) -> Result<(), AllocError>
    requires { length out.old.items % 4 ≡ 0 }
    ensures { OnOk result (out.new.items ≡ out.old.items ++ bodies parts.now) }
{
    for part in parts {
        part.push_padded(out)?;
    }
    Ok(())
}

/// The root of the old metadata with these streams.
fn write_root(alloc: Global, meta: &[u8], parts: &[Part<'_>]) -> Result<Vec<u8>, AllocError>
    requires whole { root_cut meta.now ≡ None }
    requires few { length parts.now < 2 ^ 16 }
    requires short { first_body meta.now parts.now + length (bodies parts.now) < 2 ^ 32 }
    ensures { IfOk result (λ v. v.items ≡ written_root meta.now parts.now) }
{
    let (first, _) = first_header(meta);
    let end = headers_end(first, parts);
    let gap = padding(4, end);
    let mut out = Vec::new(alloc);
    out.extend_from_slice(&meta[..first - 2])?;
    push_u16(&mut out, parts.len() as u16)?;
    push_headers(&mut out, end + gap, parts)?;
    push_zeros(&mut out, gap)?;
    push_bodies(&mut out, parts)?;
    Ok(out)
}

/// The whole metadata root with `tables` as `#~` and with what was appended to the heaps. The old
/// streams keep their order and a heap that was missing and gained an entry comes behind them. L5
/// and L6 as `first_limit` says, before anything is allocated.
pub fn write_metadata(
    alloc: Global,
    heaps: &Heaps<'_>,
    grown: &HeapBuilder,
    tables: &[u8],
) -> Result<Bytes, Fault>
    requires grew { GrewFrom heaps.now.bytes grown.now }
    requires whole { 24 + 4 * count_ones (num tables.now 8 8) ≤ length tables.now }
    requires full_words { length tables.now % 4 ≡ 0 }
    ensures ok { IfOk result (λ new. IsWritten heaps.now.bytes grown.now tables.now new) }
    ensures bytes { IfOk result (λ new. new ≡ written_root heaps.now.bytes (parts heaps.now.bytes grown.now tables.now)) }
    ensures entries { IfOk result (λ new. EntriesRead heaps.now.bytes grown.now new) }
    ensures within { OnOk result (NoneBroken (Fails (limit_tests heaps.now.bytes grown.now tables.now))) }
    ensures short { OnOk result (length (written_root heaps.now.bytes (parts heaps.now.bytes grown.now tables.now)) ≤ 2 ^ 27) }
    ensures refused { OnRefused result (λ r. Fails (limit_tests heaps.now.bytes grown.now tables.now) r ⊎ IsTooLong heaps.now.bytes grown.now tables.now r) }
    ensures memory { OnMemory result (Within heaps.now.bytes grown.now tables.now) }
{
    if let Some(refusal) = first_limit(heaps, grown, tables.len()) {
        return Err(Fault::Refused(refusal));
    }
    let parts = all_parts(alloc, heaps, grown, tables)?;
    let bytes = write_root(alloc, heaps.metadata(), parts.as_slice())?;
    Ok(Items::from_vec(bytes))
}
