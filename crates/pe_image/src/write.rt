// The bytes of an image that has grown by one section.
ghost use Rattle.std.specs.Prelude.{◌≡◌, ◌+◌, ◌-◌, ◌*◌, ◌<◌, ◌≤◌, ◌^◌, ◌++◌, length, replicate, Ok, Err, IfOk, OnOk};
ghost use Rattle.std.specs.List.{concat};
ghost use Rattle.std.specs.Result.{IsOk};
ghost use Rattle.cil_base.specs.Refusals.{OnRefused, OnMemory};
ghost use Rattle.pe_image.specs.Headers.{Fit, table_end, headers_size};
ghost use Rattle.pe_image.specs.Images.{InOrder};
ghost use Rattle.pe_image.specs.Sections.{section_at};
ghost use Rattle.pe_image.specs.Written.{front, moved_header, moved_headers, new_header, grown_front, kept_pieces, grown_rest, grown_in};

use crate::cli::CliHeader;
use crate::growth::{SectionGrowth, plan};
use crate::headers::{Headers, headers_size};
use crate::section::Section;
use cil_base::{Bytes, Fault, between, push_all, push_zeros, u16_bytes, u32_bytes};
use sqlite_items::Items;
use std::alloc::{AllocError, Global};

/// Code that is executed and read.
const CHARACTERISTICS: u32 = 0x6000_0020;

/// What stands before the section table.
fn push_front(
    out: &mut Vec<u8>,
    bytes: &[u8],
    headers: &Headers,
    growth: &SectionGrowth,
) -> Result<(), AllocError>
    requires fit { Fit headers.now }
    requires few { headers.now.count < 65535 }
    ensures { OnOk result (out.new.items ≡ out.old.items ++ concat (front bytes.now headers.now growth.now)) }
{
    let Headers {
        pe,
        directories,
        sections,
        count,
    } = *headers;
    let count = u16_bytes(count as u16 + 1);
    let image_size = u32_bytes(growth.image_size);
    let headers_size = u32_bytes(growth.headers_size);
    let zeros = [0; 8];
    let pieces = [
        between(bytes, 0, pe + 6),
        &count[..],
        between(bytes, pe + 8, pe + 12),
        &zeros[..],
        between(bytes, pe + 20, pe + 80),
        &image_size[..],
        &headers_size[..],
        &zeros[..4],
        between(bytes, pe + 92, directories + 32),
        &zeros[..],
        between(bytes, directories + 40, directories + 48),
        &zeros[..],
        between(bytes, directories + 56, sections),
    ];
    push_all(out, &pieces)
}

/// The old section header at `at`, with its raw bytes moved by `by`.
fn push_moved(out: &mut Vec<u8>, bytes: &[u8], at: usize, by: u32) -> Result<(), AllocError>
    requires here { at + 40 ≤ length bytes.now }
    requires short { 0 < (section_at bytes.now at).raw_size → (section_at bytes.now at).raw_at + by < 2 ^ 32 }
    ensures { OnOk result (out.new.items ≡ out.old.items ++ concat (moved_header bytes.now by at)) }
{
    let raw_at = u32_bytes(Section::read(bytes, at).moved_offset(by));
    let pieces = [
        between(bytes, at, at + 20),
        &raw_at[..],
        between(bytes, at + 24, at + 40),
    ];
    push_all(out, &pieces)
}

/// The old section headers, with their raw bytes moved by `by`.
fn push_table(
    out: &mut Vec<u8>,
    bytes: &[u8],
    assembly: u32,
    headers: &Headers,
    by: u32,
) -> Result<(), AllocError>
    requires order { InOrder bytes.now assembly headers.now }
    requires short { length bytes.now + by < 2 ^ 32 }
    ensures { OnOk result (out.new.items ≡ out.old.items ++ moved_headers bytes.now by headers.now.sections headers.now.count) }
{
    for i in 0..headers.count {
        push_moved(out, bytes, headers.sections + 40 * i, by)?;
    }
    Ok(())
}

/// The header of the new section of `len` bytes.
fn push_header(out: &mut Vec<u8>, growth: &SectionGrowth, len: u32) -> Result<(), AllocError>
    ensures { OnOk result (out.new.items ≡ out.old.items ++ concat (new_header len growth.now)) }
{
    let len = u32_bytes(len);
    let address = u32_bytes(growth.address);
    let raw_size = u32_bytes(growth.raw_size);
    let raw_at = u32_bytes(growth.raw_at);
    let characteristics = u32_bytes(CHARACTERISTICS);
    let zeros = [0; 12];
    let name = [b'.', b'c', b'c', b'r', b'w', 0, 0, 0];
    let pieces = [
        &name[..],
        &len[..],
        &address[..],
        &raw_size[..],
        &raw_at[..],
        &zeros[..],
        &characteristics[..],
    ];
    push_all(out, &pieces)
}

/// All headers, up to the new SizeOfHeaders.
fn push_headers(
    out: &mut Vec<u8>,
    bytes: &[u8],
    assembly: u32,
    headers: &Headers,
    growth: &SectionGrowth,
    len: u32,
) -> Result<(), AllocError>
    requires order { InOrder bytes.now assembly headers.now }
    requires few { headers.now.count < 65535 }
    requires short { length bytes.now + growth.now.by < 2 ^ 32 }
    ensures { OnOk result (out.new.items ≡ out.old.items ++ grown_front bytes.now headers.now growth.now len) }
{
    let old_size = headers_size(bytes, headers) as usize;
    let end = headers.sections + 40 * headers.count + 40;
    push_front(out, bytes, headers, growth)?;
    push_table(out, bytes, assembly, headers, growth.by)?;
    push_header(out, growth, len)?;
    out.extend_from_slice(between(bytes, end, old_size))?;
    push_zeros(
        out,
        (growth.headers_size as usize).saturating_sub(end.max(old_size)),
    )
}

/// The old bytes from `from` on, with another CLI header at `cli_at`.
fn push_kept(
    out: &mut Vec<u8>,
    bytes: &[u8],
    from: usize,
    cli_at: usize,
    cli: &CliHeader,
) -> Result<(), AllocError>
    requires { cli_at + 72 ≤ length bytes.now }
    ensures { OnOk result (out.new.items ≡ out.old.items ++ concat (kept_pieces bytes.now from cli_at cli.now)) }
{
    let rva = u32_bytes(cli.metadata_rva);
    let len = u32_bytes(cli.metadata_len);
    let flags = u32_bytes(cli.flags);
    let zeros = [0; 8];
    let pieces = [
        between(bytes, from, cli_at + 8),
        &rva[..],
        &len[..],
        &flags[..],
        between(bytes, cli_at + 20, cli_at + 32),
        &zeros[..],
        between(bytes, cli_at + 40, bytes.len()),
    ];
    push_all(out, &pieces)
}

/// All sections behind the headers, each new part at a multiple of FileAlignment.
fn push_rest(
    out: &mut Vec<u8>,
    bytes: &[u8],
    headers: &Headers,
    cli_at: usize,
    cli: &CliHeader,
    section: &[u8],
    growth: &SectionGrowth,
) -> Result<(), AllocError>
    requires here { cli_at + 72 ≤ length bytes.now }
    requires size { headers.now.pe + 88 ≤ length bytes.now }
    ensures { OnOk result (out.new.items ≡ out.old.items ++ grown_rest bytes.now headers.now cli_at cli.now section.now growth.now) }
{
    let old_size = headers_size(bytes, headers) as usize;
    push_kept(out, bytes, old_size, cli_at, cli)?;
    let end = bytes.len() + growth.by as usize;
    push_zeros(out, (growth.raw_at as usize).saturating_sub(end))?;
    out.extend_from_slice(section)?;
    push_zeros(
        out,
        (growth.raw_size as usize).saturating_sub(section.len()),
    )
}

/// The image with one more section, whose CLI header is `cli`.
pub fn write(
    alloc: Global,
    bytes: &[u8],
    assembly: u32,
    headers: &Headers,
    cli_at: usize,
    cli: &CliHeader,
    section: &[u8],
) -> Result<Bytes, Fault>
    requires order { InOrder bytes.now assembly headers.now }
    requires here { cli_at + 72 ≤ length bytes.now }
    requires short { length section.now < 2 ^ 32 }
    ensures ok { IfOk result (λ out. grown_in bytes.now assembly headers.now cli_at cli.now section.now ≡ Ok out) }
    ensures refused { OnRefused result (λ r. grown_in bytes.now assembly headers.now cli_at cli.now section.now ≡ Err r) }
    ensures memory { OnMemory result (IsOk (grown_in bytes.now assembly headers.now cli_at cli.now section.now)) }
{
    let growth = plan(bytes, assembly, headers, section.len())?;
    let len = growth.raw_at as usize + growth.raw_size as usize;
    let mut out = Vec::with_capacity(alloc, len)?;
    push_headers(
        &mut out,
        bytes,
        assembly,
        headers,
        &growth,
        section.len() as u32,
    )?;
    push_rest(&mut out, bytes, headers, cli_at, cli, section, &growth)?;
    Ok(Items::from_vec(out))
}
