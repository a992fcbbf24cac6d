// How an image grows by one section: where the section comes to stand, and what the headers say then.
ghost use Rattle.std.specs.Prelude.{◌≡◌, ◌+◌, ◌*◌, ◌-◌, ◌<◌, ◌≤◌, ◌^◌, length, Ok, IfOk, OnOk};
ghost use Rattle.std.specs.Int.{next_multiple_of};
ghost use Rattle.pe_image.specs.Headers.{Aligned, section_alignment, file_alignment, table_end};
ghost use Rattle.pe_image.specs.Sections.{sections_of};
ghost use Rattle.pe_image.specs.Images.{InOrder};
ghost use Rattle.pe_image.specs.SectionGrowth.{addresses_end, first_address, headers_growth, room_in, growth_in};

use crate::fields::refusal_at;
use crate::headers::{Headers, file_alignment, headers_size, section_alignment};
use crate::section::Section;
use cil_base::limits::IMAGE_LIMIT;
use cil_base::{Refusal, Rule};

/// Where the new section comes to stand.
#[derive(Clone, Copy)]
pub struct SectionGrowth {
    /// By how much SizeOfHeaders grows, and each raw pointer with it.
    pub by: u32,
    /// SizeOfHeaders then.
    pub headers_size: u32,
    /// The RVA of the new section.
    pub address: u32,
    /// The offset of its raw bytes, and their number.
    pub raw_at: u32,
    pub raw_size: u32,
    /// SizeOfImage then.
    pub image_size: u32,
}

/// The end of the sections' RVAs.
fn addresses_end(bytes: &[u8], headers: &Headers) -> u64
    requires { table_end headers.now ≤ length bytes.now }
    ensures end { result ≡ addresses_end (sections_of bytes.now headers.now) }
    ensures small { result < 2 ^ 33 }
{
    let mut end = 0;
    for i in 0..headers.count {
        end = Section::read(bytes, headers.sections + 40 * i)
            .address_end()
            .max(end);
    }
    end
}

/// The RVA of the first section, or 0 where there is none.
fn first_address(bytes: &[u8], headers: &Headers) -> u32
    requires { table_end headers.now ≤ length bytes.now }
    ensures { result ≡ first_address (sections_of bytes.now headers.now) }
{
    if headers.count == 0 {
        return 0;
    }
    Section::read(bytes, headers.sections).address
}

/// By how much the headers grow to have room for one more section header.
fn headers_growth(bytes: &[u8], headers: &Headers, assembly: u32) -> u64
    requires { InOrder bytes.now assembly headers.now }
    ensures growth { result ≡ headers_growth bytes.now headers.now }
    ensures small { result < 2 ^ 34 }
{
    let size = u64::from(headers_size(bytes, headers));
    let needed = (headers.sections as u64 + 40 * headers.count as u64 + 40).saturating_sub(size);
    needed.next_multiple_of(u64::from(file_alignment(bytes, headers)))
}

/// The RVA of a new section, where there is room for its header.
pub fn room(bytes: &[u8], assembly: u32, headers: &Headers) -> Result<u32, Refusal>
    requires { InOrder bytes.now assembly headers.now }
    ensures { result ≡ room_in bytes.now assembly headers.now }
{
    let grown = u64::from(headers_size(bytes, headers)) + headers_growth(bytes, headers, assembly);
    let unit = u64::from(section_alignment(bytes, headers));
    let address = addresses_end(bytes, headers).next_multiple_of(unit);
    if grown <= u64::from(first_address(bytes, headers))
        && headers.count < 65535
        && (address + u64::from(IMAGE_LIMIT)).next_multiple_of(unit) < 0x1_0000_0000
    {
        return Ok(address as u32);
    }
    Err(refusal_at(Rule::P5, assembly, headers.pe + 84))
}

/// The offset of the raw bytes of a section behind all others, and their number, where the headers grow by
/// `by`.
fn raw_range(bytes: &[u8], headers: &Headers, by: u64, len: usize) -> (u64, u64)
    requires short { length bytes.now < 2 ^ 32 }
    requires offset { headers.now.pe + 64 ≤ length bytes.now }
    requires aligned { Aligned bytes.now headers.now }
    requires few { by < 2 ^ 34 }
    requires len { len < 2 ^ 32 }
    ensures raw_at { result.0 ≡ next_multiple_of (length bytes.now + by) (file_alignment bytes.now headers.now) }
    ensures raw_size { result.1 ≡ next_multiple_of len (file_alignment bytes.now headers.now) }
    ensures small { (result.0 < 2 ^ 36) × (result.1 < 2 ^ 36) }
{
    let unit = u64::from(file_alignment(bytes, headers));
    let raw_at = (bytes.len() as u64 + by).next_multiple_of(unit);
    (raw_at, (len as u64).next_multiple_of(unit))
}

/// SizeOfImage with a section of so many raw bytes at this RVA.
fn image_size(bytes: &[u8], assembly: u32, headers: &Headers, address: u32, raw_size: u64) -> u32
    requires order { InOrder bytes.now assembly headers.now }
    requires room { Ok address ≡ room_in bytes.now assembly headers.now }
    requires size { raw_size ≤ IMAGE_LIMIT }
    ensures { result ≡ next_multiple_of (address + raw_size) (section_alignment bytes.now headers.now) }
{
    let unit = u64::from(section_alignment(bytes, headers));
    (u64::from(address) + raw_size).next_multiple_of(unit) as u32
}

/// Where a section of so many bytes comes to stand, where there is room for its header and the image
/// stays within 128 MiB.
pub fn plan(
    bytes: &[u8],
    assembly: u32,
    headers: &Headers,
    len: usize,
) -> Result<SectionGrowth, Refusal>
    requires order { InOrder bytes.now assembly headers.now }
    requires short { len < 2 ^ 32 }
    ensures growth { result ≡ growth_in bytes.now assembly headers.now len }
    ensures few { OnOk result (headers.now.count < 65535) }
    ensures small { IfOk result (λ g. length bytes.now + g.by < 2 ^ 32) }
{
    let address = room(bytes, assembly, headers)?;
    let by = headers_growth(bytes, headers, assembly);
    let (raw_at, raw_size) = raw_range(bytes, headers, by, len);
    if raw_at + raw_size > u64::from(IMAGE_LIMIT) {
        return Err(Refusal::limit(Rule::L6, IMAGE_LIMIT));
    }
    Ok(SectionGrowth {
        by: by as u32,
        headers_size: headers_size(bytes, headers) + by as u32,
        address,
        raw_at: raw_at as u32,
        raw_size: raw_size as u32,
        image_size: image_size(bytes, assembly, headers, address, raw_size),
    })
}
