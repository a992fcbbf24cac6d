// The bytes of an image.
ghost use Rattle.std.specs.Prelude.{◌≡◌, ◌+◌, ◌-◌, ◌≤◌, ◌<◌, ◌^◌, ◌++◌, length, OnOk, IfOk, MatchOption};
ghost use Rattle.std.specs.List.{concat};
ghost use Rattle.cil_base.specs.Refusals.{OnRefused, OnMemory};
ghost use Rattle.pe_image.specs.SectionGrowth.{too_long};
ghost use Rattle.asm_gen.specs.Layout.{sizes_of, text_size, text_raw, resource_address, relocation_address, image_size, resource_at, relocation_at, file_size, dos_header, coff_header, characteristics, standard_fields, image_fields, directories, section_header, text_header, resource_header, relocation_header, optional_header, section_table, headers, cli_header, image};
ghost use Rattle.asm_gen.specs.Reading.{IsImageOf};

use cil_base::limits::IMAGE_LIMIT;
use cil_base::{Bytes, Fault, Refusal, Rule, push_all, push_zeros, u16_bytes, u32_bytes};
use sqlite_items::Items;
use std::alloc::{AllocError, Global};

/// The RVA of the first code, behind the CLI header.
pub const CODE_ADDRESS: u32 = 0x2048;

/// The sizes of an image whose code and metadata have so many bytes together.
#[derive(Clone, Copy)]
struct Sizes {
    len: u32,
    text_size: u32,
    text_raw: u32,
    resource_address: u32,
}

impl Sizes {
    ghost use Rattle.asm_gen.specs.Layout.{sizes_of, file_size};

    /// None where the image would have over 128 MiB.
    fn of(code: usize, metadata: usize) -> Option<Sizes>
        ensures { MatchOption result (IMAGE_LIMIT < file_size (code + metadata)) (λ s. (s ≡ sizes_of (code + metadata)) × (file_size (code + metadata) ≤ IMAGE_LIMIT)) }
    {
        if code > IMAGE_LIMIT as usize || metadata > IMAGE_LIMIT as usize {
            return None;
        }
        let len = (code + metadata) as u32;
        let text_size = 72 + len;
        let text_raw = text_size.next_multiple_of(0x200);
        if text_raw + 0x600 > IMAGE_LIMIT {
            return None;
        }
        Some(Sizes {
            len,
            text_size,
            text_raw,
            resource_address: 0x2000 + text_size.next_multiple_of(0x2000),
        })
    }
}

const ZEROS: [u8; 112] = [0; 112];

fn push_dos_header(out: &mut Vec<u8>) -> Result<(), AllocError>
    ensures { OnOk result (out.new.items ≡ out.old.items ++ concat dos_header) }
{
    let signature = *b"MZ";
    let pieces = [
        &signature[..],
        &ZEROS[..58],
        &u32_bytes(0x80)[..],
        &ZEROS[..64],
    ];
    push_all(out, &pieces)
}

/// A program where there is an entry point, and else a library.
fn characteristics(entry: u32) -> u16
    ensures { result ≡ characteristics entry }
{
    if entry == 0 { 0x2102 } else { 0x102 }
}

fn push_coff_header(out: &mut Vec<u8>, entry: u32) -> Result<(), AllocError>
    ensures { OnOk result (out.new.items ≡ out.old.items ++ concat (coff_header entry)) }
{
    let pieces = [
        &u32_bytes(0x4550)[..],
        &u16_bytes(0x14C)[..],
        &u16_bytes(3)[..],
        &ZEROS[..12],
        &u16_bytes(0xE0)[..],
        &u16_bytes(characteristics(entry))[..],
    ];
    push_all(out, &pieces)
}

fn push_standard_fields(out: &mut Vec<u8>, sizes: &Sizes) -> Result<(), AllocError>
    requires sized { sizes.now ≡ sizes_of sizes.now.len }
    requires short { file_size sizes.now.len ≤ IMAGE_LIMIT }
    ensures { OnOk result (out.new.items ≡ out.old.items ++ concat (standard_fields sizes.now.len)) }
{
    let pieces = [
        &u16_bytes(0x10B)[..],
        &u16_bytes(8)[..],
        &u32_bytes(sizes.text_raw)[..],
        &u32_bytes(0x400)[..],
        &ZEROS[..8],
        &u32_bytes(0x2000)[..],
        &u32_bytes(sizes.resource_address)[..],
    ];
    push_all(out, &pieces)
}

fn push_image_fields(out: &mut Vec<u8>, sizes: &Sizes) -> Result<(), AllocError>
    requires sized { sizes.now ≡ sizes_of sizes.now.len }
    requires short { file_size sizes.now.len ≤ IMAGE_LIMIT }
    ensures { OnOk result (out.new.items ≡ out.old.items ++ concat (image_fields sizes.now.len)) }
{
    let pieces = [
        &u32_bytes(0x40_0000)[..],
        &u32_bytes(0x2000)[..],
        &u32_bytes(0x200)[..],
        &u32_bytes(4)[..],
        &u32_bytes(0)[..],
        &u32_bytes(4)[..],
        &ZEROS[..4],
        &u32_bytes(sizes.resource_address + 0x4000)[..],
        &u32_bytes(0x200)[..],
        &ZEROS[..4],
    ];
    push_all(out, &pieces)
}

fn push_directories(out: &mut Vec<u8>) -> Result<(), AllocError>
    ensures { OnOk result (out.new.items ≡ out.old.items ++ concat directories) }
{
    let pieces = [
        &u16_bytes(3)[..],
        &u16_bytes(0x8540)[..],
        &u32_bytes(0x10_0000)[..],
        &u32_bytes(0x1000)[..],
        &u32_bytes(0x10_0000)[..],
        &u32_bytes(0x1000)[..],
        &ZEROS[..4],
        &u32_bytes(16)[..],
        &ZEROS[..112],
        &u32_bytes(0x2000)[..],
        &u32_bytes(72)[..],
        &ZEROS[..8],
    ];
    push_all(out, &pieces)
}

/// A section in the header: its size and RVA in memory, and its raw bytes in the file.
#[derive(Clone, Copy)]
struct Section {
    name: [u8; 8],
    size: u32,
    address: u32,
    raw: u32,
    raw_at: u32,
    flags: u32,
}

fn push_section(out: &mut Vec<u8>, s: &Section) -> Result<(), AllocError>
    ensures { OnOk result (out.new.items ≡ out.old.items ++ concat (section_header s.now.name s.now.size s.now.address s.now.raw s.now.raw_at s.now.flags)) }
{
    let pieces = [
        &s.name[..],
        &u32_bytes(s.size)[..],
        &u32_bytes(s.address)[..],
        &u32_bytes(s.raw)[..],
        &u32_bytes(s.raw_at)[..],
        &ZEROS[..12],
        &u32_bytes(s.flags)[..],
    ];
    push_all(out, &pieces)
}

fn push_text_header(out: &mut Vec<u8>, sizes: &Sizes) -> Result<(), AllocError>
    requires sized { sizes.now ≡ sizes_of sizes.now.len }
    requires short { file_size sizes.now.len ≤ IMAGE_LIMIT }
    ensures { OnOk result (out.new.items ≡ out.old.items ++ concat (text_header sizes.now.len)) }
{
    let text = Section {
        name: *b".text\0\0\0",
        size: sizes.text_size,
        address: 0x2000,
        raw: sizes.text_raw,
        raw_at: 0x200,
        flags: 0x6000_0020,
    };
    push_section(out, &text)
}

fn push_resource_header(out: &mut Vec<u8>, sizes: &Sizes) -> Result<(), AllocError>
    requires sized { sizes.now ≡ sizes_of sizes.now.len }
    requires short { file_size sizes.now.len ≤ IMAGE_LIMIT }
    ensures { OnOk result (out.new.items ≡ out.old.items ++ concat (resource_header sizes.now.len)) }
{
    let resources = Section {
        name: *b".rsrc\0\0\0",
        size: 0x200,
        address: sizes.resource_address,
        raw: 0x200,
        raw_at: sizes.text_raw + 0x200,
        flags: 0x4000_0040,
    };
    push_section(out, &resources)
}

fn push_relocation_header(out: &mut Vec<u8>, sizes: &Sizes) -> Result<(), AllocError>
    requires sized { sizes.now ≡ sizes_of sizes.now.len }
    requires short { file_size sizes.now.len ≤ IMAGE_LIMIT }
    ensures { OnOk result (out.new.items ≡ out.old.items ++ concat (relocation_header sizes.now.len)) }
{
    let relocations = Section {
        name: *b".reloc\0\0",
        size: 0x200,
        address: sizes.resource_address + 0x2000,
        raw: 0x200,
        raw_at: sizes.text_raw + 0x400,
        flags: 0x4200_0040,
    };
    push_section(out, &relocations)
}

#[tactic(auto, unfolding(crate::specs::Layout::optional_header))]
fn push_optional_header(out: &mut Vec<u8>, sizes: &Sizes) -> Result<(), AllocError>
    requires sized { sizes.now ≡ sizes_of sizes.now.len }
    requires short { file_size sizes.now.len ≤ IMAGE_LIMIT }
    ensures { OnOk result (out.new.items ≡ out.old.items ++ optional_header sizes.now.len) }
{
    push_standard_fields(out, sizes)?;
    push_image_fields(out, sizes)?;
    push_directories(out)
}

#[tactic(auto, unfolding(crate::specs::Layout::section_table))]
fn push_section_table(out: &mut Vec<u8>, sizes: &Sizes) -> Result<(), AllocError>
    requires sized { sizes.now ≡ sizes_of sizes.now.len }
    requires short { file_size sizes.now.len ≤ IMAGE_LIMIT }
    ensures { OnOk result (out.new.items ≡ out.old.items ++ section_table sizes.now.len) }
{
    push_text_header(out, sizes)?;
    push_resource_header(out, sizes)?;
    push_relocation_header(out, sizes)
}

#[tactic(auto, unfolding(crate::specs::Layout::headers))]
fn push_headers(out: &mut Vec<u8>, sizes: &Sizes, entry: u32) -> Result<(), AllocError>
    requires sized { sizes.now ≡ sizes_of sizes.now.len }
    requires short { file_size sizes.now.len ≤ IMAGE_LIMIT }
    ensures { OnOk result (out.new.items ≡ out.old.items ++ headers sizes.now.len entry) }
{
    push_dos_header(out)?;
    push_coff_header(out, entry)?;
    push_optional_header(out, sizes)?;
    push_section_table(out, sizes)?;
    push_zeros(out, 16)
}

fn push_cli_header(
    out: &mut Vec<u8>,
    code: u32,
    metadata: u32,
    entry: u32,
) -> Result<(), AllocError>
    requires { code + 0x2048 < 2 ^ 32 }
    ensures { OnOk result (out.new.items ≡ out.old.items ++ concat (cli_header code metadata entry)) }
{
    let pieces = [
        &u32_bytes(72)[..],
        &u16_bytes(2)[..],
        &u16_bytes(5)[..],
        &u32_bytes(CODE_ADDRESS + code)[..],
        &u32_bytes(metadata)[..],
        &u32_bytes(1)[..],
        &u32_bytes(entry)[..],
        &ZEROS[..48],
    ];
    push_all(out, &pieces)
}

#[tactic(auto, unfolding(crate::specs::Layout::image))]
fn image_bytes(alloc: Global, code: &[u8], metadata: &[u8], entry: u32) -> Result<Bytes, Fault>
    ensures ok { IfOk result (λ b. b ≡ image code.now metadata.now entry) }
    ensures short { OnOk result (file_size (length code.now + length metadata.now) ≤ IMAGE_LIMIT) }
    ensures refused { OnRefused result (λ r. (r ≡ too_long) × (IMAGE_LIMIT < file_size (length code.now + length metadata.now))) }
    // L6 is tested before memory is taken.
    ensures memory { OnMemory result (file_size (length code.now + length metadata.now) ≤ IMAGE_LIMIT) }
{
    let sizes = match Sizes::of(code.len(), metadata.len()) {
        None => return Err(Fault::Refused(Refusal::limit(Rule::L6, IMAGE_LIMIT))),
        Some(sizes) => sizes,
    };
    let mut out = Vec::new(alloc);
    push_headers(&mut out, &sizes, entry)?;
    push_cli_header(&mut out, code.len() as u32, metadata.len() as u32, entry)?;
    out.extend_from_slice(code)?;
    out.extend_from_slice(metadata)?;
    push_zeros(&mut out, (sizes.text_raw - sizes.text_size) as usize)?;
    push_zeros(&mut out, 0x400)?;
    Ok(Items::from_vec(out))
}

/// An image with the code and the metadata, and the token of its entry point, or 0. L6 where it has
/// over 128 MiB.
pub fn image(alloc: Global, code: &[u8], metadata: &[u8], entry: u32) -> Result<Bytes, Fault>
    ensures reads { IfOk result (IsImageOf code.now metadata.now entry) }
    ensures short { OnOk result (file_size (length code.now + length metadata.now) ≤ IMAGE_LIMIT) }
    ensures refused { OnRefused result (λ r. (r ≡ too_long) × (IMAGE_LIMIT < file_size (length code.now + length metadata.now))) }
    // L6 is tested before memory is taken.
    ensures memory { OnMemory result (file_size (length code.now + length metadata.now) ≤ IMAGE_LIMIT) }
{
    image_bytes(alloc, code, metadata, entry)
}
