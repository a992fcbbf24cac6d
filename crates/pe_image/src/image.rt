// An image behind its headers.
ghost use Rattle.std.specs.Prelude.{◌≡◌, ◌+◌, ◌-◌, ◌<◌, ◌≤◌, ◌^◌, length, option_copied, Some, None, IfOk, OnOk, IfErr, Ok, Err};
ghost use Rattle.std.specs.Result.{IsOk};
ghost use Rattle.cil_base.specs.Bytes.{part};
ghost use Rattle.cil_base.specs.declared.limits.TheConstants.{IMAGE_LIMIT};
ghost use Rattle.cil_base.specs.Refusals.{First, NoneBroken, OnRefused, OnMemory};
ghost use Rattle.pe_image.specs.Written.{KeepsBytes, new_offset, grown_of};
ghost use Rattle.pe_image.specs.Sections.{at_rva, tail_at};
ghost use Rattle.pe_image.specs.Cli.{cli_of, metadata_of};
ghost use Rattle.pe_image.specs.Rules.{Broken};
ghost use Rattle.pe_image.specs.SectionGrowth.{room_of};
ghost use Rattle.pe_image.specs.ReadBack.{Grows};

use crate::cli::{CliHeader, read_cli};
use crate::growth::room;
use crate::headers::{Headers, cli_rva, read_headers};
use crate::section::find_section;
use crate::write::write;
use cil_base::{Bytes, Fault, Refusal, part};
use std::alloc::Global;
use std::marker::Model;

/// A PE file with CLI metadata. It borrows the bytes of the file.
#[derive(Drop)]
pub struct Image<'a> {
    bytes: &'a [u8],
    assembly: u32,
    headers: Headers,
    cli_offset: usize,
    cli: CliHeader,
    metadata: &'a [u8],
}

impl<'a> Model for Image<'a> {
    ghost use Rattle.std.specs.Prelude.{◌≡◌, ◌+◌, ◌≤◌, length, None};
    ghost use Rattle.cil_base.specs.Refusals.{first_of};
    ghost use Rattle.pe_image.specs.Headers.{headers_size};
    ghost use Rattle.pe_image.specs.Images.{File, InOrder};
    ghost use Rattle.pe_image.specs.Cli.{cli_header_offset, cli_of, metadata_of};
    ghost use Rattle.pe_image.specs.Rules.{cli_tests};

    ghost Value = { File };

    ghost view = { λ i. record { bytes = i.bytes.now; assembly = i.assembly } };

    ghost invariant = { λ i.
        InOrder i.bytes.now i.assembly i.headers
        × (first_of (cli_tests i.bytes.now i.assembly i.headers) ≡ None)
        × (i.cli_offset ≡ cli_header_offset i.bytes.now i.headers)
        × (headers_size i.bytes.now i.headers ≤ i.cli_offset)
        × (i.cli_offset + 72 ≤ length i.bytes.now)
        × (i.cli ≡ cli_of i.bytes.now)
        × (i.metadata.now ≡ metadata_of i.bytes.now) };
}

impl<'a> Image<'a> {
    /// Reads the headers of assembly number `assembly`. The refusal is the first by place and then by
    /// rule among the headers' (P1, P2, P3, P4, P6) and, where they are in order, the CLI header's (P4).
    pub fn read(bytes: &'a [u8], assembly: u32) -> Result<Image<'a>, Refusal>
        requires { length bytes.now < 2 ^ 32 }
        ensures ok { IfOk result (λ i. i ≡ record { bytes = bytes.entry.now; assembly = assembly }) }
        ensures accepted { OnOk result (NoneBroken (Broken bytes.entry.now assembly)) }
        ensures refused { IfErr result (First (Broken bytes.entry.now assembly)) }
    {
        let (headers, section) = read_headers(bytes, assembly)?;
        let rva = cli_rva(bytes, &headers);
        let cli_offset = section.offset(rva);
        let (cli, section) = read_cli(bytes, assembly, &headers, rva, cli_offset)?;
        let metadata = part(
            bytes,
            section.offset(cli.metadata_rva),
            cli.metadata_len as usize,
        );
        Ok(Image {
            bytes,
            assembly,
            headers,
            cli_offset,
            cli,
            metadata,
        })
    }

    /// The bytes at a range of RVAs, where it lies in one section's raw bytes.
    pub fn at_rva(&self, rva: u32, len: u32) -> Option<&'a [u8]>
        ensures { option_copied result ≡ at_rva self.now.bytes rva len }
    {
        let section = find_section(self.bytes, &self.headers, rva, len)?;
        Some(part(self.bytes, section.offset(rva), len as usize))
    }

    /// The bytes from an RVA to the end of its section's raw bytes, where they hold the RVA.
    pub fn tail(&self, rva: u32) -> Option<&'a [u8]>
        ensures { option_copied result ≡ tail_at self.now.bytes rva }
    {
        let section = find_section(self.bytes, &self.headers, rva, 1)?;
        Some(part(self.bytes, section.offset(rva), section.left(rva)))
    }

    /// The metadata root and all behind it (ECMA-335, II.24.2.1).
    pub fn metadata(&self) -> &'a [u8]
        ensures { result.now ≡ metadata_of self.now.bytes }
    {
        self.metadata
    }

    /// The CLI header.
    pub fn cli(&self) -> CliHeader
        ensures { result ≡ cli_of self.now.bytes }
    {
        self.cli
    }

    /// The RVA of a new section. P5 where there is no room for its header.
    pub fn room(&self) -> Result<u32, Refusal>
        ensures { result ≡ room_of self.now.bytes self.now.assembly }
    {
        room(self.bytes, self.assembly, &self.headers)
    }
}

/// The image with one more section `.ccrw` of these bytes, whose metadata stands at an RVA in it. All
/// else is as the definition of a grown image says. P5 and L6.
pub fn write_image(
    alloc: Global,
    img: &Image<'_>,
    section: &[u8],
    metadata_rva: u32,
    metadata_len: u32,
) -> Result<Bytes, Fault>
    requires short { length section.now < 2 ^ 32 }
    // where there is room for the section, the metadata lies in it
    requires metadata { IfOk (room_of img.now.bytes img.now.assembly) (λ room. (room ≤ metadata_rva) × (metadata_rva + metadata_len ≤ room + length section.now)) }
    ensures ok { IfOk result (λ out. grown_of img.now.bytes img.now.assembly section.now metadata_rva metadata_len ≡ Ok out) }
    ensures short { IfOk result (λ out. length out ≤ IMAGE_LIMIT) }
    ensures kept { IfOk result (λ out. KeepsBytes img.now.bytes out) }
    ensures grows { IfOk result (Grows img.now.bytes img.now.assembly section.now metadata_rva metadata_len) }
    ensures placed { IfOk result (λ out. part out (new_offset img.now.bytes (length section.now)) (length section.now) ≡ section.now) }
    ensures refused { OnRefused result (λ r. grown_of img.now.bytes img.now.assembly section.now metadata_rva metadata_len ≡ Err r) }
    // P5 and L6 are tested before memory is taken.
    ensures memory { OnMemory result (IsOk (grown_of img.now.bytes img.now.assembly section.now metadata_rva metadata_len)) }
{
    let cli = img.cli.with_metadata(metadata_rva, metadata_len);
    write(
        alloc,
        img.bytes,
        img.assembly,
        &img.headers,
        img.cli_offset,
        &cli,
        section,
    )
}
