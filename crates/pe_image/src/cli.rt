// The CLI header (ECMA-335, II.25.3.3).
ghost use Rattle.std.specs.Prelude.{◌≡◌, ◌+◌, ◌<◌, ◌≤◌, ◌^◌, length, Some, None, IfOk};
ghost use Rattle.cil_base.specs.Refusals.{first_of};
ghost use Rattle.pe_image.specs.Headers.{table_end};
ghost use Rattle.pe_image.specs.Sections.{section_of};
ghost use Rattle.pe_image.specs.Cli.{cli_at};
ghost use Rattle.pe_image.specs.Rules.{cli_tests_at, goes_on};

use crate::fields::refusal_at;
use crate::headers::Headers;
use crate::section::{Section, find_section};
use cil_base::{Refusal, Rule, read_u32_at};

/// The CLI header of an image.
#[derive(Clone, Copy)]
pub struct CliHeader {
    /// Where it stands itself.
    pub header_rva: u32,
    pub metadata_rva: u32,
    pub metadata_len: u32,
    pub flags: u32,
    /// The entry point, as a token.
    pub entry: u32,
}

/// ILONLY, and the flag of a native entry point.
const KIND_FLAGS: u32 = 0x11;

const IL_ONLY: u32 = 1;

/// All flags but STRONGNAMESIGNED.
const NOT_SIGNED: u32 = 0xFFFF_FFF7;

impl CliHeader {
    ghost use Rattle.pe_image.specs.Written.{grown_cli};

    /// The CLI header with other metadata, and without a strong name.
    pub fn with_metadata(&self, metadata_rva: u32, metadata_len: u32) -> CliHeader
        ensures { result ≡ grown_cli self.now metadata_rva metadata_len }
    {
        CliHeader {
            header_rva: self.header_rva,
            metadata_rva,
            metadata_len,
            flags: self.flags & NOT_SIGNED,
            entry: self.entry,
        }
    }

    /// The CLI header at an RVA, which stands at `at` in the file.
    fn read(bytes: &[u8], rva: u32, at: usize) -> CliHeader
        requires { at + 72 ≤ length bytes.now }
        ensures { result ≡ cli_at bytes.now rva at }
    {
        CliHeader {
            header_rva: rva,
            metadata_rva: read_u32_at(bytes, at + 8).unwrap(),
            metadata_len: read_u32_at(bytes, at + 12).unwrap(),
            flags: read_u32_at(bytes, at + 16).unwrap(),
            entry: read_u32_at(bytes, at + 20).unwrap(),
        }
    }
}

/// Tests the CLI header at an RVA, which stands at `at` in the file. Gives it and the section with the
/// metadata.
pub fn read_cli(
    bytes: &[u8],
    assembly: u32,
    headers: &Headers,
    rva: u32,
    at: usize,
) -> Result<(CliHeader, Section), Refusal>
    requires short { length bytes.now < 2 ^ 32 }
    requires here { at + 72 ≤ length bytes.now }
    requires whole { table_end headers.now ≤ length bytes.now }
    ensures tests { first_of (cli_tests_at bytes.now assembly headers.now at) ≡ goes_on result None }
    ensures cli { IfOk result (λ p. p.0 ≡ cli_at bytes.now rva at) }
    ensures section { IfOk result (λ p. section_of bytes.now headers.now p.0.metadata_rva p.0.metadata_len ≡ Some p.1) }
{
    let cli = CliHeader::read(bytes, rva, at);
    let Some(section) = find_section(bytes, headers, cli.metadata_rva, cli.metadata_len) else {
        return Err(refusal_at(Rule::P4, assembly, at + 8));
    };
    if cli.flags & KIND_FLAGS != IL_ONLY {
        return Err(refusal_at(Rule::P4, assembly, at + 16));
    }
    Ok((cli, section))
}
