// The headers of an image, and the rules on them (ECMA-335, II.25.2).
ghost use Rattle.std.specs.Prelude.{◌≡◌, ◌+◌, ◌*◌, ◌<◌, ◌≤◌, ◌^◌, length, IfOk, OnOk, IsTrue, Some, None};
ghost use Rattle.cil_base.specs.Refusals.{first_of};
ghost use Rattle.pe_image.specs.Headers.{Fit, Aligned, section_alignment, file_alignment, headers_size, pe_of, headers_at, headers_of, cli_rva, table_end};
ghost use Rattle.pe_image.specs.Sections.{section_of, raw_end};
ghost use Rattle.pe_image.specs.Images.{InOrder};
ghost use Rattle.pe_image.specs.Rules.{section_tests, header_tests, coff_tests, optional_tests, directory_tests, goes_on, is_file_alignment};

use crate::fields::{Field, first_cut, refusal_at};
use crate::section::{Section, find_section, section_fault};
use cil_base::{Refusal, Rule, read_u16_at, read_u32_at};

const MZ: u16 = 0x5A4D;

const PE: u32 = 0x4550;

const PE32: u16 = 0x10B;

const PE32_PLUS: u16 = 0x20B;

/// Where the parts of the headers stand in the file.
#[derive(Clone, Copy)]
pub struct Headers {
    /// The PE signature.
    pub pe: usize,
    /// The data directories.
    pub directories: usize,
    /// The section table.
    pub sections: usize,
    /// The number of sections.
    pub count: usize,
}

/// The offset of the PE signature, where both signatures are there.
pub fn pe_offset(bytes: &[u8], assembly: u32) -> Result<usize, Refusal>
    requires { length bytes.now < 2 ^ 32 }
    ensures tests { first_of (header_tests bytes.now assembly) ≡ goes_on result (first_of (coff_tests bytes.now assembly (pe_of bytes.now))) }
    ensures offset { IfOk result (λ pe. pe ≡ pe_of bytes.now) }
    ensures within { IfOk result (λ pe. pe + 4 ≤ length bytes.now) }
{
    if read_u16_at(bytes, 0) != Some(MZ) {
        return Err(refusal_at(Rule::P1, assembly, 0));
    }
    let Some(pe) = read_u32_at(bytes, 60) else {
        return Err(refusal_at(Rule::P6, assembly, 60));
    };
    if pe < 64 {
        return Err(refusal_at(Rule::P1, assembly, 60));
    }
    if read_u32_at(bytes, pe as usize) != Some(PE) {
        return Err(refusal_at(Rule::P1, assembly, pe as usize));
    }
    Ok(pe as usize)
}

static COFF_FIELDS: [Field; 3] = [
    Field {
        offset: 6,
        width: 2,
    },
    Field {
        offset: 20,
        width: 2,
    },
    Field {
        offset: 24,
        width: 2,
    },
];

static ALIGNMENT_FIELDS: [Field; 2] = [
    Field {
        offset: 56,
        width: 4,
    },
    Field {
        offset: 60,
        width: 4,
    },
];

static SIZE_FIELDS: [Field; 3] = [
    Field {
        offset: 80,
        width: 4,
    },
    Field {
        offset: 84,
        width: 4,
    },
    Field {
        offset: 88,
        width: 4,
    },
];

static DIRECTORY_FIELDS: [Field; 6] = [
    Field {
        offset: 32,
        width: 4,
    },
    Field {
        offset: 36,
        width: 4,
    },
    Field {
        offset: 48,
        width: 4,
    },
    Field {
        offset: 52,
        width: 4,
    },
    Field {
        offset: 112,
        width: 4,
    },
    Field {
        offset: 116,
        width: 4,
    },
];

/// Where the parts of the headers stand, by the COFF header behind the signature at `pe`.
pub fn coff(bytes: &[u8], assembly: u32, pe: usize) -> Result<Headers, Refusal>
    requires short { length bytes.now < 2 ^ 32 }
    requires offset { pe + 4 ≤ length bytes.now }
    ensures tests { first_of (coff_tests bytes.now assembly pe) ≡ goes_on result (first_of (optional_tests bytes.now assembly (headers_at bytes.now pe))) }
    ensures headers { IfOk result (λ h. h ≡ headers_at bytes.now pe) }
    ensures within { IfOk result (λ h. pe + 26 ≤ length bytes.now) }
    ensures fit { IfOk result (λ h. Fit h) }
{
    if bytes.len() < pe + 26 {
        return Err(first_cut(bytes, assembly, pe, &COFF_FIELDS).unwrap());
    }
    let count = read_u16_at(bytes, pe + 6).unwrap();
    let size = read_u16_at(bytes, pe + 20).unwrap();
    let magic = read_u16_at(bytes, pe + 24).unwrap();
    if magic == PE32 && size < 216 || magic == PE32_PLUS && size < 232 {
        return Err(refusal_at(Rule::P2, assembly, pe + 20));
    }
    if magic != PE32 && magic != PE32_PLUS {
        return Err(refusal_at(Rule::P2, assembly, pe + 24));
    }
    let directories = if magic == PE32_PLUS { 112 } else { 96 };
    Ok(Headers {
        pe,
        directories: pe + 24 + directories,
        sections: pe + 24 + usize::from(size),
        count: usize::from(count),
    })
}

static FILE_ALIGNMENTS: [u32; 8] = [512, 1024, 2048, 4096, 8192, 16384, 32768, 65536];

fn is_file_alignment(n: u32) -> bool
    ensures value { result ≡ is_file_alignment n }
    ensures range { IsTrue result → (512 ≤ n) × (n ≤ 65536) }
{
    FILE_ALIGNMENTS.iter().any(|power| n == *power)
}

/// Tests the alignments of sections and of their raw bytes.
pub fn test_alignments(bytes: &[u8], assembly: u32, headers: &Headers) -> Result<(), Refusal>
    requires short { length bytes.now < 2 ^ 32 }
    requires offset { headers.now.pe + 4 ≤ length bytes.now }
    ensures tests { first_of (optional_tests bytes.now assembly headers.now) ≡ goes_on result (first_of (directory_tests bytes.now assembly headers.now)) }
    ensures aligned { OnOk result (Aligned bytes.now headers.now) }
{
    let pe = headers.pe;
    if bytes.len() < pe + 64 {
        return Err(first_cut(bytes, assembly, pe, &ALIGNMENT_FIELDS).unwrap());
    }
    let section = section_alignment(bytes, headers);
    let file = file_alignment(bytes, headers);
    if section < file {
        return Err(refusal_at(Rule::P3, assembly, pe + 56));
    }
    if !is_file_alignment(file) {
        return Err(refusal_at(Rule::P3, assembly, pe + 60));
    }
    Ok(())
}

/// Tests that the directories are there, that a section has the CLI header, and the section table.
/// Gives the section with the CLI header.
pub fn cli_section(bytes: &[u8], assembly: u32, headers: &Headers) -> Result<Section, Refusal>
    requires short { length bytes.now < 2 ^ 32 }
    requires offset { headers.now.pe + 26 ≤ length bytes.now }
    requires fit { Fit headers.now }
    ensures tests { first_of (directory_tests bytes.now assembly headers.now) ≡ goes_on result None }
    ensures section { IfOk result (λ s. section_of bytes.now headers.now (cli_rva bytes.now headers.now) 72 ≡ Some s) }
    ensures within { IfOk result (λ s. raw_end s ≤ length bytes.now) }
    ensures whole { OnOk result (table_end headers.now ≤ length bytes.now) }
    ensures sections { OnOk result (first_of (section_tests bytes.now assembly (headers_size bytes.now headers.now) (headers_size bytes.now headers.now) headers.now.sections headers.now.count) ≡ None) }
{
    let Headers {
        pe,
        directories,
        sections,
        count,
    } = *headers;
    if bytes.len() < directories + 120 {
        if let Some(refusal) = first_cut(bytes, assembly, pe, &SIZE_FIELDS) {
            return Err(refusal);
        }
        return Err(first_cut(bytes, assembly, directories, &DIRECTORY_FIELDS).unwrap());
    }
    let size = headers_size(bytes, headers);
    let rva = cli_rva(bytes, headers);
    if count > 0 && bytes.len() < sections + 40 * count {
        return Err(section_fault(bytes, assembly, headers, size).unwrap());
    }
    let Some(section) = find_section(bytes, headers, rva, 72) else {
        return Err(refusal_at(Rule::P4, assembly, directories + 112));
    };
    match section_fault(bytes, assembly, headers, size) {
        Some(refusal) => Err(refusal),
        None => Ok(section),
    }
}

/// The RVA of the CLI header.
pub fn cli_rva(bytes: &[u8], headers: &Headers) -> u32
    requires { headers.now.directories + 116 ≤ length bytes.now }
    ensures { result ≡ cli_rva bytes.now headers.now }
{
    read_u32_at(bytes, headers.directories + 112).unwrap()
}

/// Tests the headers. Gives where they stand, and the section with the CLI header.
pub fn read_headers(bytes: &[u8], assembly: u32) -> Result<(Headers, Section), Refusal>
    requires { length bytes.now < 2 ^ 32 }
    ensures tests { first_of (header_tests bytes.now assembly) ≡ goes_on result None }
    ensures headers { IfOk result (λ p. InOrder bytes.now assembly p.0) }
    ensures section { IfOk result (λ p. section_of bytes.now p.0 (cli_rva bytes.now p.0) 72 ≡ Some p.1) }
    ensures within { IfOk result (λ p. raw_end p.1 ≤ length bytes.now) }
{
    let pe = pe_offset(bytes, assembly)?;
    let headers = coff(bytes, assembly, pe)?;
    test_alignments(bytes, assembly, &headers)?;
    let section = cli_section(bytes, assembly, &headers)?;
    Ok((headers, section))
}

/// SectionAlignment.
pub fn section_alignment(bytes: &[u8], headers: &Headers) -> u32
    requires { headers.now.pe + 60 ≤ length bytes.now }
    ensures { result ≡ section_alignment bytes.now headers.now }
{
    read_u32_at(bytes, headers.pe + 56).unwrap()
}

/// FileAlignment.
pub fn file_alignment(bytes: &[u8], headers: &Headers) -> u32
    requires { headers.now.pe + 64 ≤ length bytes.now }
    ensures { result ≡ file_alignment bytes.now headers.now }
{
    read_u32_at(bytes, headers.pe + 60).unwrap()
}

/// SizeOfHeaders.
pub fn headers_size(bytes: &[u8], headers: &Headers) -> u32
    requires { headers.now.pe + 88 ≤ length bytes.now }
    ensures { result ≡ headers_size bytes.now headers.now }
{
    read_u32_at(bytes, headers.pe + 84).unwrap()
}
