// The section table (ECMA-335, II.25.3).
ghost use Rattle.std.specs.Prelude.{◌≡◌, ◌+◌, ◌-◌, ◌*◌, ◌<◌, ◌≤◌, ◌^◌, length, IfNone};
ghost use Rattle.cil_base.specs.Refusals.{first_of};
ghost use Rattle.pe_image.specs.Headers.{table_end};
ghost use Rattle.pe_image.specs.Sections.{section_of};
ghost use Rattle.pe_image.specs.Rules.{section_tests};

use crate::fields::{Field, first_cut, refusal_at};
use crate::headers::Headers;
use cil_base::{Refusal, Rule, read_u32_at};

/// A section, by its header: where it stands in memory and in the file.
#[derive(Clone, Copy)]
pub struct Section {
    pub virtual_size: u32,
    /// The RVA of its first byte.
    pub address: u32,
    pub raw_size: u32,
    /// The offset of its first raw byte in the file.
    pub raw_at: u32,
}

static SECTION_FIELDS: [Field; 6] = [
    Field {
        offset: 0,
        width: 8,
    },
    Field {
        offset: 8,
        width: 4,
    },
    Field {
        offset: 12,
        width: 4,
    },
    Field {
        offset: 16,
        width: 4,
    },
    Field {
        offset: 20,
        width: 4,
    },
    Field {
        offset: 36,
        width: 4,
    },
];

impl Section {
    ghost use Rattle.pe_image.specs.Sections.{section_at, holds, offset_in, address_end, raw_end};
    ghost use Rattle.pe_image.specs.Rules.{is_misplaced};
    ghost use Rattle.pe_image.specs.Written.{moved_offset};

    /// The section whose header stands at `at`.
    pub fn read(bytes: &[u8], at: usize) -> Section
        requires { at + 40 ≤ length bytes.now }
        ensures { result ≡ section_at bytes.now at }
    {
        Section {
            virtual_size: read_u32_at(bytes, at + 8).unwrap(),
            address: read_u32_at(bytes, at + 12).unwrap(),
            raw_size: read_u32_at(bytes, at + 16).unwrap(),
            raw_at: read_u32_at(bytes, at + 20).unwrap(),
        }
    }

    /// Whether its raw bytes have the whole range of RVAs.
    pub fn holds(&self, rva: u32, len: u32) -> bool
        ensures { result ≡ holds rva len self.now }
    {
        self.address <= rva
            && u64::from(rva) + u64::from(len) <= u64::from(self.address) + u64::from(self.raw_size)
    }

    /// The offset in the file of an RVA of its raw bytes.
    pub fn offset(&self, rva: u32) -> usize
        ensures { result ≡ offset_in self.now rva }
    {
        self.raw_at as usize + rva.saturating_sub(self.address) as usize
    }

    /// The number of raw bytes from an RVA on.
    pub fn left(&self, rva: u32) -> usize
        ensures { result ≡ self.now.address + self.now.raw_size - rva }
    {
        (self.address as usize + self.raw_size as usize).saturating_sub(rva as usize)
    }

    /// The offset of its raw bytes, where all raw bytes move by as much.
    pub fn moved_offset(&self, by: u32) -> u32
        requires { 0 < self.now.raw_size → self.now.raw_at + by < 2 ^ 32 }
        ensures { result ≡ moved_offset self.now by }
    {
        if self.raw_size > 0 {
            self.raw_at + by
        } else {
            self.raw_at
        }
    }

    /// The end of its RVAs.
    pub fn address_end(&self) -> u64
        ensures end { result ≡ address_end self.now }
        ensures small { result < 2 ^ 33 }
    {
        u64::from(self.address) + u64::from(self.virtual_size.max(self.raw_size))
    }

    /// The end of its raw bytes in the file.
    pub fn raw_end(&self) -> u64
        ensures { result ≡ raw_end self.now }
    {
        u64::from(self.raw_at) + u64::from(self.raw_size)
    }

    fn is_misplaced(&self, bytes: &[u8], address_floor: u64, raw_floor: u64) -> bool
        ensures { result ≡ is_misplaced bytes.now address_floor raw_floor self.now }
    {
        u64::from(self.address) < address_floor
            || self.raw_size > 0
                && (u64::from(self.raw_at) < raw_floor || self.raw_end() > bytes.len() as u64)
    }
}

/// The section that has the whole range of RVAs in its raw bytes.
pub fn find_section(bytes: &[u8], headers: &Headers, rva: u32, len: u32) -> Option<Section>
    requires { 0 < headers.now.count → table_end headers.now ≤ length bytes.now }
    ensures { result ≡ section_of bytes.now headers.now rva len }
{
    for i in 0..headers.count {
        let section = Section::read(bytes, headers.sections + 40 * i);
        if section.holds(rva, len) {
            return Some(section);
        }
    }
    None
}

/// The first section that is out of place, or the first field of a header that passes the end of the
/// file, where the headers end at `size`.
pub fn section_fault(bytes: &[u8], assembly: u32, headers: &Headers, size: u32) -> Option<Refusal>
    requires short { length bytes.now < 2 ^ 32 }
    requires sections { headers.now.sections < 2 ^ 33 }
    requires count { headers.now.count < 2 ^ 16 }
    ensures tests { result ≡ first_of (section_tests bytes.now assembly size size headers.now.sections headers.now.count) }
    // A table that is in order is whole.
    ensures whole { IfNone result (0 < headers.now.count → table_end headers.now ≤ length bytes.now) }
{
    let mut address_floor = u64::from(size);
    let mut raw_floor = u64::from(size);
    for i in 0..headers.count {
        let at = headers.sections + 40 * i;
        if bytes.len() < at + 40 {
            return first_cut(bytes, assembly, at, &SECTION_FIELDS);
        }
        let section = Section::read(bytes, at);
        if section.is_misplaced(bytes, address_floor, raw_floor) {
            return Some(refusal_at(Rule::P3, assembly, at));
        }
        address_floor = section.address_end();
        if section.raw_size > 0 {
            raw_floor = section.raw_end();
        }
    }
    None
}
