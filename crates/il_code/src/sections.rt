// The exception sections behind the code.
ghost use Rattle.std.specs.Prelude.{◌≡◌, ◌<◌, ◌≤◌, ◌^◌, ◌+◌, ◌*◌, length, Option, Some, None, ◌++◌, IfSome, IfOk, OnOk};
ghost use Rattle.std.specs.List.{list_all};
ghost use Rattle.std.specs.Option.{option_map};
ghost use Rattle.cil_model.specs.BodyLayout.{aligned, are_sized, section_at, width, clause_at, is_kind, small_clause, fat_clause, clauses_of, sections_at};

use crate::header::has_bit;
use crate::numbers::{four_in, one_in, two_in};
use cil_base::read_u32_at;
use cil_model::{RawClause, RawClauses, Section};
use std::alloc::{AllocError, Global};

/// The next multiple of four.
fn align(at: usize) -> usize
    requires { at < 2 ^ 32 }
    ensures value { result ≡ aligned at }
    ensures behind { at ≤ result }
{
    (at + 3) / 4 * 4
}

fn width_of(fat: bool) -> usize
    ensures value { result ≡ width fat }
    ensures some { 0 < result }
{
    if fat { 24 } else { 12 }
}

fn is_sized(fat: bool, size: usize) -> bool
    ensures { result ≡ are_sized fat size }
{
    size >= 4 && (size - 4) % width_of(fat) == 0 && (fat || size < 0x100)
}

/// The section at an offset; None where it isn't whole or has other bits.
fn read_section(bytes: &[u8], at: usize) -> Option<Section>
    requires { length bytes.now < 2 ^ 32 }
    ensures value { result ≡ section_at bytes.now at }
    ensures within { IfSome result (λ s. (s.from + width s.fat * s.count ≤ s.end) × (s.end ≤ length bytes.now) × (at < s.end)) }
{
    let v = read_u32_at(bytes, at)?;
    let fat = has_bit(0x40, v);
    let kind = v % 0x100;
    let size = (v / 0x100) as usize;
    if kind % 0x40 != 1 || !is_sized(fat, size) || at + size > bytes.len() {
        return None;
    }
    Some(Section {
        fat,
        more: has_bit(0x80, kind),
        from: at as u32 + 4,
        count: ((size - 4) / width_of(fat)) as u32,
        end: (at + size) as u32,
    })
}

fn read_small(bytes: &[u8], at: usize) -> RawClause
    requires { at + 12 ≤ length bytes.now }
    ensures { result ≡ small_clause bytes.now at }
{
    RawClause {
        flags: two_in(bytes, at) as u32,
        try_from: two_in(bytes, at + 2) as u32,
        try_size: one_in(bytes, at + 4) as u32,
        handler_from: two_in(bytes, at + 5) as u32,
        handler_size: one_in(bytes, at + 7) as u32,
        last: four_in(bytes, at + 8),
    }
}

fn read_big(bytes: &[u8], at: usize) -> RawClause
    requires { at + 24 ≤ length bytes.now }
    ensures { result ≡ fat_clause bytes.now at }
{
    RawClause {
        flags: four_in(bytes, at),
        try_from: four_in(bytes, at + 4),
        try_size: four_in(bytes, at + 8),
        handler_from: four_in(bytes, at + 12),
        handler_size: four_in(bytes, at + 16),
        last: four_in(bytes, at + 20),
    }
}

/// The clause at an offset.
fn read_clause(fat: bool, bytes: &[u8], at: usize) -> RawClause
    requires { at + width fat ≤ length bytes.now }
    ensures { result ≡ clause_at fat bytes.now at }
{
    if fat {
        read_big(bytes, at)
    } else {
        read_small(bytes, at)
    }
}

fn is_known(clause: RawClause) -> bool
    ensures { result ≡ is_kind clause }
{
    clause.flags == 0 || clause.flags == 1 || clause.flags == 2 || clause.flags == 4
}

/// Whether each clause of a section is of a known kind.
fn all_known(bytes: &[u8], section: Section) -> bool
    requires { section.from + width section.fat * section.count ≤ length bytes.now }
    ensures { result ≡ list_all is_kind (clauses_of bytes.now section) }
{
    let count = section.count as usize;
    let size = width_of(section.fat);
    for k in 0..count {
        let clause = read_clause(section.fat, bytes, section.from as usize + size * k);
        if !is_known(clause) {
            return false;
        }
    }
    true
}

/// Where the last section behind an offset ends; None where one isn't whole or has other bits.
pub(crate) fn sections_end(bytes: &[u8], from: usize) -> Option<u32>
    requires small { length bytes.now < 2 ^ 32 }
    requires inside { from ≤ length bytes.now }
    ensures value { result ≡ option_map (λ x. x.1) (sections_at bytes.now (length bytes.now) from) }
{
    let mut at = from;
    'sections: loop {
        let Some(section) = read_section(bytes, align(at)) else {
            return None;
        };
        if !all_known(bytes, section) {
            return None;
        }
        if !section.more {
            return Some(section.end);
        }
        at = section.end as usize;
    }
}

/// The clauses of a section, at the end of those of the sections before it.
fn push_clauses(out: &mut RawClauses, bytes: &[u8], section: Section) -> Result<(), AllocError>
    requires { section.from + width section.fat * section.count ≤ length bytes.now }
    ensures { OnOk result (out.new ≡ out.old ++ clauses_of bytes.now section) }
{
    let count = section.count as usize;
    let size = width_of(section.fat);
    for k in 0..count {
        let clause = read_clause(section.fat, bytes, section.from as usize + size * k);
        out.push(clause)?;
    }
    Ok(())
}

/// The clauses of the sections behind an offset, and where the last one ends; None where a section
/// isn't whole or has other bits.
pub(crate) fn read_sections(
    alloc: Global,
    bytes: &[u8],
    from: usize,
) -> Result<Option<(RawClauses, u32)>, AllocError>
    requires small { length bytes.now < 2 ^ 32 }
    requires inside { from ≤ length bytes.now }
    ensures value { IfOk result (λ read. read ≡ sections_at bytes.now (length bytes.now) from) }
{
    let mut clauses = RawClauses::new(alloc);
    let mut at = from;
    'sections: loop {
        let Some(section) = read_section(bytes, align(at)) else {
            return Ok(None);
        };
        if !all_known(bytes, section) {
            return Ok(None);
        }
        push_clauses(&mut clauses, bytes, section)?;
        if !section.more {
            return Ok(Some((clauses, section.end)));
        }
        at = section.end as usize;
    }
}
