// The exception sections behind the code.
#![tactic(auto, unfolding(cil_base::specs::Bytes::number_bytes))]

ghost use Rattle.std.specs.Prelude.{◌≡◌, ℕ, ◌+◌, ◌-◌, ◌*◌, ◌<◌, ◌≤◌, ◌^◌, ◌++◌, length, map, flat_map, OnOk};
ghost use Rattle.cil_model.specs.BodyLayout.{aligned};
ghost use Rattle.cil_model.specs.ValidBody.{AllValidRegions, IsValidKind, IsValidRegion};
ghost use Rattle.il_body.specs.BodyEncoding.{behind_code, clause_bytes, clause_limit, clause_of, flags_of, last_of, section_bytes, sections};

use cil_base::{padding, push_u32, push_zeros};
use cil_model::{RawClause, Region, RegionKind};
use std::alloc::AllocError;

/// The most clauses whose section has a size of three bytes.
#[tactic(auto, unfolding(crate::specs::BodyEncoding::clause_limit))]
fn limit() -> usize
    ensures value { result ≡ clause_limit }
    ensures size { 24 * clause_limit < 2 ^ 24 - 4 }
    ensures some { 0 < clause_limit }
{
    699_050
}

fn kind_flags(kind: &RegionKind) -> u32
    ensures { result ≡ flags_of kind.now }
{
    match kind {
        RegionKind::Catch(_) => 0,
        RegionKind::Filter(_) => 1,
        RegionKind::Finally => 2,
        RegionKind::Fault => 4,
    }
}

/// The token of a class or the offset of a filter.
fn last_number(offsets: &[u32], kind: &RegionKind) -> u32
    requires { (count : ℕ) × (count ≤ length offsets.now) × IsValidKind count kind.now }
    ensures { result ≡ last_of offsets.now kind.now }
{
    match kind {
        RegionKind::Catch(token) => token.to_u32(),
        RegionKind::Filter(k) => offsets[*k as usize],
        RegionKind::Finally => 0,
        RegionKind::Fault => 0,
    }
}

/// The clause of a region. An end isn't before its beginning.
fn raw_clause(offsets: &[u32], region: &Region) -> RawClause
    requires { (count : ℕ) × (count < length offsets.now) × IsValidRegion count region.now }
    ensures { result ≡ clause_of offsets.now region.now }
{
    let try_from = offsets[region.try_from as usize];
    let handler_from = offsets[region.handler_from as usize];
    RawClause {
        flags: kind_flags(&region.kind),
        try_from,
        try_size: offsets[region.try_to as usize].saturating_sub(try_from),
        handler_from,
        handler_size: offsets[region.handler_to as usize].saturating_sub(handler_from),
        last: last_number(offsets, &region.kind),
    }
}

fn push_clause(out: &mut Vec<u8>, clause: RawClause) -> Result<(), AllocError>
    ensures { OnOk result (out.new.items ≡ out.old.items ++ clause_bytes clause) }
{
    push_u32(out, clause.flags)?;
    push_u32(out, clause.try_from)?;
    push_u32(out, clause.try_size)?;
    push_u32(out, clause.handler_from)?;
    push_u32(out, clause.handler_size)?;
    push_u32(out, clause.last)
}

fn push_clauses(out: &mut Vec<u8>, offsets: &[u32], regions: &[Region]) -> Result<(), AllocError>
    requires { (count : ℕ) × (count < length offsets.now) × AllValidRegions count regions.now }
    ensures { OnOk result (out.new.items ≡ out.old.items ++ flat_map clause_bytes (map (clause_of offsets.now) regions.now)) }
{
    for region in regions {
        push_clause(out, raw_clause(offsets, region))?;
    }
    Ok(())
}

/// A section of fat clauses, behind which another may follow.
fn push_section(
    out: &mut Vec<u8>,
    more: bool,
    offsets: &[u32],
    regions: &[Region],
) -> Result<(), AllocError>
    requires few { 24 * length regions.now < 2 ^ 24 - 4 }
    requires valid { (count : ℕ) × (count < length offsets.now) × AllValidRegions count regions.now }
    ensures { OnOk result (out.new.items ≡ out.old.items ++ section_bytes more (map (clause_of offsets.now) regions.now)) }
{
    let kind = if more { 0xC1 } else { 0x41 };
    push_u32(out, kind + 0x100 * (4 + 24 * regions.len() as u32))?;
    push_clauses(out, offsets, regions)
}

/// As many sections as the clauses ask for.
fn push_each(out: &mut Vec<u8>, offsets: &[u32], regions: &[Region]) -> Result<(), AllocError>
    requires { (count : ℕ) × (count < length offsets.now) × AllValidRegions count regions.now }
    ensures { OnOk result (out.new.items ≡ out.old.items ++ sections (length regions.now) (map (clause_of offsets.now) regions.now)) }
{
    let limit = limit();
    let mut rest = regions;
    while rest.len() > limit {
        push_section(out, true, offsets, &rest[..limit])?;
        rest = &rest[limit..];
    }
    push_section(out, false, offsets, rest)
}

/// What stands behind the code: nothing without regions, and else the sections from the next
/// multiple of four on.
pub(crate) fn push_sections(
    out: &mut Vec<u8>,
    offsets: &[u32],
    regions: &[Region],
) -> Result<(), AllocError>
    requires { (count : ℕ) × (count < length offsets.now) × AllValidRegions count regions.now }
    ensures { OnOk result (out.new.items ≡ out.old.items ++ behind_code (length out.old.items) (map (clause_of offsets.now) regions.now)) }
{
    if regions.is_empty() {
        return Ok(());
    }
    push_zeros(out, padding(4, out.len()))?;
    push_each(out, offsets, regions)
}
