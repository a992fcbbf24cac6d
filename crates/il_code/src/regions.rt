// Regions by indexes of instructions.
ghost use Rattle.std.specs.Prelude.{◌≡◌, ◌<◌, ◌^◌, ◌+◌, length, Some, IfOk};
ghost use Rattle.cil_model.specs.BodyOf.{kind_of, map_all, index_of, region_of};
ghost use Rattle.il_code.specs.Answers.{Rise};

use crate::targets::{end_index_in, index_in};
use cil_base::Token;
use cil_model::{RawClause, Region, RegionKind, Regions};
use std::alloc::{AllocError, Global};

fn kind_in(offsets: &[u32], clause: RawClause) -> Option<RegionKind>
    requires rise { Rise offsets.now }
    requires few { length offsets.now < 2 ^ 32 }
    ensures { result ≡ kind_of offsets.now clause }
{
    match clause.flags {
        0 => Some(RegionKind::Catch(Token::from_u32(clause.last))),
        1 => {
            let filter = index_in(offsets, clause.last as u64)?;
            Some(RegionKind::Filter(filter))
        }
        2 => Some(RegionKind::Finally),
        4 => Some(RegionKind::Fault),
        _ => None,
    }
}

/// A clause by indexes of instructions; None where a part begins or ends at no instruction.
fn region_in(offsets: &[u32], size: u32, clause: RawClause) -> Option<Region>
    requires rise { Rise offsets.now }
    requires few { length offsets.now < 2 ^ 32 }
    ensures { result ≡ region_of offsets.now size clause }
{
    let kind = kind_in(offsets, clause)?;
    let try_from = index_in(offsets, clause.try_from as u64)?;
    let try_end = clause.try_from as u64 + clause.try_size as u64;
    let try_to = end_index_in(offsets, size, try_end)?;
    let handler_from = index_in(offsets, clause.handler_from as u64)?;
    let handler_end = clause.handler_from as u64 + clause.handler_size as u64;
    let handler_to = end_index_in(offsets, size, handler_end)?;
    Some(Region {
        kind,
        try_from,
        try_to,
        handler_from,
        handler_to,
    })
}

/// The clauses by indexes of instructions; None where a part of one begins or ends at no instruction.
pub(crate) fn regions_in(
    alloc: Global,
    offsets: &[u32],
    size: u32,
    clauses: &[RawClause],
) -> Result<Option<Regions>, AllocError>
    requires rise { Rise offsets.now }
    requires few { length offsets.now < 2 ^ 32 }
    ensures { IfOk result (λ regions. regions ≡ map_all (region_of offsets.now size) clauses.now) }
{
    let mut regions = Regions::new(alloc);
    for clause in clauses {
        let Some(region) = region_in(offsets, size, *clause) else {
            return Ok(None);
        };
        regions.push(region)?;
    }
    Ok(Some(regions))
}
