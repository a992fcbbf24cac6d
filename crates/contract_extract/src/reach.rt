// How far ranges of places reach, found in one pass over the code or the regions.

ghost use Rattle.std.specs.Prelude.{◌≡◌, ◌+◌, ◌<◌, ◌^◌, [], ◌∷◌, length, map, replicate, get_or, IfOk};
ghost use Rattle.il_flow.specs.Successors.{targets};
ghost use Rattle.contract_extract.specs.Reach.{crossed_over, all_crossed, region_parts, all_parts, all_farthest, ends_up_to, TellsMore};
ghost use Rattle.contract_extract.specs.Marks.{IsReach};

use cil_model::{Instr, Operand, Region};
use contract_parts::Code;
use std::alloc::{AllocError, Global};

/// How far the ranges reach that branches of a body cross, and the parts of its regions.
#[derive(Drop)]
pub struct Reach {
    pub(crate) crossed: Vec<u32>,
    pub(crate) regions: Vec<u32>,
}

/// Notes that a range begins at a place and ends at another.
fn hold(ends: &mut [u32], from: usize, to: u32)
    ensures { TellsMore ends.old ends.new ((from, to) ∷ []) }
{
    if from < ends.len() && ends[from] < to {
        ends[from] = to;
    }
}

/// Notes the places that a branch crosses.
fn hold_branch(ends: &mut [u32], at: u32, target: u32)
    requires { at + 1 < 2 ^ 32 }
    ensures { TellsMore ends.old ends.new (crossed_over at target ∷ []) }
{
    if at < target {
        hold(ends, at as usize + 1, target)
    } else {
        hold(ends, target as usize, at)
    }
}

/// Notes the places that the branches of an instruction cross.
fn hold_branches(ends: &mut [u32], at: u32, operand: &Operand)
    requires { at + 1 < 2 ^ 32 }
    ensures { TellsMore ends.old ends.new (map (crossed_over at) (targets operand.now)) }
{
    match operand {
        Operand::Target(target) => hold_branch(ends, at, *target),
        Operand::Targets(targets) => {
            for target in targets.as_slice() {
                hold_branch(ends, at, *target);
            }
        }
        _ => {}
    }
}

fn hold_code(ends: &mut [u32], instrs: &[Instr])
    requires { length instrs.now < 2 ^ 32 }
    ensures { TellsMore ends.old ends.new (all_crossed instrs.now) }
{
    for k in 0..instrs.len() {
        hold_branches(ends, k as u32, &instrs[k].operand);
    }
}

#[tactic(auto, using(crate::proofs::ReachLaws::tells_both))]
fn hold_region(ends: &mut [u32], region: &Region)
    ensures { TellsMore ends.old ends.new (region_parts region.now) }
{
    hold(ends, region.try_from as usize, region.try_to);
    hold(ends, region.handler_from as usize, region.handler_to);
}

#[tactic(auto, using(crate::proofs::ReachLaws::tells_both))]
fn hold_regions(ends: &mut [u32], regions: &[Region])
    ensures { TellsMore ends.old ends.new (all_parts regions.now) }
{
    for region in regions {
        hold_region(ends, region);
    }
}

/// Where the last of the ranges ends that begin at each place or before it, by the ends of those
/// that begin at each.
fn spread(alloc: Global, ends: &[u32]) -> Result<Vec<u32>, AllocError>
    ensures { IfOk result (λ out. out.items ≡ ends_up_to ends.now (length ends.now)) }
{
    let mut out = Vec::new(alloc);
    let mut farthest = 0u32;
    for q in 0..ends.len() {
        farthest = farthest.max(ends[q]);
        out.push(farthest)?;
    }
    Ok(out)
}

fn ends_of_code(alloc: Global, instrs: &[Instr]) -> Result<Vec<u32>, AllocError>
    requires { length instrs.now < 2 ^ 32 }
    ensures { IfOk result (λ ends. TellsMore (replicate (length instrs.now) 0) ends.items (all_crossed instrs.now)) }
{
    let mut ends = vec![in alloc; 0u32; instrs.len()]?;
    hold_code(&mut ends, instrs);
    Ok(ends)
}

fn ends_of_regions(alloc: Global, size: usize, regions: &[Region]) -> Result<Vec<u32>, AllocError>
    ensures { IfOk result (λ ends. TellsMore (replicate size 0) ends.items (all_parts regions.now)) }
{
    let mut ends = vec![in alloc; 0u32; size]?;
    hold_regions(&mut ends, regions);
    Ok(ends)
}

/// Where the last of the ranges ends that branches cross up to each place.
fn crossed_ends(alloc: Global, instrs: &[Instr]) -> Result<Vec<u32>, AllocError>
    requires { length instrs.now < 2 ^ 32 }
    ensures { IfOk result (λ out. out.items ≡ all_farthest (length instrs.now) (all_crossed instrs.now)) }
{
    let ends = ends_of_code(alloc, instrs)?;
    spread(alloc, &ends)
}

/// The same of the parts of regions, up to each of so many places.
fn region_ends(alloc: Global, size: usize, regions: &[Region]) -> Result<Vec<u32>, AllocError>
    ensures { IfOk result (λ out. out.items ≡ all_farthest size (all_parts regions.now)) }
{
    let ends = ends_of_regions(alloc, size, regions)?;
    spread(alloc, &ends)
}

/// Where the last of the ranges ends that begin up to a place.
pub(crate) fn end_at(ends: &[u32], place: u32) -> u32
    ensures { result ≡ get_or ends.now place 0 }
{
    ends.get(place as usize).copied().unwrap_or(0)
}

impl Reach {
    pub fn new(alloc: Global, code: &Code) -> Result<Reach, AllocError>
        ensures { IfOk result (IsReach code.now) }
    {
        let instrs = code.instrs();
        let crossed = crossed_ends(alloc, instrs)?;
        let regions = region_ends(alloc, instrs.len(), code.regions())?;
        Ok(Reach { crossed, regions })
    }
}
