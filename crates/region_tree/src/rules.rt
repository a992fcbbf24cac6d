// The first rule on regions that a body breaks.
ghost use Rattle.std.specs.Prelude.{◌≡◌, ◌<◌, ◌^◌, length, map, true, IfOk, MatchOption, None};
ghost use Rattle.std.specs.List.{enumerate_from, list_any};
ghost use Rattle.cil_base.specs.Refusals.{First, NoneBroken};
ghost use Rattle.il_flow.specs.Lowest.{lowest};
ghost use Rattle.region_tree.specs.Nesting.{depths_of};
ghost use Rattle.region_tree.specs.Extents.{KeepsControl};
ghost use Rattle.region_tree.specs.Rules.{BreaksControl, edge_test, end_test, filter_test, is_filter, nesting_test, the_tests};

use crate::edges::{breaks_region, is_out_of_place};
use crate::nesting::{breaks_nesting, depths_of};
use crate::order::stand_in_order;
use crate::plain::is_code_plain;
use cil_base::{Place, Refusal, Rule};
use cil_model::{Body, Instr, Region, RegionKind};
use il_flow::{lowered, offset_of};
use std::alloc::{AllocError, Global};

fn is_filter(kind: &RegionKind) -> bool
    ensures { result ≡ is_filter kind.now }
{
    match kind {
        RegionKind::Filter(_) => true,
        _ => false,
    }
}

fn filter_fault(body: &Body, place: Place, first: Option<Refusal>) -> Option<Refusal>
    ensures { result ≡ lowest first (map (filter_test place body.now) body.now.regions) }
{
    let mut best = first;
    for region in body.regions.as_slice() {
        let found = place.refusal(Rule::X1, offset_of(&body.offsets, region.try_from));
        best = lowered(best, found, is_filter(&region.kind));
    }
    best
}

fn nesting_fault(
    body: &Body,
    depths: &[usize],
    place: Place,
    first: Option<Refusal>,
) -> Option<Refusal>
    requires { depths.now ≡ depths_of body.now.regions }
    ensures { result ≡ lowest first (map (nesting_test place body.now) (enumerate_from 0 body.now.regions)) }
{
    let mut best = first;
    let regions = body.regions.as_slice();
    for k in 0..regions.len() {
        let found = place.refusal(Rule::X2, offset_of(&body.offsets, regions[k].try_from));
        best = lowered(
            best,
            found,
            breaks_nesting(&regions[..k], &regions[k], depths[k]),
        );
    }
    best
}

fn edge_fault(body: &Body, place: Place, first: Option<Refusal>) -> Option<Refusal>
    requires { length body.now.instrs < 2 ^ 32 }
    ensures { result ≡ lowest first (map (edge_test place body.now) (enumerate_from 0 body.now.instrs)) }
{
    let mut best = first;
    let instrs = body.instrs.as_slice();
    for k in 0..instrs.len() {
        let at = k as u32;
        let found = place.refusal(Rule::X3, offset_of(&body.offsets, at));
        best = lowered(
            best,
            found,
            breaks_region(body.regions.as_slice(), at, &instrs[k]),
        );
    }
    best
}

fn end_fault(body: &Body, place: Place, first: Option<Refusal>) -> Option<Refusal>
    requires { length body.now.instrs < 2 ^ 32 }
    ensures { result ≡ lowest first (map (end_test place body.now) (enumerate_from 0 body.now.instrs)) }
{
    let mut best = first;
    let instrs = body.instrs.as_slice();
    for k in 0..instrs.len() {
        let at = k as u32;
        let found = place.refusal(Rule::X4, offset_of(&body.offsets, at));
        best = lowered(
            best,
            found,
            is_out_of_place(body.regions.as_slice(), at, &instrs[k]),
        );
    }
    best
}

#[tactic(auto, using(crate::proofs::ControlLaws::lowest_of_four))]
fn lowest_fault(body: &Body, depths: &[usize], place: Place) -> Option<Refusal>
    requires few { length body.now.instrs < 2 ^ 32 }
    requires depths { depths.now ≡ depths_of body.now.regions }
    ensures { result ≡ lowest None (the_tests place body.now) }
{
    let filter = filter_fault(body, place, None);
    let nesting = nesting_fault(body, depths, place, filter);
    let edge = edge_fault(body, place, nesting);
    end_fault(body, place, edge)
}

fn any_filter(regions: &[Region]) -> bool
    ensures { result ≡ list_any (λ r. is_filter r.kind) regions.now }
{
    for region in regions {
        if is_filter(&region.kind) {
            return true;
        }
    }
    false
}

/// Whether a body is found to break none of X1 to X4, in one pass over its table and its code. A table
/// in an unusual order isn't looked at.
fn is_plain(alloc: Global, regions: &[Region], instrs: &[Instr]) -> Result<bool, AllocError>
    requires { length instrs.now < 2 ^ 32 }
    ensures { IfOk result (λ b. b ≡ true → KeepsControl regions.now instrs.now) }
{
    if regions.len() >= u32::MAX as usize || any_filter(regions) {
        return Ok(false);
    }
    if !stand_in_order(alloc, regions)? {
        return Ok(false);
    }
    is_code_plain(alloc, regions, instrs)
}

/// The first of X1 to X4 that a body breaks, at the offset of the region's try or of the instruction
/// (ECMA-335, III.1.7.5).
#[tactic(auto, using(crate::proofs::ControlLaws::first_broken))]
pub fn control_fault(
    alloc: Global,
    body: &Body,
    place: Place,
) -> Result<Option<Refusal>, AllocError>
    requires { length body.now.instrs < 2 ^ 32 }
    ensures { IfOk result (λ fault. MatchOption fault (NoneBroken (BreaksControl place body.now)) (First (BreaksControl place body.now))) }
{
    let regions = body.regions.as_slice();
    let plain = is_plain(alloc, regions, body.instrs.as_slice())?;
    if plain {
        return Ok(None);
    }
    let depths = depths_of(alloc, regions)?;
    let fault = lowest_fault(body, &depths, place);
    Ok(fault)
}
