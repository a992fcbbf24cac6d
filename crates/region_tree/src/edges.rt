// What control may do at the edges of regions.
ghost use Rattle.std.specs.Prelude.{◌≡◌, ◌+◌, ◌<◌, ◌^◌, ◌&&◌, ◌||◌, not, ◌==◌, length};
ghost use Rattle.std.specs.List.{list_any};
ghost use Rattle.il_opcodes.specs.Opcodes.{class_of, class_or, opcode_of};
ghost use Rattle.cil_semantics.specs.Unwind.{holds_place, in_try};
ghost use Rattle.il_flow.specs.Successors.{successors, targets};
ghost use Rattle.region_tree.specs.Rules.{breaks_region, crosses, goes_in, goes_out, in_handler, in_region, is_endfinally, is_leave, is_out_of_place, is_ret, is_rethrow, may_end, may_leave, may_rethrow};

use cil_model::{Instr, Operand, Region, RegionKind};
use il_flow::falls_through;
use il_opcodes::{Class, Opcode, find_opcode};

pub(crate) fn class_or(found: Option<Opcode>) -> Class
    ensures { result ≡ class_or found }
{
    match found {
        Some(opcode) => opcode.class,
        None => Class::Unsupported,
    }
}

#[tactic(auto, unfolding(il_opcodes::specs::Opcodes::class_of))]
fn class_of(op: u16) -> Class
    ensures { result ≡ class_of op }
{
    class_or(find_opcode(op))
}

pub(crate) fn is_ret(class: Class) -> bool
    ensures { result ≡ is_ret class }
{
    match class {
        Class::Return => true,
        _ => false,
    }
}

pub(crate) fn is_leave(class: Class) -> bool
    ensures { result ≡ is_leave class }
{
    match class {
        Class::Leave => true,
        _ => false,
    }
}

fn in_try(region: &Region, at: u32) -> bool
    ensures { result ≡ in_try region.now at }
{
    region.try_from <= at && at < region.try_to
}

fn in_handler(region: &Region, at: u32) -> bool
    ensures { result ≡ in_handler region.now at }
{
    region.handler_from <= at && at < region.handler_to
}

pub(crate) fn goes_out(region: &Region, at: u32, to: u32) -> bool
    ensures { result ≡ goes_out region.now at to }
{
    (in_try(region, at) && !in_try(region, to))
        || (in_handler(region, at) && !in_handler(region, to))
}

pub(crate) fn goes_in(region: &Region, at: u32, to: u32) -> bool
    ensures { result ≡ goes_in region.now at to }
{
    (in_handler(region, to) && !in_handler(region, at))
        || (in_try(region, to) && (!in_try(region, at) && to != region.try_from))
}

fn crosses(leaves: bool, region: &Region, at: u32, to: u32) -> bool
    ensures { result ≡ crosses leaves region.now at to }
{
    (!leaves && goes_out(region, at, to)) || goes_in(region, at, to)
}

fn any_crosses(leaves: bool, region: &Region, at: u32, places: &[u32]) -> bool
    ensures { result ≡ list_any (crosses leaves region.now at) places.now }
{
    for place in places {
        if crosses(leaves, region, at, *place) {
            return true;
        }
    }
    false
}

fn target_crosses(leaves: bool, region: &Region, at: u32, operand: &Operand) -> bool
    ensures { result ≡ list_any (crosses leaves region.now at) (targets operand.now) }
{
    match operand {
        Operand::Target(target) => crosses(leaves, region, at, *target),
        Operand::Targets(targets) => any_crosses(leaves, region, at, targets.as_slice()),
        _ => false,
    }
}

fn successor_crosses(leaves: bool, region: &Region, at: u32, i: &Instr) -> bool
    requires { at + 1 < 2 ^ 32 }
    ensures { result ≡ list_any (crosses leaves region.now at) (successors at i.now) }
{
    if falls_through(i.op) {
        return crosses(leaves, region, at, at + 1)
            || target_crosses(leaves, region, at, &i.operand);
    }
    target_crosses(leaves, region, at, &i.operand)
}

/// Whether `ret` stands in a region, or control goes over a region's edge where it may not.
pub(crate) fn breaks_region(regions: &[Region], at: u32, i: &Instr) -> bool
    requires { at + 1 < 2 ^ 32 }
    ensures { result ≡ breaks_region regions.now at i.now }
{
    let class = class_of(i.op);
    for region in regions {
        if is_ret(class) && (in_try(region, at) || in_handler(region, at)) {
            return true;
        }
        if successor_crosses(is_leave(class), region, at, i) {
            return true;
        }
    }
    false
}

pub(crate) fn may_leave(region: &Region, at: u32) -> bool
    ensures { result ≡ may_leave region.now at }
{
    if in_try(region, at) {
        return true;
    }
    match &region.kind {
        RegionKind::Catch(_) => in_handler(region, at),
        _ => false,
    }
}

pub(crate) fn may_end(region: &Region, at: u32) -> bool
    ensures { result ≡ may_end region.now at }
{
    match &region.kind {
        RegionKind::Finally => in_handler(region, at),
        RegionKind::Fault => in_handler(region, at),
        _ => false,
    }
}

pub(crate) fn may_rethrow(region: &Region, at: u32) -> bool
    ensures { result ≡ may_rethrow region.now at }
{
    match &region.kind {
        RegionKind::Catch(_) => in_handler(region, at),
        _ => false,
    }
}

fn any_lets_leave(regions: &[Region], at: u32) -> bool
    ensures { result ≡ list_any (λ r. may_leave r at) regions.now }
{
    for region in regions {
        if may_leave(region, at) {
            return true;
        }
    }
    false
}

fn any_lets_end(regions: &[Region], at: u32) -> bool
    ensures { result ≡ list_any (λ r. may_end r at) regions.now }
{
    for region in regions {
        if may_end(region, at) {
            return true;
        }
    }
    false
}

fn any_lets_rethrow(regions: &[Region], at: u32) -> bool
    ensures { result ≡ list_any (λ r. may_rethrow r at) regions.now }
{
    for region in regions {
        if may_rethrow(region, at) {
            return true;
        }
    }
    false
}

/// Whether `leave`, `endfinally` or `rethrow` stands where no region has it.
pub(crate) fn is_out_of_place(regions: &[Region], at: u32, i: &Instr) -> bool
    ensures { result ≡ is_out_of_place regions.now at i.now }
{
    match class_of(i.op) {
        Class::Leave => !any_lets_leave(regions, at),
        Class::EndFinally => !any_lets_end(regions, at),
        Class::Rethrow => !any_lets_rethrow(regions, at),
        _ => false,
    }
}
