// Closed ranges of instructions, and the arguments of a call.
ghost use Rattle.std.specs.Prelude.{◌≡◌, ◌+◌, ◌<◌, ◌≤◌, ◌^◌, ◌&&◌, ◌||◌, not, nat_le, nat_lt, ◌==◌, length, slice_index, IfSome, option_map, ℕ, if◌then◌else◌};
ghost use Rattle.std.specs.List.{list_all, list_any, enumerate_from};
ghost use Rattle.il_opcodes.specs.Opcodes.{opcode_of};
ghost use Rattle.cil_semantics.specs.Unwind.{holds_place};
ghost use Rattle.il_flow.specs.Effects.{effect_of};
ghost use Rattle.il_flow.specs.Successors.{targets};
ghost use Rattle.il_flow.specs.Ranges.{argument_before, class_ends, cuts, ends_range, is_argument, is_closed, is_right, last_argument, last_below, stays_in, stays_out};

use crate::effect::effect_in;
use cil_base::U32s;
use cil_model::{Body, Instr, MethodDesc, Operand, Program, Region};
use il_opcodes::{Class, find_opcode};

fn holds(from: usize, to: usize, at: usize) -> bool
    ensures { result ≡ holds_place from to at }
{
    from <= at && at < to
}

fn ends(op: u16) -> bool
    ensures { result ≡ ends_range (opcode_of op) }
{
    match find_opcode(op) {
        Some(opcode) => match opcode.class {
            Class::Return => true,
            Class::Throw => true,
            Class::Rethrow => true,
            Class::Leave => true,
            _ => false,
        },
        None => false,
    }
}

fn all_stay(places: &[u32], from: usize, to: usize) -> bool
    ensures { result ≡ list_all (λ t. holds_place from to t) places.now }
{
    for place in places {
        if !holds(from, to, *place as usize) {
            return false;
        }
    }
    true
}

fn all_keep_out(places: &[u32], from: usize, to: usize) -> bool
    ensures { result ≡ list_all (λ t. not (holds_place from to t)) places.now }
{
    for place in places {
        if holds(from, to, *place as usize) {
            return false;
        }
    }
    true
}

fn targets_stay(operand: &Operand, from: usize, to: usize) -> bool
    ensures { result ≡ list_all (λ t. holds_place from to t) (targets operand.now) }
{
    match operand {
        Operand::Target(target) => holds(from, to, *target as usize),
        Operand::Targets(targets) => all_stay(targets.as_slice(), from, to),
        _ => true,
    }
}

fn targets_keep_out(operand: &Operand, from: usize, to: usize) -> bool
    ensures { result ≡ list_all (λ t. not (holds_place from to t)) (targets operand.now) }
{
    match operand {
        Operand::Target(target) => !holds(from, to, *target as usize),
        Operand::Targets(targets) => all_keep_out(targets.as_slice(), from, to),
        _ => true,
    }
}

/// Whether so many values lie above a height.
fn has_above(height: u32, base: u32, takes: usize) -> bool
    ensures { result ≡ nat_le (base + takes) height }
{
    base <= height && takes <= (height - base) as usize
}

fn is_right(
    program: &Program,
    own: &MethodDesc,
    heights: &[u32],
    from: usize,
    to: usize,
    at: usize,
    i: &Instr,
) -> bool
    requires small { to < 2 ^ 32 }
    requires within { at < length heights.now }
    requires base { from < length heights.now }
    ensures { result ≡ is_right (effect_of program.now own.now) heights.now from to (at, i.now) }
{
    if holds(from, to, at) {
        let effect = effect_in(program, own, i);
        return has_above(heights[at], heights[from], effect.takes)
            && !ends(i.op)
            && targets_stay(&i.operand, from, to + 1);
    }
    targets_keep_out(&i.operand, from + 1, to + 1)
}

fn all_right(
    program: &Program,
    own: &MethodDesc,
    instrs: &[Instr],
    heights: &[u32],
    from: usize,
    to: usize,
) -> bool
    requires small { to < 2 ^ 32 }
    requires base { from < length heights.now }
    requires whole { length heights.now ≡ length instrs.now }
    ensures { result ≡ list_all (is_right (effect_of program.now own.now) heights.now from to) (enumerate_from 0 instrs.now) }
{
    for at in 0..instrs.len() {
        if !is_right(program, own, heights, from, to, at, &instrs[at]) {
            return false;
        }
    }
    true
}

fn region_cuts(from: usize, to: usize, region: &Region) -> bool
    requires order { from < to }
    requires small { to < 2 ^ 32 }
    ensures { result ≡ cuts from to region.now }
{
    holds(from + 1, to, region.try_from as usize)
        || holds(from + 1, to, region.try_to as usize)
        || holds(from + 1, to, region.handler_from as usize)
        || holds(from + 1, to, region.handler_to as usize)
}

fn any_cuts(from: usize, to: usize, regions: &[Region]) -> bool
    requires order { from < to }
    requires small { to < 2 ^ 32 }
    ensures { result ≡ list_any (cuts from to) regions.now }
{
    for region in regions {
        if region_cuts(from, to, region) {
            return true;
        }
    }
    false
}

/// Whether a range is closed and pushes exactly one value.
#[tactic(auto, unfolding(crate::specs::Ranges::is_closed))]
fn is_argument(
    program: &Program,
    own: &MethodDesc,
    body: &Body,
    heights: &[u32],
    from: usize,
    to: usize,
) -> bool
    requires order { from < to }
    requires within { to < length body.now.instrs }
    requires few { length body.now.instrs < 2 ^ 32 }
    requires whole { length heights.now ≡ length body.now.instrs }
    ensures { result ≡ is_argument (effect_of program.now own.now) heights.now body.now from to }
{
    if heights[to] as usize != heights[from] as usize + 1 {
        return false;
    }
    !any_cuts(from, to, body.regions.as_slice())
        && all_right(program, own, body.instrs.as_slice(), heights, from, to)
}

/// Where the shortest closed range begins that ends at a place and pushes one value.
#[tactic(auto, unfolding(crate::specs::Ranges::last_argument))]
fn last_argument(
    program: &Program,
    own: &MethodDesc,
    body: &Body,
    heights: &[u32],
    to: usize,
) -> Option<usize>
    requires within { to < length body.now.instrs }
    requires few { length body.now.instrs < 2 ^ 32 }
    requires whole { length heights.now ≡ length body.now.instrs }
    ensures place { result ≡ last_argument (effect_of program.now own.now) heights.now body.now to }
    ensures below { IfSome result (λ from. from < to) }
{
    let mut left = to;
    while 0 < left {
        left -= 1;
        if is_argument(program, own, body, heights, left, to) {
            return Some(left);
        }
    }
    None
}

/// The range of the argument that so many others follow, where the last of them ends at a place:
/// the shortest closed range that pushes its value, if there is one.
#[tactic(auto, unfolding(crate::specs::Ranges::argument_before))]
pub fn argument_before(
    program: &Program,
    own: &MethodDesc,
    body: &Body,
    heights: &[u32],
    others: usize,
    to: usize,
) -> Option<(usize, usize)>
    requires within { to < length body.now.instrs }
    requires few { length body.now.instrs < 2 ^ 32 }
    requires whole { length heights.now ≡ length body.now.instrs }
    ensures { result ≡ argument_before (effect_of program.now own.now) heights.now body.now others to }
{
    let from = last_argument(program, own, body, heights, to)?;
    if others == 0 {
        return Some((from, to));
    }
    argument_before(program, own, body, heights, others - 1, from)
}
