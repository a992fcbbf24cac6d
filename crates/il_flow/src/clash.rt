// Where a height can't be, and where going on from an instruction first breaks the rule.
ghost use Rattle.std.specs.Prelude.{◌≡◌, ◌+◌, ◌≤◌, ◌<◌, ◌^◌, ◌∷◌, [], ◌&&◌, ◌||◌, not, ◌==◌, nat_lt, length, filter, slice_get, take, if◌then◌else◌, true, false, MatchOption, IfSome, ℕ};
ghost use Rattle.il_opcodes.specs.Opcodes.{opcode_of};
ghost use Rattle.il_flow.specs.Effects.{height_after};
ghost use Rattle.il_flow.specs.Successors.{class_goes_on, goes_on, successors, targets};
ghost use Rattle.il_flow.specs.Heights.{cant_go, cant_have, clashes, differs, height_in, least, least_of, lowest_with};
ghost use Rattle.il_flow.specs.Starts.{Tells};

use crate::effect::Effect;
use crate::mark::{Mark, Marks};
use cil_model::{Body, Instr, Operand};
use il_opcodes::{Class, Opcode, find_opcode};

fn class_goes_on(class: Class) -> bool
    ensures { result ≡ class_goes_on class }
{
    match class {
        Class::Jump => false,
        Class::Return => false,
        Class::Throw => false,
        Class::Rethrow => false,
        Class::Leave => false,
        Class::EndFinally => false,
        _ => true,
    }
}

/// Whether control goes on to the next instruction from one that was looked up, or isn't known.
pub fn goes_on(found: Option<Opcode>) -> bool
    ensures { result ≡ goes_on found }
{
    match found {
        Some(opcode) => class_goes_on(opcode.class),
        None => true,
    }
}

/// Whether control goes on from an instruction to the next one.
pub fn falls_through(op: u16) -> bool
    ensures { result ≡ goes_on (opcode_of op) }
{
    goes_on(find_opcode(op))
}

fn mark_differs(mark: Mark, height: u32) -> bool
    ensures { result ≡ differs height (height_in mark) }
{
    match mark {
        Mark::Unseen => false,
        Mark::Waits(other) => other != height,
        Mark::Passed(other) => other != height,
    }
}

/// Whether an instruction can't have this height.
pub(crate) fn has_clash(body: &Body, starts: &[bool], marks: &Marks, height: u32, at: u32) -> bool
    requires starts { Tells body.now.regions (length body.now.instrs) starts.now }
    requires marks { length marks.now ≡ length body.now.instrs }
    ensures { result ≡ clashes body.now marks.now height at }
{
    match marks.as_slice().get(at as usize).copied() {
        None => false,
        Some(mark) => mark_differs(mark, height) || (starts[at as usize] && height != 0),
    }
}

pub(crate) fn lower(best: Option<u32>, place: u32) -> Option<u32>
    ensures { result ≡ Some (least_of place best) }
{
    match best {
        None => Some(place),
        Some(other) => Some(place.min(other)),
    }
}

fn lowest_case(
    body: &Body,
    starts: &[bool],
    marks: &Marks,
    height: u32,
    places: &[u32],
    first: Option<u32>,
) -> Option<u32>
    requires starts { Tells body.now.regions (length body.now.instrs) starts.now }
    requires marks { length marks.now ≡ length body.now.instrs }
    ensures { result ≡ lowest_with first (filter (clashes body.now marks.now height) places.now) }
{
    let mut best = first;
    for place in places {
        if has_clash(body, starts, marks, height, *place) {
            best = lower(best, *place);
        }
    }
    best
}

fn next_clash(
    body: &Body,
    starts: &[bool],
    marks: &Marks,
    height: u32,
    at: u32,
    op: u16,
) -> Option<u32>
    requires starts { Tells body.now.regions (length body.now.instrs) starts.now }
    requires marks { length marks.now ≡ length body.now.instrs }
    requires small { at + 1 < 2 ^ 32 }
    ensures { result ≡ (if goes_on (opcode_of op) && clashes body.now marks.now height (at + 1) then Some (at + 1) else None) }
{
    if falls_through(op) && has_clash(body, starts, marks, height, at + 1) {
        return Some(at + 1);
    }
    None
}

fn target_clash(
    body: &Body,
    starts: &[bool],
    marks: &Marks,
    height: u32,
    operand: &Operand,
    first: Option<u32>,
) -> Option<u32>
    requires starts { Tells body.now.regions (length body.now.instrs) starts.now }
    requires marks { length marks.now ≡ length body.now.instrs }
    ensures { result ≡ lowest_with first (filter (clashes body.now marks.now height) (targets operand.now)) }
{
    match operand {
        Operand::Target(target) => {
            if has_clash(body, starts, marks, height, *target) {
                return lower(first, *target);
            }
            first
        }
        Operand::Targets(targets) => {
            lowest_case(body, starts, marks, height, targets.as_slice(), first)
        }
        _ => first,
    }
}

/// The lowest successor that can't have this height.
#[tactic(auto, using(crate::proofs::LeastLaws::lowest_successor))]
pub(crate) fn lowest_clash(
    body: &Body,
    starts: &[bool],
    marks: &Marks,
    height: u32,
    at: u32,
    i: &Instr,
) -> Option<u32>
    requires starts { Tells body.now.regions (length body.now.instrs) starts.now }
    requires marks { length marks.now ≡ length body.now.instrs }
    requires small { at + 1 < 2 ^ 32 }
    ensures { result ≡ least (filter (clashes body.now marks.now height) (successors at i.now)) }
{
    let first = next_clash(body, starts, marks, height, at, i.op);
    target_clash(body, starts, marks, height, &i.operand, first)
}

fn height_behind(effect: Effect, height: u32) -> usize
    requires { effect.takes ≤ height }
    ensures { result ≡ height_after effect height }
{
    if effect.empties {
        return 0;
    }
    height as usize - effect.takes + effect.leaves as usize
}

/// The height behind an instruction, unless it can't be gone on from at this height.
pub(crate) fn height_left(max_stack: u16, effect: Effect, height: u32) -> Option<u32>
    ensures { MatchOption result (cant_go max_stack effect height ≡ true) (λ after. (cant_go max_stack effect height ≡ false) × (after ≡ height_after effect height)) }
{
    let there = height as usize;
    if there < effect.takes || (effect.takes_all && there != effect.takes) {
        return None;
    }
    let after = height_behind(effect, height);
    if after > max_stack as usize {
        return None;
    }
    Some(after as u32)
}
