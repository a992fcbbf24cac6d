// The search for heights.
ghost use Rattle.std.specs.Prelude.{◌≡◌, ◌+◌, ◌≤◌, ◌<◌, ◌^◌, ◌∷◌, [], ◌++◌, length, slice_get, slice_set, OnOk, IfOk, Some, None, MatchOption, MatchResult, ℕ, List, Result, Ok, Err, replicate, if◌then◌else◌, true};
ghost use Rattle.std.specs.BinaryHeap.{heap_items};
ghost use Rattle.il_opcodes.specs.Opcodes.{opcode_of};
ghost use Rattle.cil_semantics.specs.Lookups.{method_of};
ghost use Rattle.il_flow.specs.declared.mark.Mark.{Mark};
ghost use Rattle.il_flow.specs.declared.mark.Mark.TheVariants.{Waits, Passed, Unseen};
ghost use Rattle.il_flow.specs.Effects.{effect_of, height_after};
ghost use Rattle.il_flow.specs.Successors.{goes_on, successors, targets};
ghost use Rattle.il_flow.specs.Heights.{Finds, fault_by, give, give_each, passed_by};
ghost use Rattle.il_flow.specs.Straight.{FindsMore};
ghost use Rattle.il_flow.specs.Queue.{IsNext, IsQueued, count_left};
ghost use Rattle.il_flow.specs.Starts.{Tells};

use crate::clash::{falls_through, goes_on, has_clash, height_left, lowest_clash};
use crate::effect::{Effect, found_effect};
use crate::mark::{Mark, Marks};
use crate::queue::{give_height, give_next, pop_place};
use cil_model::{Body, Instr, MethodDesc, Operand, Program};
use il_opcodes::{Opcode, find_opcode};
use std::alloc::AllocError;
use std::collections::BinaryHeap;

/// Gives each place its height that has none yet.
fn give_cases(
    marks: &mut Marks,
    queue: &mut BinaryHeap<u32>,
    height: u32,
    places: &[u32],
) -> Result<(), AllocError>
    requires { IsQueued marks.old (heap_items queue.old) }
    ensures given { OnOk result (marks.new ≡ give_each marks.old height places.now) }
    ensures size { OnOk result (length marks.new ≡ length marks.old) }
    ensures queued { OnOk result (IsQueued marks.new (heap_items queue.new)) }
    ensures left { OnOk result (count_left marks.new (heap_items queue.new) ≡ count_left marks.old (heap_items queue.old)) }
{
    for place in places {
        give_height(marks, queue, height, *place)?;
    }
    Ok(())
}

fn give_targets(
    marks: &mut Marks,
    queue: &mut BinaryHeap<u32>,
    height: u32,
    operand: &Operand,
) -> Result<(), AllocError>
    requires { IsQueued marks.old (heap_items queue.old) }
    ensures given { OnOk result (marks.new ≡ give_each marks.old height (targets operand.now)) }
    ensures size { OnOk result (length marks.new ≡ length marks.old) }
    ensures queued { OnOk result (IsQueued marks.new (heap_items queue.new)) }
    ensures left { OnOk result (count_left marks.new (heap_items queue.new) ≡ count_left marks.old (heap_items queue.old)) }
{
    match operand {
        Operand::Target(target) => give_height(marks, queue, height, *target),
        Operand::Targets(targets) => give_cases(marks, queue, height, targets.as_slice()),
        _ => Ok(()),
    }
}

/// Gives the successors of an instruction their height.
fn give_successors(
    marks: &mut Marks,
    queue: &mut BinaryHeap<u32>,
    height: u32,
    at: u32,
    i: &Instr,
) -> Result<(), AllocError>
    requires queued { IsQueued marks.old (heap_items queue.old) }
    requires small { at + 1 < 2 ^ 32 }
    ensures given { OnOk result (marks.new ≡ give_each marks.old height (successors at i.now)) }
    ensures size { OnOk result (length marks.new ≡ length marks.old) }
    ensures queued { OnOk result (IsQueued marks.new (heap_items queue.new)) }
    ensures left { OnOk result (count_left marks.new (heap_items queue.new) ≡ count_left marks.old (heap_items queue.old)) }
{
    if falls_through(i.op) {
        give_height(marks, queue, height, at + 1)?;
    }
    give_targets(marks, queue, height, &i.operand)
}

/// Goes on from an instruction that waits, or answers where the rule breaks first.
fn go_on(
    body: &Body,
    starts: &[bool],
    marks: &mut Marks,
    queue: &mut BinaryHeap<u32>,
    effect: Effect,
    height: u32,
    at: u32,
    i: &Instr,
) -> Result<Option<u32>, AllocError>
    requires starts { Tells body.now.regions (length body.now.instrs) starts.now }
    requires marks { length marks.old ≡ length body.now.instrs }
    requires small { at + 1 < 2 ^ 32 }
    requires within { at < length marks.old }
    requires queued { IsQueued (slice_set marks.old at (Passed height)) (heap_items queue.old) }
    ensures fault { IfOk result (λ fault. fault ≡ fault_by body.now effect marks.old at height i.now) }
    ensures passed { IfOk result (λ fault. fault ≡ None → marks.new ≡ passed_by effect marks.old at height i.now) }
    ensures size { IfOk result (λ fault. fault ≡ None → length marks.new ≡ length marks.old) }
    ensures queued { IfOk result (λ fault. fault ≡ None → IsQueued marks.new (heap_items queue.new)) }
    ensures left { IfOk result (λ fault. fault ≡ None → count_left marks.new (heap_items queue.new) ≡ count_left (slice_set marks.old at (Passed height)) (heap_items queue.old)) }
{
    let Some(after) = height_left(body.max_stack, effect, height) else {
        return Ok(Some(at));
    };
    if let Some(place) = lowest_clash(body, starts, marks, after, at, i) {
        return Ok(Some(place));
    }
    marks.set(at as usize, Mark::Passed(height));
    give_successors(marks, queue, after, at, i)?;
    Ok(None)
}

fn waiting_height(marks: &Marks, at: u32) -> Option<u32>
    ensures { MatchOption result ((h : ℕ) → slice_get marks.now at ≡ Some (Waits h) → ⊥) (λ h. slice_get marks.now at ≡ Some (Waits h)) }
{
    match marks.as_slice().get(at as usize) {
        Some(Mark::Waits(height)) => Some(*height),
        _ => None,
    }
}

fn instr_at(body: &Body, at: u32) -> &Instr
    requires { at < length body.now.instrs }
    ensures { slice_get body.now.instrs at ≡ Some result.now }
{
    &body.instrs.as_slice()[at as usize]
}

fn has_no_targets(operand: &Operand) -> bool
    ensures { result ≡ true → targets operand.now ≡ [] }
{
    match operand {
        Operand::Target(_) => false,
        Operand::Targets(_) => false,
        _ => true,
    }
}

/// Whether control is found to go on to the next instruction alone.
fn goes_straight(at: u32, i: &Instr, found: Option<Opcode>) -> bool
    requires { found ≡ opcode_of i.now.op }
    ensures { result ≡ true → successors at i.now ≡ (at + 1) ∷ [] }
{
    has_no_targets(&i.operand) && goes_on(found)
}

/// Goes on from an instruction that waits to the next one, or answers where the rule breaks first. The
/// next one isn't put into the queue.
fn go_next(
    body: &Body,
    starts: &[bool],
    marks: &mut Marks,
    effect: Effect,
    height: u32,
    at: u32,
    i: &Instr,
) -> Option<u32>
    requires starts { Tells body.now.regions (length body.now.instrs) starts.now }
    requires marks { length marks.old ≡ length body.now.instrs }
    requires small { at + 1 < 2 ^ 32 }
    requires within { at < length marks.old }
    requires straight { successors at i.now ≡ (at + 1) ∷ [] }
    ensures fault { result ≡ fault_by body.now effect marks.old at height i.now }
    ensures passed { result ≡ None → marks.new ≡ give (slice_set marks.old at (Passed height)) (height_after effect height) (at + 1) }
    ensures size { result ≡ None → length marks.new ≡ length marks.old }
{
    let Some(after) = height_left(body.max_stack, effect, height) else {
        return Some(at);
    };
    if has_clash(body, starts, marks, after, at + 1) {
        return Some(at + 1);
    }
    marks.set(at as usize, Mark::Passed(height));
    give_next(marks, after, at + 1);
    None
}

/// Goes on from the lowest instruction that waits and from those that follow it one by one, up to one
/// that doesn't go on to the next one alone. Answers where the rule breaks.
fn search_straight(
    program: &Program,
    own: &MethodDesc,
    body: &Body,
    starts: &[bool],
    marks: &mut Marks,
    queue: &mut BinaryHeap<u32>,
    from: u32,
) -> Result<Option<u32>, AllocError>
    requires starts { Tells body.now.regions (length body.now.instrs) starts.now }
    requires marks { length marks.old ≡ length body.now.instrs }
    requires few { length body.now.instrs < 2 ^ 32 }
    requires next { IsNext from marks.old (heap_items queue.old) }
    ensures size { IfOk result (λ fault. fault ≡ None → length marks.new ≡ length body.now.instrs) }
    ensures queued { IfOk result (λ fault. fault ≡ None → IsQueued marks.new (heap_items queue.new)) }
    ensures left { IfOk result (λ fault. fault ≡ None → count_left marks.new (heap_items queue.new) ≤ count_left marks.old (heap_items queue.old)) }
    ensures found { IfOk result (λ fault. FindsMore (effect_of program.now own.now) body.now marks.old marks.new fault) }
{
    let mut at = from;
    while let Some(height) = waiting_height(marks, at) {
        let i = instr_at(body, at);
        let found = find_opcode(i.op);
        let effect = found_effect(program, own, i, found);
        if !goes_straight(at, i, found) {
            let fault = go_on(body, starts, marks, queue, effect, height, at, i)?;
            return Ok(fault);
        }
        if let Some(place) = go_next(body, starts, marks, effect, height, at, i) {
            return Ok(Some(place));
        }
        at += 1;
    }
    Ok(None)
}

/// Goes on from the lowest instruction that waits until there is none, or the rule breaks: then it
/// answers where.
pub(crate) fn search_from(
    program: &Program,
    own: &MethodDesc,
    body: &Body,
    starts: &[bool],
    marks: &mut Marks,
    queue: &mut BinaryHeap<u32>,
) -> Result<Option<u32>, AllocError>
    requires starts { Tells body.now.regions (length body.now.instrs) starts.now }
    requires marks { length marks.old ≡ length body.now.instrs }
    requires few { length body.now.instrs < 2 ^ 32 }
    requires queued { IsQueued marks.old (heap_items queue.old) }
    ensures size { IfOk result (λ fault. fault ≡ None → length marks.new ≡ length body.now.instrs) }
    ensures found { IfOk result (λ fault. MatchOption fault (Finds (effect_of program.now own.now) body.now marks.old (Ok marks.new)) (λ q. Finds (effect_of program.now own.now) body.now marks.old (Err q))) }
{
    while let Some(at) = pop_place(queue) {
        if let Some(place) = search_straight(program, own, body, starts, marks, queue, at)? {
            return Ok(Some(place));
        }
    }
    Ok(None)
}
