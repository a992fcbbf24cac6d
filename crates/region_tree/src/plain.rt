// A test that most bodies pass which break no rule on regions, in one pass.
ghost use Rattle.std.specs.Prelude.{◌≡◌, ◌+◌, ◌≤◌, ◌<◌, ◌^◌, true, false, length, IfOk, slice_index_or, slice_get};
ghost use Rattle.std.specs.List.{list_any};
ghost use Rattle.il_opcodes.specs.Opcodes.{class_of, opcode_of};
ghost use Rattle.il_flow.specs.Successors.{goes_on, successors, targets};
ghost use Rattle.region_tree.specs.Holders.{AreHolders};
ghost use Rattle.region_tree.specs.Marks.{AreMarks, is_unmarked};
ghost use Rattle.region_tree.specs.Order.{AreInOrder, AreKnown, is_crossed, AreKept};
ghost use Rattle.region_tree.specs.Rules.{breaks_region, crosses, goes_in, goes_out, in_region, is_out_of_place, may_end, may_leave, may_rethrow};

use crate::edges::{
    breaks_region, class_or, goes_in, goes_out, is_leave, is_out_of_place, is_ret, may_end,
    may_leave, may_rethrow,
};
use crate::holders::holders_of;
use crate::marks::marks_of;
use cil_model::{Instr, Operand, Region};
use il_flow::goes_on;
use il_opcodes::{Class, Opcode, find_opcode};
use std::alloc::{AllocError, Global};

/// Whether the innermost region round a place is left by going to another one.
fn leaves_none(regions: &[Region], holders: &[u32], at: u32, to: u32) -> bool
    requires order { AreInOrder regions.now }
    requires holders { AreHolders 0 regions.now (length holders.now) holders.now }
    ensures { result ≡ true → list_any (λ r. goes_out r at to) regions.now ≡ false }
{
    let place = at as usize;
    if place >= holders.len() {
        return false;
    }
    let number = holders[place] as usize;
    if number == 0 {
        return true;
    }
    number <= regions.len() && !goes_out(&regions[number - 1], at, to)
}

/// Whether the innermost region round the place that is gone to isn't come into, unless by its first
/// instruction.
fn enters_none(regions: &[Region], holders: &[u32], at: u32, to: u32) -> bool
    requires order { AreInOrder regions.now }
    requires holders { AreHolders 1 regions.now (length holders.now) holders.now }
    ensures { result ≡ true → list_any (λ r. goes_in r at to) regions.now ≡ false }
{
    let place = to as usize;
    if place >= holders.len() {
        return false;
    }
    let number = holders[place] as usize;
    if number == 0 {
        return true;
    }
    number <= regions.len() && !goes_in(&regions[number - 1], at, to)
}

#[tactic(auto, using(crate::proofs::PlainLaws::none_crossed))]
fn crosses_none(
    regions: &[Region],
    outer: &[u32],
    inner: &[u32],
    leaves: bool,
    at: u32,
    to: u32,
) -> bool
    requires { AreKnown regions.now outer.now inner.now }
    ensures { result ≡ true → is_crossed regions.now leaves at to ≡ false }
{
    (leaves || leaves_none(regions, outer, at, to)) && enters_none(regions, inner, at, to)
}

fn is_unmarked(marks: &[bool], place: usize) -> bool
    ensures { result ≡ is_unmarked (slice_get marks.now place) }
{
    match marks.get(place) {
        Some(marked) => !*marked,
        None => false,
    }
}

/// Whether control that goes on to the next place crosses no edge: most places are none at which a part
/// of a region begins or ends.
#[tactic(auto, using(crate::proofs::PlainLaws::unmarked_crosses_none))]
fn next_crosses_none(
    regions: &[Region],
    marks: &[bool],
    outer: &[u32],
    inner: &[u32],
    leaves: bool,
    at: u32,
) -> bool
    requires known { AreKnown regions.now outer.now inner.now }
    requires marked { AreMarks regions.now (length marks.now) marks.now }
    requires small { at + 1 < 2 ^ 32 }
    ensures { result ≡ true → is_crossed regions.now leaves at (at + 1) ≡ false }
{
    if is_unmarked(marks, at as usize + 1) {
        return true;
    }
    crosses_none(regions, outer, inner, leaves, at, at + 1)
}

fn cases_cross_none(
    regions: &[Region],
    outer: &[u32],
    inner: &[u32],
    leaves: bool,
    at: u32,
    places: &[u32],
) -> bool
    requires { AreKnown regions.now outer.now inner.now }
    ensures { result ≡ true → list_any (is_crossed regions.now leaves at) places.now ≡ false }
{
    for place in places {
        if !crosses_none(regions, outer, inner, leaves, at, *place) {
            return false;
        }
    }
    true
}

fn targets_cross_none(
    regions: &[Region],
    outer: &[u32],
    inner: &[u32],
    leaves: bool,
    at: u32,
    operand: &Operand,
) -> bool
    requires { AreKnown regions.now outer.now inner.now }
    ensures { result ≡ true → list_any (is_crossed regions.now leaves at) (targets operand.now) ≡ false }
{
    match operand {
        Operand::Target(target) => crosses_none(regions, outer, inner, leaves, at, *target),
        Operand::Targets(targets) => {
            cases_cross_none(regions, outer, inner, leaves, at, targets.as_slice())
        }
        _ => true,
    }
}

fn successors_cross_none(
    regions: &[Region],
    marks: &[bool],
    outer: &[u32],
    inner: &[u32],
    leaves: bool,
    at: u32,
    i: &Instr,
    found: Option<Opcode>,
) -> bool
    requires known { AreKnown regions.now outer.now inner.now }
    requires marked { AreMarks regions.now (length marks.now) marks.now }
    requires small { at + 1 < 2 ^ 32 }
    requires found { found ≡ opcode_of i.now.op }
    ensures { result ≡ true → list_any (is_crossed regions.now leaves at) (successors at i.now) ≡ false }
{
    if goes_on(found) && !next_crosses_none(regions, marks, outer, inner, leaves, at) {
        return false;
    }
    targets_cross_none(regions, outer, inner, leaves, at, &i.operand)
}

fn lies_in_none(regions: &[Region], outer: &[u32], at: u32) -> bool
    requires { AreHolders 0 regions.now (length outer.now) outer.now }
    ensures { result ≡ true → list_any (λ r. in_region r at) regions.now ≡ false }
{
    let place = at as usize;
    place < outer.len() && outer[place] == 0
}

#[tactic(auto, using(crate::proofs::PlainLaws::keeps_edges), unfolding(il_opcodes::specs::Opcodes::class_of))]
fn edges_are_kept(
    regions: &[Region],
    marks: &[bool],
    outer: &[u32],
    inner: &[u32],
    at: u32,
    i: &Instr,
    found: Option<Opcode>,
) -> bool
    requires known { AreKnown regions.now outer.now inner.now }
    requires marked { AreMarks regions.now (length marks.now) marks.now }
    requires small { at + 1 < 2 ^ 32 }
    requires found { found ≡ opcode_of i.now.op }
    ensures { result ≡ true → breaks_region regions.now at i.now ≡ false }
{
    let class = class_or(found);
    if is_ret(class) && !lies_in_none(regions, outer, at) {
        return false;
    }
    successors_cross_none(regions, marks, outer, inner, is_leave(class), at, i, found)
}

fn holder_lets_leave(regions: &[Region], number: usize, at: u32) -> bool
    ensures { result ≡ true → list_any (λ r. may_leave r at) regions.now ≡ true }
{
    number != 0 && number <= regions.len() && may_leave(&regions[number - 1], at)
}

fn holder_lets_end(regions: &[Region], number: usize, at: u32) -> bool
    ensures { result ≡ true → list_any (λ r. may_end r at) regions.now ≡ true }
{
    number != 0 && number <= regions.len() && may_end(&regions[number - 1], at)
}

fn holder_lets_rethrow(regions: &[Region], number: usize, at: u32) -> bool
    ensures { result ≡ true → list_any (λ r. may_rethrow r at) regions.now ≡ true }
{
    number != 0 && number <= regions.len() && may_rethrow(&regions[number - 1], at)
}

#[tactic(auto, unfolding(il_opcodes::specs::Opcodes::class_of))]
fn is_in_place(regions: &[Region], number: usize, at: u32, i: &Instr, found: Option<Opcode>) -> bool
    requires { found ≡ opcode_of i.now.op }
    ensures { result ≡ true → is_out_of_place regions.now at i.now ≡ false }
{
    match class_or(found) {
        Class::Leave => holder_lets_leave(regions, number, at),
        Class::EndFinally => holder_lets_end(regions, number, at),
        Class::Rethrow => holder_lets_rethrow(regions, number, at),
        _ => true,
    }
}

/// Whether an instruction breaks none of the rules on edges and on what stands where.
fn is_kept(
    regions: &[Region],
    marks: &[bool],
    outer: &[u32],
    inner: &[u32],
    at: u32,
    i: &Instr,
) -> bool
    requires known { AreKnown regions.now outer.now inner.now }
    requires marked { AreMarks regions.now (length marks.now) marks.now }
    requires small { at + 1 < 2 ^ 32 }
    requires there { at < length outer.now }
    ensures edges { result ≡ true → breaks_region regions.now at i.now ≡ false }
    ensures place { result ≡ true → is_out_of_place regions.now at i.now ≡ false }
{
    let number = outer[at as usize] as usize;
    let found = find_opcode(i.op);
    (edges_are_kept(regions, marks, outer, inner, at, i, found) || !breaks_region(regions, at, i))
        && (is_in_place(regions, number, at, i, found) || !is_out_of_place(regions, at, i))
}

/// Whether code breaks none of the rules on edges and on what stands where.
fn is_code_kept(
    regions: &[Region],
    marks: &[bool],
    outer: &[u32],
    inner: &[u32],
    instrs: &[Instr],
) -> bool
    requires known { AreKnown regions.now outer.now inner.now }
    requires marked { AreMarks regions.now (length marks.now) marks.now }
    requires few { length instrs.now < 2 ^ 32 }
    requires there { length outer.now ≡ length instrs.now }
    ensures { result ≡ true → AreKept regions.now instrs.now }
{
    for k in 0..instrs.len() {
        if !is_kept(regions, marks, outer, inner, k as u32, &instrs[k]) {
            return false;
        }
    }
    true
}

/// Whether code is found to break none of the rules on edges and on what stands where.
#[tactic(auto, using(crate::proofs::MarkLaws::whole_marks))]
pub(crate) fn is_code_plain(
    alloc: Global,
    regions: &[Region],
    instrs: &[Instr],
) -> Result<bool, AllocError>
    requires order { AreInOrder regions.now }
    requires rows { length regions.now < 2 ^ 32 }
    requires few { length instrs.now < 2 ^ 32 }
    ensures { IfOk result (λ b. b ≡ true → AreKept regions.now instrs.now) }
{
    let marks = marks_of(alloc, regions, instrs.len())?;
    let outer = holders_of(alloc, 0, regions, instrs.len())?;
    let inner = holders_of(alloc, 1, regions, instrs.len())?;
    let kept = is_code_kept(regions, &marks, &outer, &inner, instrs);
    Ok(kept)
}
