// One contract call becomes a check.
ghost use Rattle.std.specs.Prelude.{◌≡◌, ℕ, List, ◌+◌, ◌<◌, ◌≤◌, ◌^◌, [], ◌∷◌, ◌++◌, length, map, take, get_or, IfOk, IfSome, OnOk, Ok, Err, Some, None};
ghost use Rattle.cil_base.specs.Refusals.{First, NoneBroken, OnRefused};
ghost use Rattle.cil_model.specs.SmallMeaning.{SameBody};
ghost use Rattle.cil_model.specs.BodyCode.{instr};
ghost use Rattle.cil_model.specs.SmallBody.{IsSmallBody};
ghost use Rattle.cil_model.specs.ValidBody.{AreBytes, IsValid};
ghost use Rattle.il_body.specs.BodyEncoding.{weight, instr_limit, without_arguments};
ghost use Rattle.body_splice.specs.Splice.{guard, filler, check, spliced, first_call, taken, left, height, call_fault, CallBreaks, rewritten, KeepsHeader};

use cil_base::{Fault, Place, Rule, Token, U32s};
use cil_model::{Body, Instr, Instrs, Operand, Regions};
use il_body::calls_requires;
use std::alloc::{AllocError, Global};

/// Where the first call of Requires stands.
pub(crate) fn first_requires(instrs: &[Instr]) -> Option<usize>
    ensures value { result ≡ first_call instrs.now }
    ensures within { IfSome result (λ k. k < length instrs.now) }
{
    for (k, i) in instrs.iter().enumerate() {
        if calls_requires(i) {
            return Some(k);
        }
    }
    None
}

fn values_taken(op: u16) -> u32
    ensures value { result ≡ taken op }
{
    match op {
        0x25 | 0x26 | 0x28 => 1,
        0x00 | 0xFE09 | 0x20 => 0,
        _ => 2,
    }
}

fn values_left(op: u16) -> u32
    ensures value { result ≡ left op }
    ensures small { result ≤ 2 }
{
    match op {
        0x25 => 2,
        0x26 | 0x28 | 0x00 => 0,
        _ => 1,
    }
}

/// The height behind the instructions, if none of them is a `ret` and no height between two of them is
/// below 0.
fn height_behind(instrs: &[Instr]) -> Option<u32>
    requires { length instrs.now < 2 ^ 24 }
    ensures { result ≡ height 0 instrs.now }
{
    let mut h = 0u32;
    for i in instrs {
        let takes = values_taken(i.op);
        let leaves = h + values_left(i.op);
        if i.op == 0x2A || leaves < takes {
            return None;
        }
        h = leaves - takes;
    }
    Some(h)
}

/// Copies the instructions to the end of the list.
fn copy_onto(alloc: Global, list: &mut Instrs, instrs: &[Instr]) -> Result<(), AllocError>
    ensures { OnOk result (list.new ≡ list.old ++ instrs.now) }
{
    for i in instrs {
        list.push(i.copied(alloc)?)?;
    }
    Ok(())
}

fn bare(op: u16, operand: Operand) -> Instr
    ensures { result ≡ instr op operand }
{
    Instr {
        op,
        operand,
        constrained: None,
        prefixes: 0,
        under: None,
    }
}

fn push_guard(list: &mut Instrs, assembly: u32, place: u32) -> Result<(), AllocError>
    ensures { OnOk result (list.new ≡ list.old ++ guard assembly place) }
{
    list.push(bare(0x3A, Operand::Target(place)))?;
    list.push(bare(0x20, Operand::Int(0)))?;
    let token = Token { table: 10, row: 2 };
    list.push(bare(0x28, Operand::Tok { assembly, token }))
}

/// Appends a `nop` where nothing follows, for the branch to lead to.
fn push_filler(list: &mut Instrs, rest: &[Instr]) -> Result<(), AllocError>
    ensures { OnOk result (list.new ≡ list.old ++ filler rest.now) }
{
    match rest {
        [] => list.push(bare(0x00, Operand::Nothing)),
        [_, ..] => Ok(()),
    }
}

fn push_check(
    list: &mut Instrs,
    assembly: u32,
    place: u32,
    rest: &[Instr],
) -> Result<(), AllocError>
    ensures { OnOk result (list.new ≡ list.old ++ check assembly place rest.now) }
{
    push_guard(list, assembly, place)?;
    push_filler(list, rest)
}

fn splice_at(alloc: Global, instrs: &[Instr], assembly: u32, k: usize) -> Result<Instrs, AllocError>
    requires within { k < length instrs.now }
    requires few { length instrs.now < 2 ^ 24 }
    ensures { IfOk result (λ list. list ≡ spliced assembly instrs.now k) }
{
    let mut list = Instrs::new(alloc);
    let rest = &instrs[k + 1..];
    copy_onto(alloc, &mut list, &instrs[..k])?;
    push_check(&mut list, assembly, k as u32 + 3, rest)?;
    copy_onto(alloc, &mut list, rest)?;
    Ok(list)
}

/// The first rule that the calls of Requires break, and the instruction.
fn fault_of(instrs: &[Instr]) -> Option<(Rule, usize)>
    requires { length instrs.now < 2 ^ 24 }
    ensures value { result ≡ call_fault instrs.now }
    ensures within { IfSome result (λ fault. fault.1 < length instrs.now) }
{
    let k = first_requires(instrs)?;
    if height_behind(&instrs[..k]) != Some(1) {
        return Some((Rule::C2, k));
    }
    let j = first_requires(&instrs[k + 1..])?;
    Some((Rule::C1, k + 1 + j))
}

fn rewritten_instrs(alloc: Global, instrs: &[Instr], assembly: u32) -> Result<Instrs, AllocError>
    requires { length instrs.now < 2 ^ 24 }
    ensures { IfOk result (λ list. list ≡ rewritten assembly instrs.now) }
{
    match first_requires(instrs) {
        Some(k) => splice_at(alloc, instrs, assembly, k),
        None => {
            let mut list = Instrs::new(alloc);
            copy_onto(alloc, &mut list, instrs)?;
            Ok(list)
        }
    }
}

/// The offset of an instruction.
fn offset_of(body: &Body, k: usize) -> u32
    ensures { result ≡ get_or body.now.offsets k 0 }
{
    body.offsets.as_slice().get(k).copied().unwrap_or(0)
}

/// The body with a check in place of its call of Requires, if it has one: `brtrue` over a call that
/// ends the run with failure kind 0, with a `nop` behind it where the call was the last instruction.
/// It keeps the header's numbers.
///
/// It is refused by C2 at the first call where the height before it isn't 1, a height between two
/// instructions before it is below 0, or a `ret` stands before it, and else by C1 at a second call.
pub fn splice_one(alloc: Global, body: &Body, place: Place) -> Result<Body, Fault>
    requires { (bytes : List ℕ) × AreBytes bytes × IsSmallBody place.assembly bytes body.now }

    ensures same { IfOk result (SameBody body.now) }
    ensures accepted { OnOk result (NoneBroken (CallBreaks place body.now)) }
    ensures refused { OnRefused result (First (CallBreaks place body.now)) }

    // What can be written stays so.
    ensures kept { IfOk result (KeepsHeader body.now) }
    ensures instrs { IfOk result (λ b. b.instrs ≡ rewritten place.assembly body.now.instrs) }
    ensures valid { IfOk result (IsValid place.assembly) }
    ensures few { IfOk result (λ b. weight b.instrs ≤ instr_limit) }
    ensures bare { IfOk result (λ b. map without_arguments b.instrs ≡ b.instrs) }
{
    if let Some((rule, k)) = fault_of(body.instrs.as_slice()) {
        return Err(Fault::Refused(place.refusal(rule, offset_of(body, k))));
    }
    let instrs = rewritten_instrs(alloc, body.instrs.as_slice(), place.assembly)?;
    Ok(Body {
        instrs,
        offsets: U32s::new(alloc),
        regions: Regions::new(alloc),
        locals: body.locals,
        max_stack: body.max_stack,
        init: body.init,
    })
}
