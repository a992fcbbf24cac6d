// The lead-in of a body.

ghost use Rattle.std.specs.Prelude.{◌≡◌, ◌<◌, ◌&&◌, nat_le, length, true, filter, IfOk, option_copied};
ghost use Rattle.std.specs.List.{list_any, enumerate_from, slice_range};
ghost use Rattle.cil_semantics.specs.Lookups.{method_of};
ghost use Rattle.contract_parts.specs.Flow.{argument};
ghost use Rattle.contract_parts.specs.Parts.{made_type, is_field_store, loads_one_of, is_own_or_base, closure_put, closures_in, makes_closure, is_it, sets_up_closure, is_constructor_name, is_this_range, is_base_call, is_led, is_throw, last_end, lead_end, neighbours, prefixes, statements, statements_of};

use crate::call::{count_params, own_meaning};
use crate::code::Code;
use crate::lines::{first_line, is_throw, last_line, loads_this, only_line};
use crate::locals::{is_it, loaded, stored};
use crate::slices::part;
use crate::statement::Statement;
use crate::types::{is_nested_generated, is_own_or_base, type_number};
use cil_model::{Instr, Meaning, Operand, Program, Ty};
use std::alloc::{AllocError, Global};

/// The number of the type that an instruction's constructor makes.
pub(crate) fn made_type(p: &Program, operand: &Operand) -> Option<u32>
    ensures { result ≡ made_type p.now operand.now }
{
    match own_meaning(p, operand) {
        Some(Meaning::OfMethod { owner, .. }) => type_number(owner),
        _ => None,
    }
}

/// `newobj` of a nested type that a compiler made.
pub(crate) fn makes_closure(p: &Program, instr: &Instr) -> bool
    ensures { result ≡ makes_closure p.now instr.now }
{
    if instr.op != 0x73 {
        return false;
    }
    match made_type(p, &instr.operand) {
        Some(k) => is_nested_generated(p, k),
        None => false,
    }
}

/// The local into which an instruction's new closure goes.
fn closure_put(p: &Program, instr: &Instr, rest: &[Instr]) -> Option<u32>
    ensures { result ≡ closure_put p.now instr.now rest.now }
{
    if !makes_closure(p, instr) {
        return None;
    }
    match first_line(rest) {
        Some(next) => stored(next),
        None => None,
    }
}

/// A closure goes into some local.
fn puts_closure(p: &Program, instrs: &[Instr]) -> bool
    ensures { result ≡ list_any (λ k. true) (closures_in p.now instrs.now) }
{
    for at in 0..instrs.len() {
        if closure_put(p, &instrs[at], &instrs[at + 1..]).is_some() {
            return true;
        }
    }
    false
}

/// A closure goes into the local, if there is one.
fn puts_into(p: &Program, instrs: &[Instr], local: Option<u32>) -> bool
    ensures { result ≡ list_any (λ k. is_it k local) (closures_in p.now instrs.now) }
{
    for at in 0..instrs.len() {
        match closure_put(p, &instrs[at], &instrs[at + 1..]) {
            Some(k) => {
                if is_it(k, local) {
                    return true;
                }
            }
            None => {}
        }
    }
    false
}

fn is_field_store(line: Option<&Instr>) -> bool
    ensures { result ≡ is_field_store (option_copied line.entry) }
{
    match line {
        Some(instr) => instr.op == 0x7D,
        None => false,
    }
}

fn loads_closure(p: &Program, before: &[Instr], line: Option<&Instr>) -> bool
    ensures { result ≡ loads_one_of (closures_in p.now before.now) (option_copied line.entry) }
{
    match line {
        Some(instr) => puts_into(p, before, loaded(instr)),
        None => false,
    }
}

/// A statement that is closure set-up.
fn sets_up_closure(code: &Code, statement: &Statement) -> bool
    ensures { result ≡ sets_up_closure code.now statement.now }
{
    let p = code.program();
    let instrs = code.instrs();
    let own = part(instrs, statement.from as usize, statement.to as usize);
    puts_closure(p, own)
        || (is_field_store(last_line(own))
            && loads_closure(p, part(instrs, 0, statement.from as usize), first_line(own)))
}

#[tactic(auto, unfolding(cil_semantics::specs::Lookups::no_method))]
fn is_constructor(p: &Program, m: u32) -> bool
    ensures { result ≡ is_constructor_name (method_of p.now m).name }
{
    match p.methods.get(m as usize) {
        Some(desc) => desc.name.as_slice() == b".ctor".as_slice(),
        None => false,
    }
}

/// A call of this method of this type is that of a constructor of the own type or its base.
fn is_own_constructor(code: &Code, owner: &Ty, called: u32) -> bool
    ensures { result ≡ (is_constructor_name (method_of code.now.program called).name && (is_constructor_name (method_of code.now.program code.now.method).name && is_own_or_base code.now.program (method_of code.now.program code.now.method).owner owner.now)) }
{
    let p = code.program();
    let own = code.own();
    is_constructor(p, called)
        && own.name.as_slice() == b".ctor".as_slice()
        && is_own_or_base(p, own.owner, owner)
}

/// The argument that so many others follow, up to a place, is `this`.
fn is_on_this(code: &Code, params: usize, at: u32) -> bool
    requires { at < length code.now.body.instrs }
    ensures { result ≡ is_this_range code.now (argument code.now params at) }
{
    match code.argument(params, at) {
        Some((from, to)) => match only_line(part(code.instrs(), from, to)) {
            Some(instr) => loads_this(instr),
            None => false,
        },
        None => false,
    }
}

/// A call of a constructor of the own type or its base on `this`.
fn is_base_call(code: &Code, at: u32, instr: &Instr) -> bool
    requires { at < length code.now.body.instrs }
    ensures { result ≡ is_base_call code.now (at, instr.now) }
{
    if instr.op != 0x28 {
        return false;
    }
    let p = code.program();
    match own_meaning(p, &instr.operand) {
        Some(Meaning::OfMethod { owner, method, .. }) => {
            is_own_constructor(code, owner, *method)
                && is_on_this(code, count_params(p, *method), at)
        }
        _ => false,
    }
}

fn calls_base(code: &Code, statement: &Statement) -> bool
    ensures { result ≡ list_any (is_base_call code.now) (enumerate_from statement.now.from (slice_range code.now.body.instrs statement.now.from statement.now.to)) }
{
    let own = part(
        code.instrs(),
        statement.from as usize,
        statement.to as usize,
    );
    let mut found = false;
    let mut at = statement.from as usize;
    for instr in own {
        found = found || is_base_call(code, at as u32, instr);
        at += 1;
    }
    found
}

fn throws(code: &Code, statement: &Statement) -> bool
    ensures { result ≡ list_any is_throw (slice_range code.now.body.instrs statement.now.from statement.now.to) }
{
    part(
        code.instrs(),
        statement.from as usize,
        statement.to as usize,
    )
    .iter()
    .any(is_throw)
}

/// The statement belongs to the lead-in by itself.
fn is_led(code: &Code, statement: &Statement) -> bool
    ensures { result ≡ is_led code.now statement.now }
{
    throws(code, statement) || calls_base(code, statement) || sets_up_closure(code, statement)
}

fn neighbours(alloc: Global, first: u32, rest: &[u32]) -> Result<Vec<Statement>, AllocError>
    ensures { IfOk result (λ out. out.items ≡ neighbours first rest.now) }
{
    let mut out = Vec::new(alloc);
    let mut from = first;
    for to in rest {
        out.push(Statement { from, to: *to })?;
        from = *to;
    }
    Ok(out)
}

/// The statements between boundaries.
pub fn statements_of(alloc: Global, boundaries: &[u32]) -> Result<Vec<Statement>, AllocError>
    ensures { IfOk result (λ out. out.items ≡ statements_of boundaries.now) }
{
    match boundaries {
        [first, rest @ ..] => neighbours(alloc, *first, rest),
        [] => Ok(Vec::new(alloc)),
    }
}

/// Behind the last statement of the lead-in that ends before a place.
fn end_before(code: &Code, parts: &[Statement], first: u32) -> u32
    ensures { result ≡ last_end 0 (filter (λ s. nat_le s.to first && is_led code.now s) parts.now) }
{
    let mut end = 0;
    for statement in parts {
        if statement.to <= first && is_led(code, statement) {
            end = statement.to;
        }
    }
    end
}

/// Where the lead-in ends, from the statements and the places of the prefix calls.
pub fn lead_end(code: &Code, parts: &[Statement], calls: &[u32]) -> u32
    requires parts { parts.now ≡ statements code.now }
    requires calls { calls.now ≡ prefixes code.now }
    ensures { result ≡ lead_end code.now }
{
    match calls {
        [first, ..] => end_before(code, parts, *first),
        [] => 0,
    }
}
