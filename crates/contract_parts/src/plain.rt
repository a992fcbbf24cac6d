// Classes whose objects hold what a lambda captures.

ghost use Rattle.std.specs.Prelude.{◌≡◌, ◌==◌, ◌&&◌, false, not};
ghost use Rattle.std.specs.List.{list_any};
ghost use Rattle.cil_semantics.specs.Lookups.{type_of, method_of};
ghost use Rattle.cil_semantics.specs.Tokens.{own_meaning};
ghost use Rattle.cil_semantics.specs.Words.{maybe};
ghost use Rattle.contract_parts.specs.Parts.{made_type};
ghost use Rattle.contract_parts.specs.Closures.{is_initializer, has_initializer, is_constructor, is_object_call, is_plain_class, body_does_nothing, does_nothing, is_plain_constructor, makes_plain_closure};

use crate::call::own_meaning;
use crate::lead::{made_type, makes_closure};
use crate::lines::{loads_this, three_lines};
use crate::types::is_object;
use cil_model::{Body, Instr, Kind, Meaning, MethodDesc, Operand, Program, TypeDesc};

#[tactic(auto, unfolding(cil_semantics::specs::Lookups::no_method))]
fn is_initializer(p: &Program, m: u32) -> bool
    ensures { result ≡ is_initializer (method_of p.now m) }
{
    match p.methods.get(m as usize) {
        Some(desc) => desc.name.as_slice() == b".cctor".as_slice(),
        None => false,
    }
}

fn has_initializer(p: &Program, desc: &TypeDesc) -> bool
    ensures { result ≡ has_initializer p.now desc.now }
{
    desc.methods
        .as_slice()
        .iter()
        .any(|m| is_initializer(p, *m))
}

/// A class of no reference assembly, without initializer.
#[tactic(auto, unfolding(cil_semantics::specs::Lookups::contract_exception))]
fn is_plain_class(p: &Program, k: u32) -> bool
    ensures { result ≡ is_plain_class p.now (type_of p.now k) }
{
    match p.types.get(k as usize) {
        Some(desc) => {
            matches!(desc.kind, Kind::Class) && !desc.reference && !has_initializer(p, desc)
        }
        None => true,
    }
}

#[tactic(auto, unfolding(cil_semantics::specs::Lookups::no_method))]
fn is_constructor(p: &Program, m: u32) -> bool
    ensures { result ≡ is_constructor (method_of p.now m) }
{
    match p.methods.get(m as usize) {
        Some(desc) => desc.name.as_slice() == b".ctor".as_slice(),
        None => false,
    }
}

/// The member is a constructor of System.Object.
fn is_object_call(p: &Program, operand: &Operand) -> bool
    ensures { result ≡ is_object_call p.now (own_meaning p.now operand.now) }
{
    match own_meaning(p, operand) {
        Some(Meaning::OfMethod { owner, method, .. }) => {
            is_object(owner) && is_constructor(p, *method)
        }
        _ => false,
    }
}

/// The code is the call of Object's constructor on `this` and `ret`.
fn body_does_nothing(p: &Program, body: &Body) -> bool
    ensures { result ≡ body_does_nothing p.now body.now }
{
    match three_lines(body.instrs.as_slice()) {
        Some((first, second, third)) => {
            loads_this(first)
                && second.op == 0x28
                && is_object_call(p, &second.operand)
                && third.op == 0x2A
        }
        None => false,
    }
}

fn does_nothing(p: &Program, desc: &MethodDesc) -> bool
    ensures { result ≡ does_nothing p.now desc.now }
{
    desc.params.is_empty()
        && match &desc.body {
            Some(body) => body_does_nothing(p, body),
            None => false,
        }
}

#[tactic(auto, unfolding(cil_semantics::specs::Lookups::no_method))]
fn method_does_nothing(p: &Program, m: u32) -> bool
    ensures { result ≡ does_nothing p.now (method_of p.now m) }
{
    match p.methods.get(m as usize) {
        Some(desc) => does_nothing(p, desc),
        None => false,
    }
}

fn is_plain_constructor(p: &Program, operand: &Operand) -> bool
    ensures { result ≡ is_plain_constructor p.now (own_meaning p.now operand.now) }
{
    match own_meaning(p, operand) {
        Some(Meaning::OfMethod { method, .. }) => method_does_nothing(p, *method),
        _ => false,
    }
}

fn makes_plain_class(p: &Program, operand: &Operand) -> bool
    ensures { result ≡ maybe false (λ k. is_plain_class p.now (type_of p.now k)) (made_type p.now operand.now) }
{
    match made_type(p, operand) {
        Some(k) => is_plain_class(p, k),
        None => false,
    }
}

/// `newobj` of a nested class that a compiler made and whose making does nothing.
pub(crate) fn makes_plain_closure(p: &Program, instr: &Instr) -> bool
    ensures { result ≡ makes_plain_closure p.now instr.now }
{
    makes_closure(p, instr)
        && makes_plain_class(p, &instr.operand)
        && is_plain_constructor(p, &instr.operand)
}
