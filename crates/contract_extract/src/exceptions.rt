// The exceptions that contracts name.

ghost use Rattle.std.specs.Prelude.{◌≡◌, ◌%◌, ◌==◌, ◌&&◌, ◌||◌, true, bytes_eq, codes, slice_get, option_and_then, option_copied};
ghost use Rattle.std.specs.List.{list_any};
ghost use Rattle.cil_model.specs.declared.ty.Ty.{out-Ty};
ghost use Rattle.cil_semantics.specs.Core.{ends_with};
ghost use Rattle.cil_semantics.specs.Lookups.{type_of, method_of};
ghost use Rattle.cil_semantics.specs.Tokens.{own_meaning};
ghost use Rattle.cil_semantics.specs.Words.{maybe};
ghost use Rattle.contract_extract.specs.Exceptions.{is_no_exception, is_outside_exception, named_base, is_exception_within, takes_text, makes_exception, cant_be_made, must_be_made, is_wrong_outside, is_wrong_type};
ghost use Rattle.contract_extract.specs.Rules.{type_argument};

use cil_model::{ClauseKind, Meaning, MethodDesc, Operand, Program, Ty};
use contract_parts::{own_meaning, type_number};

fn is_no_exception(name: &[u8]) -> bool
    ensures { result ≡ is_no_exception name.now }
{
    b"System.ValueType".as_slice() == name
        || b"System.Enum".as_slice() == name
        || b"System.Array".as_slice() == name
        || b"System.Delegate".as_slice() == name
        || b"System.MulticastDelegate".as_slice() == name
        || b"System.IDisposable".as_slice() == name
}

fn is_wrong_outside(ty: &Ty) -> bool
    ensures { result ≡ is_wrong_outside (out-Ty ty.now) }
{
    match ty {
        Ty::Outside { name, .. } => is_no_exception(name.as_slice()),
        _ => true,
    }
}

fn ends_with(name: &[u8], end: &[u8]) -> bool
    ensures { result ≡ ends_with name.now end.now }
{
    &name[name.len().saturating_sub(end.len())..] == end
}

fn is_outside_exception(ty: &Ty) -> bool
    ensures { result ≡ is_outside_exception (out-Ty ty.now) }
{
    match ty {
        Ty::Outside { name, .. } => ends_with(name.as_slice(), b"Exception"),
        _ => false,
    }
}

fn base_of(p: &Program, k: u32) -> Option<&Ty>
    ensures { option_copied result ≡ option_and_then (λ d. d.base) (slice_get p.now.types k) }
{
    match p.types.get(k as usize) {
        Some(desc) => desc.base.as_ref(),
        None => None,
    }
}

/// The base that a type of the set names.
fn named_base<'a>(p: &'a Program, ty: &Ty) -> Option<&'a Ty>
    ensures { option_copied result ≡ named_base p.now ty.now }
{
    match type_number(ty) {
        Some(k) => base_of(p, k),
        None => None,
    }
}

/// An outside exception class is the type or among so many bases.
#[tactic(auto, using(crate::proofs::ExceptionLaws::found, crate::proofs::ExceptionLaws::ended, crate::proofs::ExceptionLaws::goes_on, crate::proofs::ExceptionLaws::none_left))]
fn is_exception_within(p: &Program, ty: &Ty, steps: usize) -> bool
    ensures { result ≡ is_exception_within steps p.now ty.now }
{
    let mut at = ty;
    for step in 0..steps {
        if is_outside_exception(at) {
            return true;
        }
        match named_base(p, at) {
            Some(base) => at = base,
            None => return false,
        }
    }
    false
}

fn takes_text(params: &[Ty]) -> bool
    ensures { result ≡ takes_text params.now }
{
    match params {
        [] => true,
        [ty] => matches!(ty, Ty::Prim(0x0E)),
        _ => false,
    }
}

#[tactic(auto, unfolding(cil_semantics::specs::Lookups::no_method))]
fn assembly_of(p: &Program, m: u32) -> u32
    ensures { result ≡ (method_of p.now m).assembly }
{
    match p.methods.get(m as usize) {
        Some(desc) => desc.assembly,
        None => 0,
    }
}

/// A constructor that a clause of an assembly's method can call with a text or nothing.
fn makes_text(desc: &MethodDesc, assembly: u32) -> bool
    ensures { result ≡ (bytes_eq desc.now.name (codes ".ctor") && (takes_text desc.now.params && ((desc.now.flags % 8 == 6) || (((desc.now.flags % 8 == 3) || (desc.now.flags % 8 == 5)) && (assembly == desc.now.assembly))))) }
{
    let access = desc.flags % 8;
    desc.name.as_slice() == b".ctor".as_slice()
        && takes_text(desc.params.as_slice())
        && (access == 6 || ((access == 3 || access == 5) && assembly == desc.assembly))
}

#[tactic(auto, unfolding(cil_semantics::specs::Lookups::no_method))]
fn makes_exception(p: &Program, home: u32, m: u32) -> bool
    ensures { result ≡ makes_exception p.now home m }
{
    match p.methods.get(m as usize) {
        Some(desc) => makes_text(desc, assembly_of(p, home)),
        None => false,
    }
}

fn is_made(p: &Program, home: u32, methods: &[u32]) -> bool
    ensures { result ≡ list_any (makes_exception p.now home) methods.now }
{
    methods.iter().any(|m| makes_exception(p, home, *m))
}

/// An abstract class, or one without such a constructor.
#[tactic(auto, unfolding(cil_semantics::specs::Lookups::contract_exception))]
fn cant_be_made(p: &Program, home: u32, k: u32) -> bool
    ensures { result ≡ cant_be_made p.now home (type_of p.now k) }
{
    match p.types.get(k as usize) {
        Some(desc) => { desc.flags / 128 % 2 == 1 || !is_made(p, home, desc.methods.as_slice()) }
        None => true,
    }
}

fn must_be_made(kind: ClauseKind) -> bool
    ensures { result ≡ must_be_made kind }
{
    matches!(kind, ClauseKind::RequiresOf)
}

/// The type is no exception type, or is to be made and can't be.
fn is_wrong_type(p: &Program, home: u32, kind: ClauseKind, ty: &Ty) -> bool
    ensures { result ≡ is_wrong_type p.now home kind ty.now }
{
    match type_number(ty) {
        Some(k) => {
            !is_exception_within(p, ty, p.types.as_slice().len() + 1)
                || (must_be_made(kind) && cant_be_made(p, home, k))
        }
        None => is_wrong_outside(ty),
    }
}

/// A member's type argument is no exception type that a contract of this kind can name.
pub(crate) fn has_wrong_type(p: &Program, home: u32, kind: ClauseKind, operand: &Operand) -> bool
    ensures { result ≡ maybe true (is_wrong_type p.now home kind) (type_argument (own_meaning p.now operand.now)) }
{
    match own_meaning(p, operand) {
        Some(Meaning::OfMethod { args, .. }) => match args.get(0) {
            Some(ty) => is_wrong_type(p, home, kind, ty),
            None => true,
        },
        _ => true,
    }
}
