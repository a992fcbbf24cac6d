// Which contract call an instruction is.

ghost use Rattle.std.specs.Prelude.{◌≡◌, bytes_eq, length, option_copied};
ghost use Rattle.cil_model.specs.declared.ty.Ty.{out-Ty};
ghost use Rattle.cil_semantics.specs.Core.{contract_name};
ghost use Rattle.cil_semantics.specs.Lookups.{type_of, method_of};
ghost use Rattle.cil_semantics.specs.Tokens.{own_meaning};
ghost use Rattle.cil_semantics.specs.ContractCalls.{is_bool, is_string, is_own, is_own_by_ref, is_called, takes_condition, condition_call, other_call, member_call, is_contract, abbreviator_call, static_call, contract_call};
ghost use Rattle.contract_parts.specs.CallKinds.{ends_block, is_prefix, ended_kind, checked_kind};

use cil_model::{ClauseKind, Instr, Meaning, MethodDesc, Operand, Program, Ty};
use cil_semantics::ContractCall;
use il_flow::meaning_in;

/// The class whose members are contract calls.
const CONTRACT: &[u8; 37] = b"System.Diagnostics.Contracts.Contract";

fn is_bool(ty: &Ty) -> bool
    ensures { result ≡ is_bool ty.now }
{
    matches!(ty, Ty::Prim(0x02))
}

fn is_string(ty: &Ty) -> bool
    ensures { result ≡ is_string ty.now }
{
    matches!(ty, Ty::Prim(0x0E))
}

/// The method's first own type parameter.
fn is_own(ty: &Ty) -> bool
    ensures { result ≡ is_own ty.now }
{
    matches!(ty, Ty::MVar(0))
}

fn is_own_by_ref(ty: &Ty) -> bool
    ensures { result ≡ is_own_by_ref ty.now }
{
    match ty {
        Ty::ByRef(item) => is_own(item.get()),
        _ => false,
    }
}

fn takes_condition(params: &[Ty]) -> bool
    ensures { result ≡ takes_condition params.now }
{
    match params {
        [condition] => is_bool(condition),
        [condition, message] => is_bool(condition) && is_string(message),
        _ => false,
    }
}

fn is_called(desc: &MethodDesc, name: &[u8], generics: u32) -> bool
    ensures { result ≡ is_called desc.now name.now generics }
{
    desc.name.as_slice() == name && desc.generics == generics
}

fn condition_call(desc: &MethodDesc) -> ContractCall
    ensures { result ≡ condition_call desc.now }
{
    if is_called(desc, b"Requires", 0) {
        ContractCall::EndsClause(ClauseKind::Requires)
    } else if is_called(desc, b"Requires", 1) {
        ContractCall::EndsClause(ClauseKind::RequiresOf)
    } else if is_called(desc, b"Ensures", 0) {
        ContractCall::EndsClause(ClauseKind::Ensures)
    } else if is_called(desc, b"EnsuresOnThrow", 1) {
        ContractCall::EndsClause(ClauseKind::Throws)
    } else if is_called(desc, b"Invariant", 0) {
        ContractCall::EndsClause(ClauseKind::Invariant)
    } else if is_called(desc, b"Assert", 0) {
        ContractCall::ChecksHere(ClauseKind::Assert)
    } else if is_called(desc, b"Assume", 0) {
        ContractCall::ChecksHere(ClauseKind::Assume)
    } else {
        ContractCall::NoContractCall
    }
}

fn other_call(desc: &MethodDesc) -> ContractCall
    ensures { result ≡ other_call desc.now }
{
    match desc.params.as_slice() {
        [] => {
            if is_called(desc, b"EndContractBlock", 0) {
                ContractCall::EndsBlock
            } else if is_called(desc, b"Result", 1) {
                ContractCall::GivesResult
            } else {
                ContractCall::NoContractCall
            }
        }
        [ty] => {
            if is_called(desc, b"OldValue", 1) && is_own(ty) {
                ContractCall::TakesOld
            } else if is_called(desc, b"ValueAtReturn", 1) && is_own_by_ref(ty) {
                ContractCall::ReadsArgument
            } else {
                ContractCall::NoContractCall
            }
        }
        _ => ContractCall::NoContractCall,
    }
}

fn member_call(desc: &MethodDesc) -> ContractCall
    ensures { result ≡ member_call desc.now }
{
    if takes_condition(desc.params.as_slice()) {
        condition_call(desc)
    } else {
        other_call(desc)
    }
}

/// The class of contract members, in the set or outside.
fn is_contract(p: &Program, owner: &Ty) -> bool
    ensures { result ≡ is_contract p.now (out-Ty owner.now) }
{
    match owner {
        Ty::Known(k) => is_contract_type(p, *k),
        Ty::Outside { name, .. } => name.as_slice() == CONTRACT.as_slice(),
        Ty::Inst { ty, .. } => is_contract_type(p, *ty),
        _ => false,
    }
}

fn is_contract_type(p: &Program, k: u32) -> bool
    ensures { result ≡ bytes_eq (type_of p.now k).name contract_name }
{
    match p.types.get(k as usize) {
        Some(ty) => ty.name.as_slice() == CONTRACT.as_slice(),
        None => false,
    }
}

fn is_abbreviator(p: &Program, m: u32) -> bool
    ensures { result ≡ (method_of p.now m).abbreviator }
{
    match p.methods.get(m as usize) {
        Some(desc) => desc.abbreviator,
        None => false,
    }
}

fn member_at(p: &Program, m: u32) -> ContractCall
    ensures { result ≡ member_call (method_of p.now m) }
{
    match p.methods.get(m as usize) {
        Some(desc) => member_call(desc),
        None => ContractCall::NoContractCall,
    }
}

fn abbreviator_call(p: &Program, meaning: Option<&Meaning>) -> ContractCall
    ensures { result ≡ abbreviator_call p.now (option_copied meaning.entry) }
{
    match meaning {
        Some(Meaning::OfMethod { method, .. }) => {
            if is_abbreviator(p, *method) {
                ContractCall::Abbreviates
            } else {
                ContractCall::NoContractCall
            }
        }
        _ => ContractCall::NoContractCall,
    }
}

fn static_call(p: &Program, meaning: Option<&Meaning>) -> ContractCall
    ensures { result ≡ static_call p.now (option_copied meaning.entry) }
{
    match meaning {
        Some(Meaning::OfMethod { owner, method, .. }) => {
            if is_contract(p, owner) {
                member_at(p, *method)
            } else if is_abbreviator(p, *method) {
                ContractCall::Abbreviates
            } else {
                ContractCall::NoContractCall
            }
        }
        _ => ContractCall::NoContractCall,
    }
}

/// What an operand's token means.
pub fn own_meaning<'a>(p: &'a Program, operand: &Operand) -> Option<&'a Meaning>
    ensures { option_copied result ≡ own_meaning p.now operand.now }
{
    match operand {
        Operand::Tok { assembly, token } => meaning_in(p, *assembly, *token),
        _ => None,
    }
}

/// Which contract call an instruction is (ECMA-335, III.3.19 and III.4.2).
#[tactic(auto, unfolding(cil_semantics::specs::ContractCalls::contract_call))]
pub fn contract_call(p: &Program, instr: &Instr) -> ContractCall
    ensures { result ≡ contract_call p.now instr.now }
{
    match instr.op {
        0x28 => static_call(p, own_meaning(p, &instr.operand)),
        0x6F => abbreviator_call(p, own_meaning(p, &instr.operand)),
        _ => ContractCall::NoContractCall,
    }
}

/// Whether the call ends a segment.
pub fn is_prefix(call: ContractCall) -> bool
    ensures { result ≡ is_prefix call }
{
    matches!(
        call,
        ContractCall::EndsClause(_) | ContractCall::EndsBlock | ContractCall::Abbreviates
    )
}

/// Whether the call is EndContractBlock.
pub fn ends_block(call: ContractCall) -> bool
    ensures { result ≡ ends_block call }
{
    matches!(call, ContractCall::EndsBlock)
}

/// The kind of the clause that the call ends.
pub fn ended_kind(call: ContractCall) -> Option<ClauseKind>
    ensures { result ≡ ended_kind call }
{
    match call {
        ContractCall::EndsClause(kind) => Some(kind),
        _ => None,
    }
}

/// The kind of an Assert or Assume.
pub fn checked_kind(call: ContractCall) -> Option<ClauseKind>
    ensures { result ≡ checked_kind call }
{
    match call {
        ContractCall::ChecksHere(kind) => Some(kind),
        _ => None,
    }
}

/// How many parameters a method has.
pub fn count_params(p: &Program, m: u32) -> usize
    ensures { result ≡ length (method_of p.now m).params }
{
    match p.methods.get(m as usize) {
        Some(desc) => desc.params.len(),
        None => 0,
    }
}
