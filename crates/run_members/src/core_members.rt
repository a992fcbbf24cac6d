// The members of core classes that a run knows itself (ECMA-335, Partition IV; Code Contracts User Manual, section 2.7).

ghost use Rattle.std.specs.Prelude.{◌≡◌, ◌==◌, ◌&&◌, ◌||◌, not, codes, if◌then◌else◌, length, true, false, IfOk};
ghost use Rattle.cil_model.specs.declared.ty.Ty.{out-Ty};
ghost use Rattle.cil_semantics.specs.Calls as calls;
ghost use Rattle.cil_semantics.specs.Core as core_types;
ghost use Rattle.cil_semantics.specs.Lookups.{method_of};
ghost use Rattle.cil_semantics.specs.Types.{same_ty};
ghost use Rattle.run_members.specs.Told.{told};

use crate::classes::is_core_exception;
use crate::events::{is_text_type, params_of};
use call_acts::{name_of_method, name_of_type};
use cil_model::{Program, Ty};
use look_ups::{are_same, is_same};
use std::alloc::{AllocError, Global};

/// A core member: the constructor of Object or of an exception, members of String, ForAll and Exists; or none of them.
#[derive(Clone, Copy)]
pub enum CoreMember {
    Constructor,
    Equality(bool),
    Concatenation,
    TextLength,
    IsNullOrEmpty,
    Quantifier(bool),
    NotCore,
}

fn is_outside_type(ty: &Ty) -> bool
    ensures { result ≡ calls.is_outside_type (out-Ty ty.now) }
{
    matches!(ty, Ty::Prim(_) | Ty::Outside { .. })
}

fn is_plain_object(program: &Program, owner: &Ty, method: u32) -> bool
    ensures { result ≡ (same_ty owner.now core_types.object_ty && (length (method_of program.now method).params == 0)) }
{
    is_same(owner, &Ty::Prim(0x1C)) && params_of(program, method).len() == 0
}

fn is_constructor(name: &[u8]) -> bool
    ensures { result ≡ calls.is_named name.now (codes ".ctor") }
{
    name == b".ctor".as_slice()
}

// Whether it is a constructor that makes an object without fields.
fn makes_core(alloc: Global, program: &Program, owner: &Ty, method: u32) -> Result<bool, AllocError>
    ensures { IfOk result (λ is. is ≡ (calls.is_named (method_of program.now method).name (codes ".ctor") && ((same_ty owner.now core_types.object_ty && (length (method_of program.now method).params == 0)) || calls.is_core_exception program.now owner.now))) }
{
    if !is_constructor(name_of_method(program, method)) {
        return Ok(false);
    }
    if is_plain_object(program, owner, method) {
        return Ok(true);
    }
    let is = is_core_exception(alloc, program, owner)?;
    Ok(is)
}

fn are_texts(tys: &[Ty]) -> bool
    ensures { result ≡ calls.are_strings tys.now }
{
    are_same(tys, &[Ty::Prim(0x0E), Ty::Prim(0x0E)])
}

fn is_concat(name: &[u8]) -> bool
    ensures { result ≡ calls.is_named name.now (codes "Concat") }
{
    name == b"Concat".as_slice()
}

fn string_member(name: &[u8], count: usize) -> CoreMember
    ensures { told result ≡ calls.string_member name.now count }
{
    if name == b"op_Equality".as_slice() {
        return CoreMember::Equality(true);
    }
    if name == b"op_Inequality".as_slice() {
        return CoreMember::Equality(false);
    }
    if is_concat(name) && count == 2 {
        return CoreMember::Concatenation;
    }
    if name == b"get_Length".as_slice() {
        return CoreMember::TextLength;
    }
    if name == b"IsNullOrEmpty".as_slice() {
        return CoreMember::IsNullOrEmpty;
    }
    CoreMember::NotCore
}

fn member_of_string(program: &Program, method: u32) -> CoreMember
    ensures { told result ≡ (if (calls.is_named (method_of program.now method).name (codes "Concat") && not (calls.are_strings (method_of program.now method).params)) then calls.NotCore else calls.string_member (method_of program.now method).name (length (method_of program.now method).params)) }
{
    let name = name_of_method(program, method);
    let params = params_of(program, method);
    if is_concat(name) && !are_texts(params) {
        return CoreMember::NotCore;
    }
    string_member(name, params.len())
}

fn is_contract(name: &[u8]) -> bool
    ensures { result ≡ calls.is_named name.now core_types.contract_name }
{
    name == b"System.Diagnostics.Contracts.Contract".as_slice()
}

fn member_of_contract(owner: &[u8], name: &[u8]) -> CoreMember
    ensures { told result ≡ (if calls.is_named owner.now core_types.contract_name && calls.is_named name.now (codes "ForAll") then calls.Quantifier false else if calls.is_named owner.now core_types.contract_name && calls.is_named name.now (codes "Exists") then calls.Quantifier true else calls.NotCore) }
{
    if !is_contract(owner) {
        return CoreMember::NotCore;
    }
    if name == b"ForAll".as_slice() {
        return CoreMember::Quantifier(false);
    }
    if name == b"Exists".as_slice() {
        return CoreMember::Quantifier(true);
    }
    CoreMember::NotCore
}

/// Which core member a method is, as seen in a closed type.
#[tactic(auto, unfolding(cil_semantics::specs::Calls::core_of))]
pub fn core_of(
    alloc: Global,
    program: &Program,
    owner: &Ty,
    method: u32,
) -> Result<CoreMember, AllocError>
    ensures { IfOk result (λ m. told m ≡ calls.core_of program.now owner.now method) }
{
    if !is_outside_type(owner) {
        return Ok(CoreMember::NotCore);
    }
    if makes_core(alloc, program, owner, method)? {
        return Ok(CoreMember::Constructor);
    }
    if is_text_type(owner) {
        return Ok(member_of_string(program, method));
    }
    let name = name_of_method(program, method);
    Ok(member_of_contract(name_of_type(program, owner), name))
}
