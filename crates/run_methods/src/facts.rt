// What a method is by its row (ECMA-335, II.22.26, II.15.4.1 and II.23.1.10).

ghost use Rattle.std.specs.Prelude.{◌≡◌, is_some, IfOk};
ghost use Rattle.cil_semantics.specs.Dispatch.{has_bit};
ghost use Rattle.cil_semantics.specs.Frames.{gives_value, is_use, owner_type};
ghost use Rattle.cil_semantics.specs.Lookups.{args_of, method_of, type_of};
ghost use Rattle.cil_semantics.specs.Outside.{is_outside};
ghost use Rattle.cil_semantics.specs.Places.{is_void};
ghost use Rattle.cil_semantics.specs.Types.{under};

use call_acts::{copied_tys, name_of_method};
use cil_model::{Program, Ty};
use il_opcodes::Storage;
use look_ups::{args_of, ty_under};
use run_values::storage_of;
use std::alloc::{AllocError, Global};

/// Whether a method is static. A number past the methods is.
#[tactic(auto, unfolding(cil_semantics::specs::Lookups::no_method))]
pub fn is_static_method(program: &Program, method: u32) -> bool
    ensures { result ≡ (method_of program.now method).is_static }
{
    match program.methods.get(method as usize) {
        Some(desc) => desc.is_static,
        None => true,
    }
}

/// Whether a method has a body.
#[tactic(auto, unfolding(cil_semantics::specs::Lookups::no_method))]
pub fn has_body(program: &Program, method: u32) -> bool
    ensures { result ≡ is_some (method_of program.now method).body }
{
    match program.methods.get(method as usize) {
        Some(desc) => desc.body.is_some(),
        None => false,
    }
}

#[tactic(auto, unfolding(cil_semantics::specs::Lookups::no_method))]
fn is_of_outside(program: &Program, method: u32) -> bool
    ensures { result ≡ (method_of program.now method).outside }
{
    match program.methods.get(method as usize) {
        Some(desc) => desc.outside,
        None => true,
    }
}

/// The number of the type that a method belongs to.
#[tactic(auto, unfolding(cil_semantics::specs::Lookups::no_method))]
pub fn owner_of(program: &Program, method: u32) -> u32
    ensures { result ≡ (method_of program.now method).owner }
{
    match program.methods.get(method as usize) {
        Some(desc) => desc.owner,
        None => 0,
    }
}

/// The type of a method's owner, with its arguments.
pub fn owner_type(
    alloc: Global,
    program: &Program,
    method: u32,
    args: &[Ty],
) -> Result<Ty, AllocError>
    ensures { IfOk result (λ ty. ty ≡ owner_type program.now method args.now) }
{
    let ty = owner_of(program, method);
    if args.is_empty() {
        return Ok(Ty::Known(ty));
    }
    let args = copied_tys(alloc, args)?;
    Ok(Ty::Inst { ty, args })
}

#[tactic(auto, unfolding(cil_semantics::specs::Lookups::contract_exception))]
fn is_type_of_reference(program: &Program, k: u32) -> bool
    ensures { result ≡ (type_of program.now k).reference }
{
    match program.types.get(k as usize) {
        Some(desc) => desc.reference,
        None => false,
    }
}

#[tactic(auto, unfolding(cil_semantics::specs::Lookups::no_method))]
fn flags_of(program: &Program, method: u32) -> u16
    ensures { result ≡ (method_of program.now method).flags }
{
    match program.methods.get(method as usize) {
        Some(desc) => desc.flags,
        None => 0,
    }
}

fn is_abstract(flags: u16) -> bool
    ensures { result ≡ has_bit flags 10 }
{
    flags / 0x400 % 2 == 1
}

/// Whether the type of a method's owner belongs to a contract reference assembly.
pub fn is_of_reference(program: &Program, method: u32) -> bool
    ensures { result ≡ (type_of program.now (method_of program.now method).owner).reference }
{
    is_type_of_reference(program, owner_of(program, method))
}

/// Whether a member is outside: it isn't in the set, belongs to a contract reference assembly, or has no body and isn't abstract.
#[tactic(auto, unfolding(cil_semantics::specs::Outside::is_outside))]
pub fn is_outside(program: &Program, method: u32) -> bool
    ensures { result ≡ is_outside program.now method }
{
    is_of_outside(program, method)
        || (is_of_reference(program, method)
            || (!has_body(program, method) && !is_abstract(flags_of(program, method))))
}

/// The closed type that a method gives, where its type and it have these arguments.
#[tactic(auto, unfolding(cil_semantics::specs::Lookups::no_method))]
pub fn result_under(
    alloc: Global,
    program: &Program,
    owner: &Ty,
    method: u32,
    args: &[Ty],
) -> Result<Ty, AllocError>
    ensures { IfOk result (λ ty. ty ≡ under (args_of owner.now) args.now (method_of program.now method).result) }
{
    match program.methods.get(method as usize) {
        Some(desc) => ty_under(alloc, &desc.result, args_of(owner), args),
        None => Ok(Ty::Prim(0x01)),
    }
}

fn is_nothing(storage: Storage) -> bool
    ensures { result ≡ is_void storage }
{
    matches!(storage, Storage::Void)
}

/// Whether a method has a result, where its type and it have these arguments.
pub fn gives_value(
    alloc: Global,
    program: &Program,
    owner: &Ty,
    method: u32,
    args: &[Ty],
) -> Result<bool, AllocError>
    ensures { IfOk result (λ gives. gives ≡ gives_value program.now owner.now method args.now) }
{
    let ty = result_under(alloc, program, owner, method, args)?;
    Ok(!is_nothing(storage_of(program, &ty)))
}

/// Whether a call of a method is a use of its type: the method is static or a constructor.
pub fn is_use(program: &Program, method: u32) -> bool
    ensures { result ≡ is_use (method_of program.now method) }
{
    is_static_method(program, method) || name_of_method(program, method) == b".ctor".as_slice()
}
