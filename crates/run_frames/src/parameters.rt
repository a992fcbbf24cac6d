// Types of what a call is given (ECMA-335, I.12.1.4 and III.4.2).

ghost use Rattle.std.specs.Prelude.{◌≡◌, IfOk};
ghost use Rattle.cil_semantics.specs.Frames.{param_types, this_type};
ghost use Rattle.cil_semantics.specs.Lookups.{args_of, method_of};
ghost use Rattle.cil_semantics.specs.Places.{is_reference};
ghost use Rattle.cil_semantics.specs.Types.{all_under};

use cil_model::{Program, Ty, Tys};
use il_opcodes::Storage;
use look_ups::{all_under, args_of};
use run_values::storage_of;
use sqlite_items::Boxed;
use std::alloc::{AllocError, Global};

fn is_of_references(storage: Storage) -> bool
    ensures { result ≡ is_reference storage }
{
    matches!(storage, Storage::Reference)
}

/// The type of `this` in a method of a closed type: a reference, or a pointer to a struct.
pub fn this_type(alloc: Global, program: &Program, owner: &Ty) -> Result<Ty, AllocError>
    ensures { IfOk result (λ ty. ty ≡ this_type program.now owner.now) }
{
    let own = owner.copied(alloc)?;
    if is_of_references(storage_of(program, owner)) {
        return Ok(own);
    }
    Ok(Ty::ByRef(Boxed::new(alloc, own)?))
}

#[tactic(auto, unfolding(cil_semantics::specs::Lookups::no_method))]
fn is_static(program: &Program, method: u32) -> bool
    ensures { result ≡ (method_of program.now method).is_static }
{
    match program.methods.get(method as usize) {
        Some(desc) => desc.is_static,
        None => true,
    }
}

#[tactic(auto, unfolding(cil_semantics::specs::Lookups::no_method))]
fn named_params(program: &Program, method: u32) -> &[Ty]
    ensures { result.now ≡ (method_of program.now method).params }
{
    match program.methods.get(method as usize) {
        Some(desc) => desc.params.as_slice(),
        None => &[],
    }
}

/// The types of what a call of a method of a closed type is given, under these arguments of the method; the first is that of `this`,
/// unless the method is static.
pub fn param_types(
    alloc: Global,
    program: &Program,
    owner: &Ty,
    method: u32,
    args: &[Ty],
) -> Result<Tys, AllocError>
    ensures { IfOk result (λ tys. tys ≡ param_types program.now owner.now method args.now) }
{
    let rest = all_under(alloc, named_params(program, method), args_of(owner), args)?;
    if is_static(program, method) {
        return Ok(rest);
    }
    let mut tys = Tys::new(alloc);
    tys.push(this_type(alloc, program, owner)?)?;
    tys.append(rest)?;
    Ok(tys)
}
