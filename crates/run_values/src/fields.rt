// The instance fields of closed types.

ghost use Rattle.std.specs.Prelude.{◌≡◌, [], filter, map, IfOk};
ghost use Rattle.cil_semantics.specs.Lookups.{field_of, type_of};
ghost use Rattle.cil_semantics.specs.Places.{field_types};
ghost use Rattle.cil_semantics.specs.Types.{under};
ghost use Rattle.run_values.specs.Kinds.{is_instance_field};

use crate::kinds::is_instance;
use cil_model::{Program, Ty, Tys};
use look_ups::ty_under;
use std::alloc::{AllocError, Global};

// The type of a field, where these stand for the parameters of its type.
#[tactic(auto, unfolding(cil_semantics::specs::Lookups::no_field))]
fn type_of_field(
    alloc: Global,
    program: &Program,
    args: &[Ty],
    field: u32,
) -> Result<Ty, AllocError>
    ensures { IfOk result (λ ty. ty ≡ under args.now [] (field_of program.now field).ty) }
{
    match program.fields.get(field as usize) {
        Some(desc) => ty_under(alloc, &desc.ty, args, &[]),
        None => Ok(Ty::Opaque),
    }
}

fn types_of_instance_fields(
    alloc: Global,
    program: &Program,
    args: &[Ty],
    fields: &[u32],
) -> Result<Tys, AllocError>
    ensures { IfOk result (λ tys. tys ≡ map (λ f. under args.now [] (field_of program.now f).ty) (filter (is_instance_field program.now) fields.now)) }
{
    let mut tys = Tys::new(alloc);
    for field in fields {
        if is_instance(program, *field) {
            tys.push(type_of_field(alloc, program, args, *field)?)?;
        }
    }
    Ok(tys)
}

#[tactic(auto, unfolding(cil_semantics::specs::Lookups::contract_exception))]
pub(crate) fn fields_of(program: &Program, k: u32) -> &[u32]
    ensures { result.now ≡ (type_of program.now k).fields }
{
    match program.types.get(k as usize) {
        Some(desc) => desc.fields.as_slice(),
        None => &[],
    }
}

/// The types of the instance fields of a closed type of the set itself; no other type has any.
#[tactic(auto, unfolding(cil_semantics::specs::Places::field_types))]
pub fn types_of_fields(alloc: Global, program: &Program, ty: &Ty) -> Result<Tys, AllocError>
    ensures { IfOk result (λ tys. tys ≡ field_types program.now ty.now) }
{
    match ty {
        Ty::Known(k) => types_of_instance_fields(alloc, program, &[], fields_of(program, *k)),
        Ty::Inst { ty, args } => {
            types_of_instance_fields(alloc, program, args.as_slice(), fields_of(program, *ty))
        }
        _ => Ok(Tys::new(alloc)),
    }
}
