// The types of TypeDef, TypeRef and TypeSpec rows, as values of their own.
ghost use Rattle.std.specs.Prelude.{◌≡◌, ◌+◌, ◌*◌, option_map, IfOk};
ghost use Rattle.std.specs.Option.{option_copied};
ghost use Rattle.set_types.specs.CodedTypes.{coded_of};
ghost use Rattle.set_types.specs.SignatureTypes.{ty_of};

use cil_model::Ty;
use set_signatures::DEEPEST;
use set_types::{CodedTypes, type_at};
use std::alloc::{AllocError, Global};

pub fn copied(alloc: Global, ty: Option<&Ty>) -> Result<Option<Ty>, AllocError>
    ensures { IfOk result (λ t. t ≡ option_copied ty.entry) }
{
    match ty {
        Some(ty) => Ok(Some(ty.copied(alloc)?)),
        None => Ok(None),
    }
}

/// The type of a TypeDef row.
pub fn type_of_definition(
    alloc: Global,
    coded: &CodedTypes,
    row: u32,
) -> Result<Option<Ty>, AllocError>
    ensures { IfOk result (λ t. t ≡ (coded_of coded.now).named (row * 4)) }
{
    if row == 0 {
        return Ok(None);
    }
    copied(alloc, coded.defs.get(row as usize - 1))
}

/// The type that a TypeRef row names.
pub fn type_of_reference(
    alloc: Global,
    coded: &CodedTypes,
    row: u32,
) -> Result<Option<Ty>, AllocError>
    ensures { IfOk result (λ t. t ≡ (coded_of coded.now).named (row * 4 + 1)) }
{
    if row == 0 {
        return Ok(None);
    }
    match coded.refs.get(row as usize - 1) {
        Some(Some(ty)) => Ok(Some(ty.copied(alloc)?)),
        _ => Ok(None),
    }
}

/// The type in a TypeSpec row.
pub fn type_of_spec(alloc: Global, coded: &CodedTypes, row: u32) -> Result<Option<Ty>, AllocError>
    ensures { IfOk result (λ t. t ≡ option_map (ty_of (coded_of coded.now)) ((coded_of coded.now).spec row)) }
{
    match coded.spec(row) {
        Some(ty) => Ok(Some(type_at(alloc, coded, DEEPEST, ty)?)),
        None => Ok(None),
    }
}
