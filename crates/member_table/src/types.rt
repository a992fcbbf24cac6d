// Types of a set by what coded types lead to (ECMA-335, II.24.2.6).
ghost use Rattle.std.specs.Prelude.{◌≡◌, IfOk};
ghost use Rattle.set_types.specs.CodedTypes.{coded_of};
ghost use Rattle.member_table.specs.Environments.{coded_ty_at, definition_of};

use cil_model::Ty;
use set_types::{CodedTypes, type_at};
use std::alloc::{AllocError, Global};

/// The type that a TypeDefOrRef index of a row names; None where it is 0 or names no row.
pub fn coded_type(alloc: Global, coded: &CodedTypes, index: u32) -> Result<Option<Ty>, AllocError>
    ensures { IfOk result (λ t. t ≡ coded_ty_at (coded_of coded.now) index) }
{
    if index / 4 == 0 {
        return Ok(None);
    }
    if index % 4 == 2 {
        return match coded.spec(index / 4) {
            None => Ok(None),
            Some(ty) => Ok(Some(type_at(alloc, coded, 1000, ty)?)),
        };
    }
    match coded.named(index) {
        None => Ok(None),
        Some(ty) => Ok(Some(ty.copied(alloc)?)),
    }
}

/// The number of a type of the set.
pub fn definition_of(ty: &Ty) -> Option<u32>
    ensures { result ≡ definition_of ty.now }
{
    match ty {
        Ty::Known(k) => Some(*k),
        Ty::Inst { ty: k, args: _ } => Some(*k),
        _ => None,
    }
}
