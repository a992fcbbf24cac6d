// What a reply that says nothing gives (ECMA-335, I.12.1 and II.15.4.1.3).

ghost use Rattle.std.specs.Prelude.{◌≡◌, IfOk};
ghost use Rattle.cil_semantics.specs.Outside.{default_reply};
ghost use Rattle.cil_semantics.specs.Places.{is_void};

use cil_model::{Program, Ty, Value};
use il_opcodes::Storage;
use run_values::{default_of, storage_of};
use std::alloc::{AllocError, Global};

pub(crate) fn is_nothing(storage: Storage) -> bool
    ensures { result ≡ is_void storage }
{
    matches!(storage, Storage::Void)
}

/// The default value of a result's type, or nothing where the type is `void`.
pub fn default_reply(alloc: Global, program: &Program, ty: &Ty) -> Result<Option<Value>, AllocError>
    ensures { IfOk result (λ v. v ≡ default_reply program.now ty.now) }
{
    if is_nothing(storage_of(program, ty)) {
        return Ok(None);
    }
    Ok(Some(default_of(alloc, program, ty)?))
}
