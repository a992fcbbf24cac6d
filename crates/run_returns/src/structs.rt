// The struct that a constructor made (ECMA-335, III.4.21).

ghost use Rattle.std.specs.Prelude.{◌≡◌, IfOk};
ghost use Rattle.cil_semantics.specs.Returns.{last_cell};

use cil_model::Value;
use cil_semantics::Cells;
use run_values::copied_value;
use std::alloc::{AllocError, Global};

/// The struct that a constructor made, which stands behind its arguments.
#[tactic(auto, using(crate::proofs::ReturnLaws::last_is, crate::proofs::ReturnLaws::none_last))]
pub fn struct_made(alloc: Global, args: &Cells) -> Result<Option<Value>, AllocError>
    ensures { IfOk result (λ v. v ≡ last_cell args.now) }
{
    if args.len() == 0 {
        return Ok(None);
    }
    match args.get(args.len() - 1) {
        None => Ok(None),
        Some(cell) => Ok(Some(copied_value(alloc, &cell.value)?)),
    }
}
