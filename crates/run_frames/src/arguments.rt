// What a call is given, stored by the types of its parameters (ECMA-335, I.12.1.6 and III.1.6).

ghost use Rattle.std.specs.Prelude.{◌≡◌, IfOk};
ghost use Rattle.cil_semantics.specs.Frames.{stored_args};
ghost use Rattle.cil_semantics.specs.Places.{new_cell};

use cil_model::{Program, Ty, Value};
use cil_semantics::{Cell, Cells};
use run_values::{copied_value, stored_by_type};
use std::alloc::{AllocError, Global};

fn new_cell(
    alloc: Global,
    program: &Program,
    ty: &Ty,
    value: &Value,
) -> Result<Option<Cell>, AllocError>
    ensures { IfOk result (λ cell. cell ≡ new_cell program.now ty.now value.now) }
{
    let copy = copied_value(alloc, value)?;
    match stored_by_type(alloc, program, ty, copy)? {
        None => Ok(None),
        Some(value) => Ok(Some(Cell {
            ty: ty.copied(alloc)?,
            value,
        })),
    }
}

/// Each value stored in a place of its parameter's type; `None` where one is of another kind, or there are more or fewer values than types.
#[tactic(auto, using(crate::proofs::ArgumentLaws::uneven, crate::proofs::ArgumentLaws::whole, crate::proofs::ArgumentLaws::one_more))]
pub fn stored_args(
    alloc: Global,
    program: &Program,
    tys: &[Ty],
    values: &[Value],
) -> Result<Option<Cells>, AllocError>
    ensures { IfOk result (λ cells. cells ≡ stored_args program.now tys.now values.now) }
{
    if tys.len() != values.len() {
        return Ok(None);
    }
    let mut cells = Cells::new(alloc);
    for k in 0..tys.len() {
        match new_cell(alloc, program, &tys[k], &values[k])? {
            None => return Ok(None),
            Some(cell) => cells.push(cell)?,
        }
    }
    Ok(Some(cells))
}
