// Places of a list of cells, and paths from there (ECMA-335, I.12.1.1.2).

ghost use Rattle.std.specs.Prelude.{◌≡◌, ◌∷◌, ◌<◌, false, length, option_and_then, slice_get, IfOk, OnSome};
ghost use Rattle.std.specs.Option.{option_copied};
ghost use Rattle.cil_semantics.specs.Frames.{cell_in, set_in};
ghost use Rattle.cil_semantics.specs.Places.{write_path};
ghost use Rattle.cil_semantics.specs.declared.Cell.{Cell as CellOf};
ghost use Rattle.frame_acts.specs.Stored.{cells_if};

use crate::paths::{read_path, write_path};
use cil_model::{Program, Value};
use cil_semantics::Cells;
use run_values::copied_value;
use std::alloc::{AllocError, Global};

/// What stands in a place, or in a struct there, where a path leads.
pub fn read_in<'a>(cells: &'a Cells, place: usize, path: &[u32]) -> Option<&'a Value>
    ensures { option_copied result ≡ cell_in cells.now (place ∷ path.now) }
{
    match cells.get(place) {
        None => None,
        Some(cell) => read_path(&cell.value, path),
    }
}

/// What a store leaves in a place, where it goes into a struct there as far as the path leads.
pub fn stored_at(
    alloc: Global,
    program: &Program,
    cells: &Cells,
    place: usize,
    path: &[u32],
    v: Value,
) -> Result<Option<Value>, AllocError>
    ensures value { IfOk result (λ left. left ≡ option_and_then (λ (c : CellOf). write_path program.now path.now c.ty v c.value) (slice_get cells.now place)) }
    ensures within { IfOk result (λ left. OnSome left (place < length cells.now)) }
{
    match cells.get(place) {
        None => Ok(None),
        Some(cell) => write_path(alloc, program, path, &cell.ty, v, &cell.value),
    }
}

// Stores into a place of a list, and answers whether that may be done.
pub(crate) fn put_in(
    alloc: Global,
    program: &Program,
    cells: &mut Cells,
    place: usize,
    path: &[u32],
    v: Value,
) -> Result<bool, AllocError>
    ensures done { IfOk result (λ done. cells_if done cells.new ≡ set_in program.now (place ∷ path.now) v cells.old) }
    ensures kept { IfOk result (λ done. done ≡ false → cells.new ≡ cells.old) }
{
    match stored_at(alloc, program, cells, place, path, v)? {
        None => Ok(false),
        Some(left) => {
            cells.put(place, left);
            Ok(true)
        }
    }
}

/// An equal value of its own, if there is one.
pub(crate) fn copied_some(alloc: Global, v: Option<&Value>) -> Result<Option<Value>, AllocError>
    ensures { IfOk result (λ copy. copy ≡ option_copied v.entry) }
{
    match v {
        None => Ok(None),
        Some(v) => Ok(Some(copied_value(alloc, v)?)),
    }
}
