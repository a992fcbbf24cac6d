// New objects of the heap (ECMA-335, I.12.3; how cells are counted is this project's own).

ghost use Rattle.std.specs.Prelude.{◌≡◌, length, [], IfOk, OnOk};
ghost use Rattle.cil_semantics.specs.State.{counted, object_size, with_object};
ghost use Rattle.cil_semantics.specs.Unwind.{initialization_failed};
ghost use Rattle.cil_semantics.specs.declared.Cell.{Cell as CellOf};

use cil_base::Bytes;
use cil_model::{Program, Ty};
use cil_semantics::{Cells, Object, World};
use il_opcodes::Storage;
use run_values::storage_of;
use std::alloc::{AllocError, Global};

fn counted(storage: Storage, cells: &Cells) -> u64
    ensures { result ≡ counted storage cells.now }
{
    match storage {
        Storage::Fields(count) => count as u64,
        _ => cells.len() as u64,
    }
}

fn object_size(program: &Program, object: &Object) -> Result<u64, AllocError>
    ensures { IfOk result (λ size. size ≡ object_size program.now object.now) }
{
    match counted(storage_of(program, &object.ty), &object.cells).checked_add(1) {
        None => Err(AllocError),
        Some(size) => Ok(size),
    }
}

/// The world has one more object, and its cells are counted. A count past eight bytes is answered as want of memory.
pub fn add_object(program: &Program, object: Object, world: &mut World) -> Result<(), AllocError>
    ensures { OnOk result (world.new ≡ with_object program.now object world.old) }
{
    let size = object_size(program, &object)?;
    match world.cells.checked_add(size) {
        None => Err(AllocError),
        Some(cells) => {
            world.heap.push(object)?;
            world.cells = cells;
            Ok(())
        }
    }
}

/// The exception of a use of a type whose initializer has failed.
pub(crate) fn new_initialization_failed(alloc: Global) -> Result<Object, AllocError>
    ensures { IfOk result (λ object. object ≡ initialization_failed) }
{
    Ok(Object {
        ty: Ty::Outside {
            name: Bytes::from_slice(alloc, b"System.TypeInitializationException")?,
            value: false,
        },
        cells: Cells::new(alloc),
    })
}
