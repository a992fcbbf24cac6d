// Equal statics of their own.

ghost use Rattle.std.specs.Prelude.{◌≡◌, ◌++◌, IfOk, OnOk};

use cil_semantics::{Cell, Cells, Init, Statics, StaticsList};
use run_values::copied_value;
use std::alloc::{AllocError, Global};

pub(crate) fn copied_cells(alloc: Global, cells: &Cells) -> Result<Cells, AllocError>
    ensures { IfOk result (λ copies. copies ≡ cells.now) }
{
    let mut copies = Cells::with_capacity(alloc, cells.len())?;
    for cell in cells.as_slice() {
        copies.push(Cell {
            ty: cell.ty.copied(alloc)?,
            value: copied_value(alloc, &cell.value)?,
        })?;
    }
    Ok(copies)
}

fn copied(alloc: Global, statics: &Statics) -> Result<Statics, AllocError>
    ensures { IfOk result (λ copy. copy ≡ statics.now) }
{
    Ok(Statics {
        owner: statics.owner.copied(alloc)?,
        init: statics.init,
        cells: copied_cells(alloc, &statics.cells)?,
    })
}

/// Puts equal statics behind those of a list.
pub(crate) fn append_copies(
    alloc: Global,
    all: &mut StaticsList,
    more: &[Statics],
) -> Result<(), AllocError>
    ensures { OnOk result (all.new ≡ all.old ++ more.now) }
{
    for statics in more {
        all.push(copied(alloc, statics)?)?;
    }
    Ok(())
}
