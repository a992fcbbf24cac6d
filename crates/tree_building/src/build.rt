// All rows of a table, one after another.
ghost use Rattle.std.specs.Prelude.{◌<◌, ◌^◌, ◌++◌, [], List, length, reverse, OnOk, IfOk};
ghost use Rattle.cil_model.specs.declared.body.Instr.{Instr};
ghost use Rattle.cil_model.specs.ValidBody.{AllValidRegions};
ghost use Rattle.tree_building.specs.Building.{AreBlocksOf, IsBuilt, NestWell};

use crate::adding::add_row;
use crate::moving::{move_back, take_blocks};
use crate::pieces::pieces;
use crate::span::Spans;
use cil_model::{Blocks, Body, Region};
use std::alloc::{AllocError, Global};

/// Adds the rows of a table to straight code.
fn add_rows(
    alloc: Global,
    regions: &[Region],
    front: &mut Spans,
    back: &mut Spans,
) -> Result<(), AllocError>
    ensures { OnOk result ((instrs : List Instr) → NestWell regions.now → AllValidRegions (length instrs) regions.now → IsBuilt instrs regions.now [] (front.old ++ reverse back.old) → IsBuilt instrs regions.now regions.now (front.new ++ reverse back.new)) }
{
    let mut own = Spans::new(alloc);
    for region in regions {
        add_row(alloc, region, front, back, &mut own)?;
    }
    Ok(())
}

/// The blocks of a body whose regions nest well.
pub(crate) fn built_blocks(alloc: Global, body: &Body) -> Result<Blocks, AllocError>
    requires { length body.now.instrs < 2 ^ 32 }
    ensures { IfOk result (λ bs. NestWell body.now.regions → AllValidRegions (length body.now.instrs) body.now.regions → AreBlocksOf body.now bs) }
{
    let regions = body.regions.as_slice();
    let mut front = pieces(alloc, body.instrs.as_slice(), regions)?;
    let mut back = Spans::new(alloc);
    add_rows(alloc, regions, &mut front, &mut back)?;
    move_back(0, &mut front, &mut back)?;
    take_blocks(alloc, &mut back)
}
