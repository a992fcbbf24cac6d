// The tree of a body.
ghost use Rattle.std.specs.Prelude.{◌<◌, ◌^◌, length, IfOk};
ghost use Rattle.cil_base.specs.Refusals.{First, NoneBroken, OnRefused};
ghost use Rattle.cil_model.specs.ValidBody.{AllValidRegions};
ghost use Rattle.region_tree.specs.Rules.{BreaksControl};
ghost use Rattle.region_tree.specs.Trees.{StandsForBody};
ghost use Rattle.block_laws.specs.Growth.{SearchesLike};
ghost use Rattle.tree_building.specs.Building.{NestWell};

use crate::build::built_blocks;
use cil_base::{Fault, Place};
use cil_model::{Body, Tree};
use region_tree::control_fault;
use std::alloc::{AllocError, Global};

fn tree_with(alloc: Global, body: &Body) -> Result<Tree, AllocError>
    requires { length body.now.instrs < 2 ^ 32 }
    ensures body { IfOk result (λ t. NestWell body.now.regions → AllValidRegions (length body.now.instrs) body.now.regions → StandsForBody t body.now) }
    ensures search { IfOk result (λ t. NestWell body.now.regions → AllValidRegions (length body.now.instrs) body.now.regions → SearchesLike t.blocks body.now.regions) }
{
    Ok(Tree {
        blocks: built_blocks(alloc, body)?,
        locals: body.locals,
        max_stack: body.max_stack,
        init: body.init,
    })
}

/// The tree of a body, or the first of X1 to X4 that the body breaks (ECMA-335, I.12.4.2.7). The table may
/// stand in any order that X2 allows. Its places are to lie in the code, as those do that a reader of
/// bodies answers.
pub fn to_tree(alloc: Global, body: &Body, place: Place) -> Result<Tree, Fault>
    requires { length body.now.instrs < 2 ^ 32 }
    ensures refused { OnRefused result (First (BreaksControl place body.now)) }
    ensures unbroken { IfOk result (λ t. NoneBroken (BreaksControl place body.now)) }
    ensures body { AllValidRegions (length body.now.instrs) body.now.regions → IfOk result (λ t. StandsForBody t body.now) }
    ensures search { AllValidRegions (length body.now.instrs) body.now.regions → IfOk result (λ t. SearchesLike t.blocks body.now.regions) }
{
    match control_fault(alloc, body, place) {
        Ok(Some(refusal)) => Err(Fault::Refused(refusal)),
        Ok(None) => match tree_with(alloc, body) {
            Ok(tree) => Ok(tree),
            Err(e) => Err(Fault::Memory(e)),
        },
        Err(e) => Err(Fault::Memory(e)),
    }
}
