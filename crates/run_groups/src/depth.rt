// How many groups run within one another (Code Contracts User Manual, section 6.2).

ghost use Rattle.std.specs.Prelude.{◌≡◌, OnOk};
ghost use Rattle.cil_semantics.specs.Contracted.{runs_at};
ghost use Rattle.cil_semantics.specs.State.{lowered, raised};

use cil_model::Group;
use cil_semantics::World;
use run_machine::Plan;
use std::alloc::AllocError;

/// A group begins. A depth past four bytes is answered as want of memory.
pub fn raise_depth(world: &mut World) -> Result<(), AllocError>
    ensures { OnOk result (world.new ≡ raised world.old) }
{
    match world.depth.checked_add(1) {
        None => Err(AllocError),
        Some(depth) => {
            world.depth = depth;
            Ok(())
        }
    }
}

/// A group is over.
pub fn lower_depth(world: &mut World)
    ensures { world.new ≡ lowered world.old }
{
    world.depth = world.depth.saturating_sub(1);
}

/// Whether a group runs within so many others.
pub(crate) fn runs_at(plan: &Plan<'_>, group: Group, depth: u32) -> bool
    ensures { result ≡ runs_at plan.now group depth }
{
    match group {
        Group::Invariant => depth == 0,
        _ => depth <= plan.settings().guard,
    }
}
