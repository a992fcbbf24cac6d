// A frame ends by an exception (ECMA-335, I.12.4.2.5 and II.10.5.3.1).

ghost use Rattle.std.specs.Prelude.{◌≡◌, IfOk};
ghost use Rattle.cil_semantics.specs.State.{next_object, with_object};
ghost use Rattle.cil_semantics.specs.Unwind.{Below, ends_frame, hasnt_begun, initialization_failed, with_failed};

use crate::initializing::fail_initializer;
use crate::objects::{add_object, new_initialization_failed};
use cil_model::{Program, Ty};
use cil_semantics::{Continuation, Frame, World};
use run_heap::number_of_next;
use std::alloc::{AllocError, Global};

/// Whether the frame below hasn't begun.
pub(crate) fn hasnt_begun(continuation: &Continuation) -> bool
    ensures { result ≡ hasnt_begun continuation.now }
{
    matches!(continuation, Continuation::BeginCallee)
}

// An exception of an initializer becomes another one, which is kept.
fn end_initializer(
    alloc: Global,
    program: &Program,
    ty: &Ty,
    world: &mut World,
) -> Result<u32, AllocError>
    ensures { IfOk result (λ y. (y ≡ next_object world.old) × (world.new ≡ with_failed ty.now (next_object world.old) (with_object program.now initialization_failed world.old))) }
{
    let number = number_of_next(world)?;
    add_object(program, new_initialization_failed(alloc)?, world)?;
    fail_initializer(alloc, ty, number, world)?;
    Ok(number)
}

/// The frame ends by an exception. Answers the exception that goes on below, which is another one where the frame runs an initializer.
pub(crate) fn end_frame(
    alloc: Global,
    program: &Program,
    frame: &Frame,
    world: &mut World,
    exception: u32,
) -> Result<u32, AllocError>
    ensures { (below : Below) → IfOk result (λ y. below (hasnt_begun frame.now.continuation) world.new y ≡ ends_frame program.now frame.now.initializes frame.now.continuation world.old exception below) }
{
    match &frame.initializes {
        None => Ok(exception),
        Some(ty) => {
            let number = end_initializer(alloc, program, ty, world)?;
            Ok(number)
        }
    }
}
