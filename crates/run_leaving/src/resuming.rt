// What a handler interrupted goes on (ECMA-335, III.3.35 and III.4.24).

ghost use Rattle.std.specs.Prelude.{◌≡◌, ◌∷◌, IfOk};
ghost use Rattle.cil_semantics.specs.Unwind.{resume, resume_cause};
ghost use Rattle.run_leaving.specs.Resumed.{rethrown, resumed_to};

use crate::leaving::leave;
use cil_semantics::{Cause, Frame, Frames, Handling, World};
use run_handlers::innermost;
use run_machine::Machine;
use run_unwind::{Unwound, unwind, unwind_from};
use std::alloc::{AllocError, Global};

/// How a run goes on: not at all, or as after an exception.
#[derive(Clone, Copy)]
pub enum Resumed {
    Stuck,
    Goes(Unwound),
}

fn resume_cause(
    alloc: Global,
    machine: &Machine<'_>,
    handling: Handling,
    top: &mut Frame,
    below: &mut Frames,
    world: &mut World,
) -> Result<Resumed, AllocError>
    ensures { IfOk result (λ it. resumed_to machine.now.program it (top.new ∷ below.new) world.new ≡ resume_cause machine.now.program machine.now.contracts handling handling.cause top.old.handling top.old below.old world.old) }
{
    let next = handling.next as usize;
    let place = handling.place;
    match handling.cause {
        Cause::Caught(_) => Ok(Resumed::Stuck),
        Cause::Unwinding(x) => {
            let it = unwind_from(alloc, machine, top, below, world, x, next, place)?;
            Ok(Resumed::Goes(it))
        }
        Cause::Leaving(to) => {
            leave(alloc, machine, next, place, to, top, world)?;
            Ok(Resumed::Goes(Unwound::Handled))
        }
    }
}

/// The end of a finally or fault: the exception or the `leave` that it interrupted goes on. An error leaves any frames and world.
pub fn resume(
    alloc: Global,
    machine: &Machine<'_>,
    top: &mut Frame,
    below: &mut Frames,
    world: &mut World,
) -> Result<Resumed, AllocError>
    ensures { IfOk result (λ it. resumed_to machine.now.program it (top.new ∷ below.new) world.new ≡ resume machine.now.program machine.now.contracts top.old.handling top.old below.old world.old) }
{
    match top.handling.pop() {
        None => Ok(Resumed::Stuck),
        Some(handling) => {
            let it = resume_cause(alloc, machine, handling, top, below, world)?;
            Ok(it)
        }
    }
}

/// The exception of the innermost catch is thrown again.
pub fn rethrow(
    alloc: Global,
    machine: &Machine<'_>,
    top: &mut Frame,
    below: &mut Frames,
    world: &mut World,
) -> Result<Resumed, AllocError>
    ensures { IfOk result (λ it. resumed_to machine.now.program it (top.new ∷ below.new) world.new ≡ rethrown machine.now.program machine.now.contracts top.old below.old world.old) }
{
    match innermost(alloc, &mut top.handling)? {
        None => Ok(Resumed::Stuck),
        Some(x) => {
            let it = unwind(alloc, machine, top, below, world, x)?;
            Ok(Resumed::Goes(it))
        }
    }
}
