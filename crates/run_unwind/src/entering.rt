// A handler begins (ECMA-335, I.12.4.2.5 and I.12.4.2.7).

ghost use Rattle.std.specs.Prelude.{◌≡◌, ◌+◌, ◌∷◌, [], List, IfOk, OnOk};
ghost use Rattle.cil_model.specs.declared.value.Value.{Obj};
ghost use Rattle.cil_semantics.specs.State.{with_stack};
ghost use Rattle.cil_semantics.specs.Unwind.{goes_at, moved_to};
ghost use Rattle.cil_semantics.specs.declared.Cause.TheVariants.{Caught, Unwinding};
ghost use Rattle.cil_semantics.specs.declared.Frame.{Frame as FrameOf};
ghost use Rattle.cil_semantics.specs.declared.World.{World as WorldOf};
ghost use Rattle.run_groups.specs.Begun.{standing};

use cil_model::{Program, Value};
use cil_semantics::{Cause, Frame, Handling, ProgramPoint};
use run_groups::go_at;
use std::alloc::{AllocError, Global};

/// Another place of the same part of a frame.
pub fn moved_to(to: u32, at: ProgramPoint) -> ProgramPoint
    ensures { result ≡ moved_to to at }
{
    match at {
        ProgramPoint::LeadIn(_) => ProgramPoint::LeadIn(to),
        ProgramPoint::InGroup(group, number, _) => ProgramPoint::InGroup(group, number, to),
        ProgramPoint::Rest(_) => ProgramPoint::Rest(to),
    }
}

fn handling_of(handler: usize, cause: Cause, place: u32) -> Result<Handling, AllocError>
    ensures { IfOk result (λ it. it ≡ record { handler = handler; cause = cause; place = place; next = handler + 1 }) }
{
    match u32::try_from(handler) {
        Err(_) => Err(AllocError),
        Ok(handler) => match handler.checked_add(1) {
            None => Err(AllocError),
            Some(next) => Ok(Handling {
                handler,
                cause,
                place,
                next,
            }),
        },
    }
}

/// The handler of a region begins at its first place, by a cause that interrupted another place. A number past four bytes is answered as
/// want of memory.
pub fn begin_handler(
    alloc: Global,
    program: &Program,
    frame: &mut Frame,
    handler: usize,
    to: u32,
    cause: Cause,
    place: u32,
) -> Result<(), AllocError>
    ensures { (fs : List FrameOf) (w : WorldOf) → OnOk result (standing frame.new fs w ≡ goes_at program.now frame.old (moved_to to frame.old.at) frame.old.local (record { handler = handler; cause = cause; place = place; next = handler + 1 } ∷ frame.old.handling) fs w) }
{
    let handling = handling_of(handler, cause, place)?;
    frame.handling.push(handling)?;
    let at = moved_to(to, frame.at);
    go_at(alloc, program, at, frame)?;
    Ok(())
}

/// A catch begins, with the exception alone on the stack.
pub(crate) fn begin_catch(
    alloc: Global,
    program: &Program,
    frame: &mut Frame,
    handler: usize,
    to: u32,
    exception: u32,
    place: u32,
) -> Result<(), AllocError>
    ensures { (fs : List FrameOf) (w : WorldOf) → OnOk result (standing frame.new fs w ≡ goes_at program.now frame.old (moved_to to frame.old.at) (with_stack frame.old.local (Obj exception ∷ [])) (record { handler = handler; cause = Caught exception; place = place; next = handler + 1 } ∷ frame.old.handling) fs w) }
{
    frame.local.stack.clear();
    frame.local.stack.push(Value::Obj(exception))?;
    let cause = Cause::Caught(exception);
    begin_handler(alloc, program, frame, handler, to, cause, place)?;
    Ok(())
}

/// A finally or fault begins, with an empty stack.
pub(crate) fn begin_cleanup(
    alloc: Global,
    program: &Program,
    frame: &mut Frame,
    handler: usize,
    to: u32,
    exception: u32,
    place: u32,
) -> Result<(), AllocError>
    ensures { (fs : List FrameOf) (w : WorldOf) → OnOk result (standing frame.new fs w ≡ goes_at program.now frame.old (moved_to to frame.old.at) (with_stack frame.old.local []) (record { handler = handler; cause = Unwinding exception; place = place; next = handler + 1 } ∷ frame.old.handling) fs w) }
{
    frame.local.stack.clear();
    let cause = Cause::Unwinding(exception);
    begin_handler(alloc, program, frame, handler, to, cause, place)?;
    Ok(())
}
