// What stands where a pointer leads, and stores there (ECMA-335, I.12.1.1.2).

ghost use Rattle.std.specs.Prelude.{◌≡◌, ◌∷◌, false, IfOk};
ghost use Rattle.cil_semantics.specs.Frames.{read, write};
ghost use Rattle.run_places.specs.Done.{state_if};

use crate::cells::copied_some;
use crate::frames::{Variable, read_argument, read_local, write_argument, write_local};
use crate::objects::{read_object, write_object};
use crate::statics::{read_static, write_static};
use cil_model::{Pointer, Program, Value};
use cil_semantics::{Frame, Frames, World};
use std::alloc::{AllocError, Global};

/// What stands where a pointer leads, with the topmost frame and those below it.
pub fn read(
    alloc: Global,
    program: &Program,
    top: &Frame,
    below: &Frames,
    world: &World,
    q: &Pointer,
) -> Result<Option<Value>, AllocError>
    ensures { IfOk result (λ v. v ≡ read program.now (top.now ∷ below.now) world.now q.now) }
{
    match q {
        Pointer::Arg {
            frame,
            method,
            index,
            path,
        } => {
            let at = Variable {
                frame: *frame as usize,
                method: *method,
                index: *index as usize,
            };
            copied_some(alloc, read_argument(top, below, at, path.as_slice()))
        }
        Pointer::Local {
            frame,
            method,
            index,
            path,
        } => {
            let at = Variable {
                frame: *frame as usize,
                method: *method,
                index: *index as usize,
            };
            copied_some(alloc, read_local(top, below, at, path.as_slice()))
        }
        Pointer::Inside { object, path } => {
            copied_some(alloc, read_object(world, *object, path.as_slice()))
        }
        Pointer::Static { owner, field, path } => {
            read_static(alloc, program, world, owner, *field, path.as_slice())
        }
    }
}

/// Stores a value where a pointer leads, and answers whether that may be done; else nothing is changed.
pub fn write(
    alloc: Global,
    program: &Program,
    top: &mut Frame,
    below: &mut Frames,
    world: &mut World,
    q: &Pointer,
    v: Value,
) -> Result<bool, AllocError>
    ensures done { IfOk result (λ done. state_if done (top.new ∷ below.new) world.new ≡ write program.now (top.old ∷ below.old) world.old q.now v) }
    ensures kept { IfOk result (λ done. done ≡ false → (top.new ≡ top.old) × (below.new ≡ below.old) × (world.new ≡ world.old)) }
{
    match q {
        Pointer::Arg {
            frame,
            method,
            index,
            path,
        } => {
            let at = Variable {
                frame: *frame as usize,
                method: *method,
                index: *index as usize,
            };
            write_argument(alloc, program, top, below, at, path.as_slice(), v)
        }
        Pointer::Local {
            frame,
            method,
            index,
            path,
        } => {
            let at = Variable {
                frame: *frame as usize,
                method: *method,
                index: *index as usize,
            };
            write_local(alloc, program, top, below, at, path.as_slice(), v)
        }
        Pointer::Inside { object, path } => {
            write_object(alloc, program, world, *object, path.as_slice(), v)
        }
        Pointer::Static { owner, field, path } => {
            write_static(alloc, program, world, owner, *field, path.as_slice(), v)
        }
    }
}
