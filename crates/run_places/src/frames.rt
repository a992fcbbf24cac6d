// Arguments and locals of frames, where pointers lead to them (ECMA-335, I.12.3.2 and I.12.1.1.2).

ghost use Rattle.std.specs.Prelude.{◌≡◌, ◌∷◌, [], false, option_and_then, IfOk};
ghost use Rattle.std.specs.Option.{option_copied};
ghost use Rattle.cil_semantics.specs.Frames.{cell_in, frame_at, in_frame, set_args, set_locals};
ghost use Rattle.cil_semantics.specs.declared.Frame.{Frame as FrameOf};
ghost use Rattle.run_places.specs.Done.{frames_if, local_if};

use crate::cells::{put_in, read_in, stored_at};
use cil_model::{Program, Value};
use cil_semantics::{Frame, Frames, Local};
use std::alloc::{AllocError, Global};

/// An argument or a local of the frame of a number, counted from below, which runs a method.
#[derive(Clone, Copy)]
pub(crate) struct Variable {
    pub frame: usize,
    pub method: u32,
    pub index: usize,
}

fn top_of(top: &Frame, method: u32) -> Option<&Frame>
    ensures { option_copied result ≡ frame_at (top.now ∷ []) 0 method }
{
    if top.method == method {
        Some(top)
    } else {
        None
    }
}

/// The frame of a number, counted from below, if it runs that method.
fn frame_of<'a>(top: &'a Frame, below: &'a Frames, number: usize, method: u32) -> Option<&'a Frame>
    ensures { option_copied result ≡ frame_at (top.now ∷ below.now) number method }
{
    if number == below.len() {
        top_of(top, method)
    } else {
        below.of_number(number, method)
    }
}

/// What stands in an argument of a frame, or in a struct there, where a path leads.
pub(crate) fn read_argument<'a>(
    top: &'a Frame,
    below: &'a Frames,
    at: Variable,
    path: &[u32],
) -> Option<&'a Value>
    ensures { option_copied result ≡ option_and_then (λ (f : FrameOf). cell_in f.local.args (at.index ∷ path.now)) (frame_at (top.now ∷ below.now) at.frame at.method) }
{
    match frame_of(top, below, at.frame, at.method) {
        None => None,
        Some(frame) => read_in(&frame.local.args, at.index, path),
    }
}

/// What stands in a local of a frame, or in a struct there, where a path leads.
pub(crate) fn read_local<'a>(
    top: &'a Frame,
    below: &'a Frames,
    at: Variable,
    path: &[u32],
) -> Option<&'a Value>
    ensures { option_copied result ≡ option_and_then (λ (f : FrameOf). cell_in f.local.locals (at.index ∷ path.now)) (frame_at (top.now ∷ below.now) at.frame at.method) }
{
    match frame_of(top, below, at.frame, at.method) {
        None => None,
        Some(frame) => read_in(&frame.local.locals, at.index, path),
    }
}

fn put_argument(
    alloc: Global,
    program: &Program,
    local: &mut Local,
    place: usize,
    path: &[u32],
    v: Value,
) -> Result<bool, AllocError>
    ensures done { IfOk result (λ done. local_if done local.new ≡ set_args program.now (place ∷ path.now) v local.old) }
    ensures kept { IfOk result (λ done. done ≡ false → local.new ≡ local.old) }
{
    let done = put_in(alloc, program, &mut local.args, place, path, v)?;
    Ok(done)
}

fn put_local(
    alloc: Global,
    program: &Program,
    local: &mut Local,
    place: usize,
    path: &[u32],
    v: Value,
) -> Result<bool, AllocError>
    ensures done { IfOk result (λ done. local_if done local.new ≡ set_locals program.now (place ∷ path.now) v local.old) }
    ensures kept { IfOk result (λ done. done ≡ false → local.new ≡ local.old) }
{
    let done = put_in(alloc, program, &mut local.locals, place, path, v)?;
    Ok(done)
}

fn put_argument_below(
    alloc: Global,
    program: &Program,
    below: &mut Frames,
    at: Variable,
    path: &[u32],
    v: Value,
) -> Result<bool, AllocError>
    ensures done { IfOk result (λ done. frames_if done below.new ≡ in_frame below.old at.frame at.method (set_args program.now (at.index ∷ path.now) v)) }
    ensures kept { IfOk result (λ done. done ≡ false → below.new ≡ below.old) }
{
    let Some(frame) = below.of_number(at.frame, at.method) else {
        return Ok(false);
    };
    match stored_at(alloc, program, &frame.local.args, at.index, path, v)? {
        None => Ok(false),
        Some(left) => {
            below.put_argument(at.frame, at.index, left);
            Ok(true)
        }
    }
}

fn put_local_below(
    alloc: Global,
    program: &Program,
    below: &mut Frames,
    at: Variable,
    path: &[u32],
    v: Value,
) -> Result<bool, AllocError>
    ensures done { IfOk result (λ done. frames_if done below.new ≡ in_frame below.old at.frame at.method (set_locals program.now (at.index ∷ path.now) v)) }
    ensures kept { IfOk result (λ done. done ≡ false → below.new ≡ below.old) }
{
    let Some(frame) = below.of_number(at.frame, at.method) else {
        return Ok(false);
    };
    match stored_at(alloc, program, &frame.local.locals, at.index, path, v)? {
        None => Ok(false),
        Some(left) => {
            below.put_local(at.frame, at.index, left);
            Ok(true)
        }
    }
}

/// Stores into an argument of a frame, and answers whether that may be done.
pub(crate) fn write_argument(
    alloc: Global,
    program: &Program,
    top: &mut Frame,
    below: &mut Frames,
    at: Variable,
    path: &[u32],
    v: Value,
) -> Result<bool, AllocError>
    ensures done { IfOk result (λ done. frames_if done (top.new ∷ below.new) ≡ in_frame (top.old ∷ below.old) at.frame at.method (set_args program.now (at.index ∷ path.now) v)) }
    ensures kept { IfOk result (λ done. done ≡ false → (top.new ≡ top.old) × (below.new ≡ below.old)) }
{
    if at.frame != below.len() {
        let done = put_argument_below(alloc, program, below, at, path, v)?;
        return Ok(done);
    }
    if top.method != at.method {
        return Ok(false);
    }
    let done = put_argument(alloc, program, &mut top.local, at.index, path, v)?;
    Ok(done)
}

/// Stores into a local of a frame, and answers whether that may be done.
pub(crate) fn write_local(
    alloc: Global,
    program: &Program,
    top: &mut Frame,
    below: &mut Frames,
    at: Variable,
    path: &[u32],
    v: Value,
) -> Result<bool, AllocError>
    ensures done { IfOk result (λ done. frames_if done (top.new ∷ below.new) ≡ in_frame (top.old ∷ below.old) at.frame at.method (set_locals program.now (at.index ∷ path.now) v)) }
    ensures kept { IfOk result (λ done. done ≡ false → (top.new ≡ top.old) × (below.new ≡ below.old)) }
{
    if at.frame != below.len() {
        let done = put_local_below(alloc, program, below, at, path, v)?;
        return Ok(done);
    }
    if top.method != at.method {
        return Ok(false);
    }
    let done = put_local(alloc, program, &mut top.local, at.index, path, v)?;
    Ok(done)
}
