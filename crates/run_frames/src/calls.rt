// The topmost frame, and those below it (ECMA-335, I.12.3.2).

ghost use Rattle.std.specs.Prelude.{◌≡◌, [], ◌∷◌, length, nat_le, true, false, OnOk};
ghost use Rattle.cil_semantics.specs.Limits.{most_frames};
ghost use Rattle.cil_semantics.specs.declared.Frame.{Frame as FrameOf};

use cil_semantics::{Frame, Frames};
use std::alloc::AllocError;
use std::mem;

/// A frame begins over all others. An error leaves any.
pub fn push_frame(top: &mut Frame, below: &mut Frames, frame: Frame) -> Result<(), AllocError>
    ensures top { OnOk result (top.new ≡ frame) }
    ensures below { OnOk result (below.new ≡ top.old ∷ below.old) }
{
    let caller = mem::replace(top, frame);
    below.push(caller)?;
    Ok(())
}

/// The topmost frame ends. Answers whether there is one below, which is the topmost then; else the frames are as before.
pub fn pop_frame(top: &mut Frame, below: &mut Frames) -> bool
    ensures popped { result ≡ true → below.old ≡ top.new ∷ below.new }
    ensures last { result ≡ false → below.old ≡ [] }
    ensures kept { result ≡ false → (top.new ≡ top.old) × (below.new ≡ below.old) }
{
    match below.pop() {
        None => false,
        Some(frame) => {
            *top = frame;
            true
        }
    }
}

/// Whether there are 2^20 frames or more, the topmost one among them.
pub fn are_full(below: &Frames) -> bool
    ensures { (top : FrameOf) → result ≡ nat_le most_frames (length (top ∷ below.now)) }
{
    below.len() >= 0xF_FFFF
}
