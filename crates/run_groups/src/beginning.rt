// Groups and their pieces begin (Code Contracts User Manual, sections 2 and 6.2).

ghost use Rattle.std.specs.Prelude.{◌≡◌, ◌+◌, List, false, IfOk, OnOk};
ghost use Rattle.cil_semantics.specs.State.{Next};
ghost use Rattle.cil_semantics.specs.Unwind.{after_entry_piece, begin_entry, begin_group, begin_piece, begin_rest, go_to_rest, next_piece};
ghost use Rattle.cil_semantics.specs.declared.Frame.{Frame as FrameOf};
ghost use Rattle.cil_semantics.specs.declared.World.{World as WorldOf};
ghost use Rattle.run_groups.specs.Begun.{begun_or, cleared_at, moved_at, place_of_entry, standing};

use crate::depth::{lower_depth, raise_depth, runs_at};
use crate::taking_part::next_place;
use cil_model::{Group, Program};
use cil_semantics::{Frame, Handlings, ProgramPoint, World};
use run_machine::Plan;
use std::alloc::{AllocError, Global};

// The frame stands at a place where no handler runs.
fn move_at(alloc: Global, at: ProgramPoint, frame: &mut Frame)
    ensures { frame.new ≡ moved_at at frame.old }
{
    frame.handling = Handlings::new(alloc);
    frame.at = at;
}

// The frame stands at a place where no handler runs, with an empty stack.
fn clear_at(alloc: Global, at: ProgramPoint, frame: &mut Frame)
    ensures { frame.new ≡ cleared_at at frame.old }
{
    frame.local.stack.clear();
    move_at(alloc, at, frame);
}

// The rest begins, with the stack that is there.
fn go_to_rest(alloc: Global, program: &Program, plan: &Plan<'_>, frame: &mut Frame)
    ensures { (fs : List FrameOf) (w : WorldOf) → standing frame.new fs w ≡ go_to_rest program.now plan.now frame.old fs w }
{
    move_at(alloc, ProgramPoint::Rest(plan.parts().1), frame);
}

/// The rest begins, with an empty stack.
pub fn begin_rest(alloc: Global, program: &Program, plan: &Plan<'_>, frame: &mut Frame)
    ensures { (fs : List FrameOf) (w : WorldOf) → standing frame.new fs w ≡ begin_rest program.now plan.now frame.old fs w }
{
    clear_at(alloc, ProgramPoint::Rest(plan.parts().1), frame);
}

/// The first piece of a group begins that runs, from a number on. Answers whether there is one; else the frame is as it was.
pub fn begin_next(
    alloc: Global,
    program: &Program,
    plan: &Plan<'_>,
    group: Group,
    number: usize,
    frame: &mut Frame,
    world: &World,
) -> Result<bool, AllocError>
    ensures begun { (fs : List FrameOf) (w : WorldOf) (over : Next) → IfOk result (λ begun. begun_or begun frame.new fs w over ≡ begin_piece program.now group (next_piece program.now plan.now group number frame.old fs world.now) frame.old fs w over) }
    ensures kept { IfOk result (λ begun. begun ≡ false → frame.new ≡ frame.old) }
{
    let pieces = plan.pieces(group);
    match next_place(alloc, program, group, pieces, number, frame, world)? {
        None => Ok(false),
        Some(at) => {
            clear_at(alloc, at, frame);
            Ok(true)
        }
    }
}

/// A group runs, with the depth one higher, or is passed over. Answers whether it runs; else the frame and the world are as they were.
pub fn begin_group(
    alloc: Global,
    program: &Program,
    plan: &Plan<'_>,
    group: Group,
    frame: &mut Frame,
    world: &mut World,
) -> Result<bool, AllocError>
    ensures begun { (fs : List FrameOf) (over : Next) → IfOk result (λ begun. begun_or begun frame.new fs world.new over ≡ begin_group program.now plan.now group frame.old fs world.old over) }
    ensures kept { IfOk result (λ begun. begun ≡ false → (frame.new ≡ frame.old) × (world.new ≡ world.old)) }
{
    if !runs_at(plan, group, world.depth) {
        return Ok(false);
    }
    let begun = begin_next(alloc, program, plan, group, 0, frame, world)?;
    if begun {
        raise_depth(world)?;
    }
    Ok(begun)
}

/// Behind a piece of the entry group the next one begins, or the rest.
pub fn after_entry_piece(
    alloc: Global,
    program: &Program,
    plan: &Plan<'_>,
    number: u32,
    frame: &mut Frame,
    world: &mut World,
) -> Result<(), AllocError>
    ensures { (fs : List FrameOf) → OnOk result (standing frame.new fs world.new ≡ after_entry_piece program.now plan.now number frame.old fs world.old) }
{
    let next = number as usize + 1;
    if begin_next(alloc, program, plan, Group::Entry, next, frame, world)? {
        return Ok(());
    }
    begin_rest(alloc, program, plan, frame);
    lower_depth(world);
    Ok(())
}

// Where the entry group begins, if it runs.
fn place_of_entry(
    alloc: Global,
    program: &Program,
    plan: &Plan<'_>,
    frame: &Frame,
    world: &World,
) -> Result<Option<ProgramPoint>, AllocError>
    ensures { (fs : List FrameOf) → IfOk result (λ at. at ≡ place_of_entry program.now plan.now frame.now fs world.now) }
{
    if !runs_at(plan, Group::Entry, world.depth) {
        return Ok(None);
    }
    let pieces = plan.pieces(Group::Entry);
    let at = next_place(alloc, program, Group::Entry, pieces, 0, frame, world)?;
    Ok(at)
}

/// The entry group runs, or is passed over. Its first piece, or the rest, finds the stack of the lead-in.
pub(crate) fn begin_entry(
    alloc: Global,
    program: &Program,
    plan: &Plan<'_>,
    frame: &mut Frame,
    world: &mut World,
) -> Result<(), AllocError>
    ensures { (fs : List FrameOf) → OnOk result (standing frame.new fs world.new ≡ begin_entry program.now plan.now frame.old fs world.old) }
{
    match place_of_entry(alloc, program, plan, frame, world)? {
        None => go_to_rest(alloc, program, plan, frame),
        Some(at) => {
            move_at(alloc, at, frame);
            raise_depth(world)?;
        }
    }
    Ok(())
}
