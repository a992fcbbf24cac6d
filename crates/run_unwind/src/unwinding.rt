// An exception goes down the frames (ECMA-335, I.12.4.2.5).

ghost use Rattle.std.specs.Prelude.{ℕ, ◌≡◌, ◌<◌, ◌∷◌, List, length, true, false, IfOk};
ghost use Rattle.cil_model.specs.declared.contract.Contracts.{Contracts as ContractsOf};
ghost use Rattle.cil_model.specs.declared.program.Program.{Program as ProgramOf};
ghost use Rattle.cil_semantics.specs.Unwind.{place_in, throws_in, unwind};
ghost use Rattle.cil_semantics.specs.declared.World.{World as WorldOf};
ghost use Rattle.run_unwind.specs.Unwound.{IsLower, ends_thrown, unwound_to, way_to};

use crate::ending::{end_frame, hasnt_begun};
use crate::throwing::throw_in;
use cil_semantics::{Frame, Frames, ProgramPoint, World};
use run_frames::pop_frame;
use run_machine::Machine;
use std::alloc::{AllocError, Global};

/// Where an exception's way ends: the topmost frame goes on, or none caught the exception of this number.
#[derive(Clone, Copy)]
pub enum Unwound {
    Handled,
    Uncaught(u32),
}

/// What an exception does in one frame: the frame goes on, or the exception of this number goes on in the next frame, or there is none.
#[derive(Clone, Copy)]
pub(crate) enum Way {
    Handled,
    Uncaught(u32),
    Down(u32),
}

// The topmost frame ends, and below it one that hasn't begun is passed over. Answers whether there is another one.
#[tactic(auto, unfolding(cil_semantics::specs::Unwind::unwind))]
fn next_frame(top: &mut Frame, below: &mut Frames, skip: bool) -> bool
    ensures more { (p : ProgramOf) (k : ContractsOf) (w : WorldOf) (x : ℕ) → result ≡ true → unwind p k false (top.new ∷ below.new) w x ≡ unwind p k skip below.old w x }
    ensures none { (p : ProgramOf) (k : ContractsOf) (w : WorldOf) (x : ℕ) → result ≡ false → ends_thrown p w x ≡ unwind p k skip below.old w x }
    ensures fewer { result ≡ true → length below.new < length below.old }
{
    if !pop_frame(top, below) {
        return false;
    }
    if skip {
        return pop_frame(top, below);
    }
    true
}

// The exception in the topmost frame, from a region's number on, thrown at a place.
fn throw_from(
    alloc: Global,
    machine: &Machine<'_>,
    top: &mut Frame,
    below: &mut Frames,
    world: &mut World,
    exception: u32,
    skip: usize,
    place: u32,
) -> Result<Way, AllocError>
    ensures way { IfOk result (λ way. way_to machine.now.program machine.now.contracts way (top.new ∷ below.new) world.new ≡ throws_in machine.now.program machine.now.contracts top.old top.old.handling skip place below.old world.old exception (λ s v y. unwind machine.now.program machine.now.contracts s below.old v y)) }
    ensures lower { IfOk result (λ way. IsLower way (length below.new) (length below.old)) }
{
    if throw_in(alloc, machine, top, skip, place, world, exception)? {
        return Ok(Way::Handled);
    }
    let next = end_frame(alloc, machine.program(), top, world, exception)?;
    let skips = hasnt_begun(&top.continuation);
    if next_frame(top, below, skips) {
        return Ok(Way::Down(next));
    }
    Ok(Way::Uncaught(next))
}

fn place_in(at: ProgramPoint) -> u32
    ensures { result ≡ place_in at }
{
    match at {
        ProgramPoint::LeadIn(q) => q,
        ProgramPoint::InGroup(_, _, q) => q,
        ProgramPoint::Rest(q) => q,
    }
}

// The same from where the frame stands.
#[tactic(auto, unfolding(cil_semantics::specs::Unwind::unwind))]
fn throw_on(
    alloc: Global,
    machine: &Machine<'_>,
    top: &mut Frame,
    below: &mut Frames,
    world: &mut World,
    exception: u32,
) -> Result<Way, AllocError>
    ensures way { IfOk result (λ way. way_to machine.now.program machine.now.contracts way (top.new ∷ below.new) world.new ≡ unwind machine.now.program machine.now.contracts false (top.old ∷ below.old) world.old exception) }
    ensures lower { IfOk result (λ way. IsLower way (length below.new) (length below.old)) }
{
    let place = place_in(top.at);
    let way = throw_from(alloc, machine, top, below, world, exception, 0, place)?;
    Ok(way)
}

/// An exception goes down the frames, from the topmost one on, from where each stands. An error leaves any frames and world.
pub fn unwind(
    alloc: Global,
    machine: &Machine<'_>,
    top: &mut Frame,
    below: &mut Frames,
    world: &mut World,
    exception: u32,
) -> Result<Unwound, AllocError>
    ensures { IfOk result (λ it. unwound_to machine.now.program it (top.new ∷ below.new) world.new ≡ unwind machine.now.program machine.now.contracts false (top.old ∷ below.old) world.old exception) }
{
    let mut thrown = exception;
    'frames: loop {
        match throw_on(alloc, machine, top, below, world, thrown)? {
            Way::Handled => return Ok(Unwound::Handled),
            Way::Uncaught(x) => return Ok(Unwound::Uncaught(x)),
            Way::Down(x) => thrown = x,
        }
    }
}

/// An exception that goes on after a handler of the topmost frame: from a region's number on, as if thrown at a place, and then down the
/// frames.
pub fn unwind_from(
    alloc: Global,
    machine: &Machine<'_>,
    top: &mut Frame,
    below: &mut Frames,
    world: &mut World,
    exception: u32,
    skip: usize,
    place: u32,
) -> Result<Unwound, AllocError>
    ensures { IfOk result (λ it. unwound_to machine.now.program it (top.new ∷ below.new) world.new ≡ throws_in machine.now.program machine.now.contracts top.old top.old.handling skip place below.old world.old exception (λ s v y. unwind machine.now.program machine.now.contracts s below.old v y)) }
{
    match throw_from(alloc, machine, top, below, world, exception, skip, place)? {
        Way::Handled => Ok(Unwound::Handled),
        Way::Uncaught(x) => Ok(Unwound::Uncaught(x)),
        Way::Down(x) => {
            let it = unwind(alloc, machine, top, below, world, x)?;
            Ok(it)
        }
    }
}

/// An exception that is thrown where the topmost frame has ended: it goes down those below.
#[tactic(auto, unfolding(cil_semantics::specs::Unwind::unwind))]
pub fn unwind_below(
    alloc: Global,
    machine: &Machine<'_>,
    top: &mut Frame,
    below: &mut Frames,
    world: &mut World,
    exception: u32,
) -> Result<Unwound, AllocError>
    ensures { IfOk result (λ it. unwound_to machine.now.program it (top.new ∷ below.new) world.new ≡ unwind machine.now.program machine.now.contracts false below.old world.old exception) }
{
    if !next_frame(top, below, false) {
        return Ok(Unwound::Uncaught(exception));
    }
    let it = unwind(alloc, machine, top, below, world, exception)?;
    Ok(it)
}
