// A frame leaves try blocks and handlers (ECMA-335, III.3.46).

ghost use Rattle.std.specs.Prelude.{◌≡◌, List, OnOk};
ghost use Rattle.cil_semantics.specs.Unwind.{leave};
ghost use Rattle.cil_semantics.specs.declared.Frame.{Frame as FrameOf};
ghost use Rattle.run_groups.specs.Begun.{standing};
ghost use Rattle.run_leaving.specs.Resumed.{arrives_empty, left_to};

use cil_semantics::{Cause, Frame, World};
use run_groups::arrive;
use run_handlers::{find_finally, regions_of};
use run_machine::Machine;
use run_unwind::{begin_handler, moved_to};
use std::alloc::{AllocError, Global};

// The frame comes to the target, with an empty stack.
fn arrive_empty(
    alloc: Global,
    machine: &Machine<'_>,
    to: u32,
    frame: &mut Frame,
    world: &mut World,
) -> Result<(), AllocError>
    ensures { (fs : List FrameOf) → OnOk result (standing frame.new fs world.new ≡ arrives_empty machine.now.program machine.now.contracts to frame.old fs world.old) }
{
    frame.local.stack.clear();
    let at = moved_to(to, frame.at);
    arrive(alloc, machine, at, frame, world)?;
    Ok(())
}

// The first finally that is left, from a region's number on, with the place where its handler begins.
fn next_finally(
    machine: &Machine<'_>,
    method: u32,
    skip: usize,
    q: u32,
    to: u32,
) -> Option<(usize, u32)>
    ensures { result ≡ left_to machine.now.program method skip q to }
{
    match find_finally(regions_of(machine.program(), method), skip, q, to) {
        None => None,
        Some((number, region)) => Some((number, region.handler_from)),
    }
}

/// A `leave` goes on from a region's number on, from the place `q` to its target: through the next finally, or to the target, in both with
/// an empty stack. An error leaves any frame and world.
pub fn leave(
    alloc: Global,
    machine: &Machine<'_>,
    skip: usize,
    q: u32,
    to: u32,
    frame: &mut Frame,
    world: &mut World,
) -> Result<(), AllocError>
    ensures { (fs : List FrameOf) → OnOk result (standing frame.new fs world.new ≡ leave machine.now.program machine.now.contracts skip q to frame.old frame.old.handling fs world.old) }
{
    match next_finally(machine, frame.method, skip, q, to) {
        None => arrive_empty(alloc, machine, to, frame, world)?,
        Some((number, from)) => {
            frame.local.stack.clear();
            let cause = Cause::Leaving(to);
            begin_handler(alloc, machine.program(), frame, number, from, cause, q)?;
        }
    }
    Ok(())
}
