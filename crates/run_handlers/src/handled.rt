// Which handlers go on at a place (ECMA-335, I.12.4.2).

ghost use Rattle.std.specs.Prelude.{◌≡◌, ◌++◌, [], filter, reverse, IfOk, OnOk};
ghost use Rattle.cil_semantics.specs.Unwind.{handled_at, in_handler, innermost};

use crate::regions::is_in_handler;
use cil_model::Region;
use cil_semantics::{Cause, Handlings, ProgramPoint};
use std::alloc::{AllocError, Global};

// Moves all to another list, which turns them round.
fn turn_all(from: &mut Handlings, to: &mut Handlings) -> Result<(), AllocError>
    ensures to { OnOk result (to.new ≡ reverse from.old ++ to.old) }
    ensures from { OnOk result (from.new ≡ []) }
{
    while let Some(one) = from.pop() {
        to.push(one)?;
    }
    Ok(())
}

// Moves those that hold a place to another list, which turns them round, and drops the others.
fn turn_in(
    regions: &[Region],
    q: u32,
    from: &mut Handlings,
    to: &mut Handlings,
) -> Result<(), AllocError>
    ensures { OnOk result (to.new ≡ filter (in_handler regions.now q) (reverse from.old) ++ to.old) }
{
    while let Some(one) = from.pop() {
        if is_in_handler(regions, q, &one) {
            to.push(one)?;
        }
    }
    Ok(())
}

#[tactic(auto, using(crate::proofs::TurnLaws::turned_twice))]
fn keep_in(
    alloc: Global,
    regions: &[Region],
    q: u32,
    handling: &mut Handlings,
) -> Result<(), AllocError>
    ensures { OnOk result (handling.new ≡ filter (in_handler regions.now q) handling.old) }
{
    let mut turned = Handlings::new(alloc);
    turn_all(handling, &mut turned)?;
    turn_in(regions, q, &mut turned, handling)?;
    Ok(())
}

/// Keeps of the handlers that run those that go on at a place; in a piece of a contract none does. An error leaves any list.
pub fn keep_at(
    alloc: Global,
    regions: &[Region],
    at: ProgramPoint,
    handling: &mut Handlings,
) -> Result<(), AllocError>
    ensures { OnOk result (handling.new ≡ handled_at regions.now at handling.old) }
{
    match at {
        ProgramPoint::LeadIn(q) => keep_in(alloc, regions, q, handling)?,
        ProgramPoint::InGroup(_, _, _) => *handling = Handlings::new(alloc),
        ProgramPoint::Rest(q) => keep_in(alloc, regions, q, handling)?,
    }
    Ok(())
}

// Moves those before the innermost catch, and it too, to another list, which turns them round.
fn turn_to_catch(from: &mut Handlings, to: &mut Handlings) -> Result<Option<u32>, AllocError>
    ensures caught { IfOk result (λ x. x ≡ innermost from.old) }
    ensures moved { OnOk result (reverse to.new ++ from.new ≡ reverse to.old ++ from.old) }
{
    while let Some(one) = from.pop() {
        to.push(one)?;
        if let Cause::Caught(x) = one.cause {
            return Ok(Some(x));
        }
    }
    Ok(None)
}

/// The exception of the innermost catch that runs. The list is as before, but an error leaves any.
pub fn innermost(alloc: Global, handling: &mut Handlings) -> Result<Option<u32>, AllocError>
    ensures caught { IfOk result (λ x. x ≡ innermost handling.old) }
    ensures kept { OnOk result (handling.new ≡ handling.old) }
{
    let mut turned = Handlings::new(alloc);
    let caught = turn_to_catch(handling, &mut turned)?;
    turn_all(&mut turned, handling)?;
    Ok(caught)
}
