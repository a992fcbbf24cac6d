// The heights of a method's body.
ghost use Rattle.std.specs.Prelude.{◌≡◌, ◌<◌, ◌^◌, length, IfOk, IsSome};
ghost use Rattle.cil_base.specs.Refusals.{InTurn, OnRefused};
ghost use Rattle.cil_semantics.specs.Lookups.{method_of};
ghost use Rattle.cil_semantics.specs.Unwind.{body_of};
ghost use Rattle.il_flow.specs.Effects.{effect_of};
ghost use Rattle.il_flow.specs.Meanings.{BreaksMeaning};
ghost use Rattle.il_flow.specs.Methods.{BreaksHeights, HasHeights, place_of};

use crate::answer::Heights;
use crate::height::checked_heights;
use crate::meaning::meaning_fault;
use cil_base::{Fault, Place};
use cil_model::{Body, MethodDesc, Program};
use std::alloc::Global;

fn place_of(method: &MethodDesc) -> Place
    ensures { result ≡ place_of method.now }
{
    Place {
        assembly: method.assembly,
        table: 0x06,
        row: method.row,
    }
}

/// The height of the stack before each instruction of a body, and the places that paths lead to. It is
/// refused by I6, and where nothing breaks that by I4.
pub fn heights_of(
    alloc: Global,
    program: &Program,
    own: &MethodDesc,
    body: &Body,
    place: Place,
) -> Result<Heights, Fault>
    requires { length body.now.instrs < 2 ^ 32 }
    ensures heights { IfOk result (HasHeights program.now own.now place body.now) }
    ensures broken { OnRefused result (InTurn (BreaksMeaning program.now own.now place body.now) (BreaksHeights (effect_of program.now own.now) place body.now)) }
{
    if let Some(refusal) = meaning_fault(program, own, body, place) {
        return Err(Fault::Refused(refusal));
    }
    checked_heights(alloc, program, own, body, place)
}

/// The height of the stack before each instruction of a method's body, and the places that paths lead
/// to. It is refused by I6, and where nothing breaks that by I4.
pub fn heights(alloc: Global, program: &Program, m: u32) -> Result<Heights, Fault>
    requires there { m < length program.now.methods }
    requires body { IsSome (method_of program.now m).body }
    requires few { length (body_of program.now m).instrs < 2 ^ 32 }
    ensures heights { let own = method_of program.now m in IfOk result (HasHeights program.now own (place_of own) (body_of program.now m)) }
    ensures broken { let own = method_of program.now m in OnRefused result (InTurn (BreaksMeaning program.now own (place_of own) (body_of program.now m)) (BreaksHeights (effect_of program.now own) (place_of own) (body_of program.now m))) }
{
    match program.methods.get(m as usize) {
        Some(own) => match &own.body {
            Some(body) => heights_of(alloc, program, own, body, place_of(own)),
            None => unreachable!(),
        },
        None => unreachable!(),
    }
}
