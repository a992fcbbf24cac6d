// Values that a reply stores through by-reference arguments (ECMA-335, I.12.4.1.5.2).

ghost use Rattle.std.specs.Prelude.{◌≡◌, ◌≤◌, ◌∷◌, List, drop, length, IfOk, IfSome};
ghost use Rattle.cil_model.specs.declared.ty.Ty.{Ty as TyOf};
ghost use Rattle.cil_model.specs.declared.value.Value.{Value as ValueOf};
ghost use Rattle.cil_semantics.specs.Outside.{by_ref_args, stored_back};
ghost use Rattle.run_outside.specs.Asking.{TellsSame, one_stored, stored_on};
ghost use Rattle.run_places.specs.Done.{state_if};

use crate::fitting::fits;
use cil_model::{Program, Ty, Value};
use cil_semantics::{Frame, Frames, World};
use run_places::write;
use run_values::copied_value;
use std::alloc::{AllocError, Global};

// One value, through an argument of a parameter that refers to a type; whether that may be done.
#[tactic(auto, using(crate::proofs::BackLaws::told_of))]
fn store_one(
    alloc: Global,
    program: &Program,
    ty: &Ty,
    argument: &Value,
    v: &Value,
    top: &mut Frame,
    below: &mut Frames,
    world: &mut World,
) -> Result<bool, AllocError>
    ensures done { IfOk result (λ done. state_if done (top.new ∷ below.new) world.new ≡ one_stored program.now ty.now argument.now v.now (top.old ∷ below.old) world.old) }
    ensures told { IfOk result (λ _. TellsSame world.new world.old) }
{
    if !fits(alloc, program, world, ty, v)? {
        return Ok(false);
    }
    let Value::Ptr(q) = argument else {
        return Ok(false);
    };
    let copy = copied_value(alloc, v)?;
    write(alloc, program, top, below, world, q.get(), copy)
}

// Through one argument the value of that number, if its parameter refers to a type and there is one; how many have been stored then.
fn store_at(
    alloc: Global,
    program: &Program,
    ty: &Ty,
    argument: &Value,
    back: &[Value],
    count: usize,
    top: &mut Frame,
    below: &mut Frames,
    world: &mut World,
) -> Result<Option<usize>, AllocError>
    requires { count ≤ length back.now }
    ensures within { IfOk result (λ left. IfSome left (λ n. n ≤ length back.now)) }
    ensures told { IfOk result (λ _. TellsSame world.new world.old) }
    ensures stored { IfOk result (λ left. (ts : List TyOf) (vs : List ValueOf) → stored_on program.now ts vs back.now left (top.new ∷ below.new) world.new ≡ stored_back program.now (by_ref_args (ty.now ∷ ts) (argument.now ∷ vs)) (drop count back.now) (top.old ∷ below.old) world.old) }
{
    let Ty::ByRef(ty) = ty else {
        return Ok(Some(count));
    };
    if count == back.len() {
        return Ok(Some(count));
    }
    let v = &back[count];
    if store_one(alloc, program, ty.get(), argument, v, top, below, world)? {
        Ok(Some(count + 1))
    } else {
        Ok(None)
    }
}

/// A value for each by-reference argument in turn, and whether all of them may be stored. Fewer values leave the rest as they are; one
/// too many may not be stored. Nothing is told, and no object made.
#[tactic(auto, using(crate::proofs::BackLaws::all_stored))]
pub(crate) fn store_back(
    alloc: Global,
    program: &Program,
    tys: &[Ty],
    arguments: &[Value],
    back: &[Value],
    top: &mut Frame,
    below: &mut Frames,
    world: &mut World,
) -> Result<bool, AllocError>
    ensures done { IfOk result (λ done. state_if done (top.new ∷ below.new) world.new ≡ stored_back program.now (by_ref_args tys.now arguments.now) back.now (top.old ∷ below.old) world.old) }
    ensures told { IfOk result (λ _. TellsSame world.new world.old) }
{
    let mut count: usize = 0;
    for i in 0..tys.len().min(arguments.len()) {
        let (ty, argument) = (&tys[i], &arguments[i]);
        match store_at(alloc, program, ty, argument, back, count, top, below, world)? {
            None => return Ok(false),
            Some(n) => count = n,
        }
    }
    Ok(count == back.len())
}
