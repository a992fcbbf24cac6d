// Calls of constructors outside (ECMA-335, III.4.21).

ghost use Rattle.std.specs.Prelude.{◌≡◌, ◌∷◌, List, if◌then◌else◌, IfOk};
ghost use Rattle.cil_model.specs.declared.run.ReplyResult.TheVariants as variant;
ghost use Rattle.cil_model.specs.declared.ty.Ty.{Ty as TyOf};
ghost use Rattle.cil_semantics.specs.Outside as outside;
ghost use Rattle.cil_semantics.specs.declared.Frame.{Frame as FrameOf};
ghost use Rattle.cil_semantics.specs.declared.World.{World as WorldOf};
ghost use Rattle.run_outside.specs.Asking.{Answers, TellsSame, as_member};

use crate::asked::Asked;
use crate::asking::{finish, record, values_in};
use crate::back::store_back;
use crate::fresh::make;
use crate::judging::judged_throw;
use crate::member::Member;
use crate::replies::next_reply;
use cil_base::Name;
use cil_model::{Program, Reply, ReplyResult, Ty, Value, Values};
use cil_semantics::{Frame, Frames, World};
use run_frames::stored_args;
use run_values::copied_value;
use std::alloc::{AllocError, Global};

// A reply that says nothing is written down as the new value; `Void` as it is.
fn give_new(
    alloc: Global,
    program: &Program,
    ty: &Ty,
    member: &Member,
    args: Values,
    is_void: bool,
    by_ref: Values,
    world: &mut World,
) -> Result<Asked, AllocError>
    ensures { IfOk result (λ a. (fs : List FrameOf) (other : outside.Answer) → Answers a fs world.new (outside.new_result program.now ty.now (as_member member.now) args (if is_void then variant.Void else variant.Default) by_ref fs world.old other)) }
{
    let v = make(alloc, program, ty, world)?;
    let told = if is_void {
        ReplyResult::Void
    } else {
        ReplyResult::Given(copied_value(alloc, &v)?)
    };
    record(alloc, member, args, told, by_ref, world)?;
    Ok(Asked::Returned(Some(v)))
}

fn throw_new(
    alloc: Global,
    program: &Program,
    member: &Member,
    args: Values,
    name: Name,
    by_ref: Values,
    world: &mut World,
) -> Result<Asked, AllocError>
    ensures { IfOk result (λ a. (ty : TyOf) (fs : List FrameOf) (first : WorldOf) → TellsSame world.old first → Answers a fs world.new (outside.new_result program.now ty (as_member member.now) args (variant.Throw name) by_ref fs world.old (outside.unfit (as_member member.now) args (record { result = variant.Throw name; by_ref = by_ref }) first))) }
{
    let judged = judged_throw(alloc, program, &name)?;
    record(alloc, member, args, ReplyResult::Throw(name), by_ref, world)?;
    finish(alloc, program, judged, world)
}

// The by-reference values are stored; the world told the same before.
fn conclude_new(
    alloc: Global,
    program: &Program,
    ty: &Ty,
    member: &Member,
    args: Values,
    reply: Reply,
    world: &mut World,
) -> Result<Asked, AllocError>
    ensures { IfOk result (λ a. (fs : List FrameOf) (first : WorldOf) → TellsSame world.old first → Answers a fs world.new (outside.new_result program.now ty.now (as_member member.now) args reply.result reply.by_ref fs world.old (outside.unfit (as_member member.now) args reply first))) }
{
    let Reply {
        result: given,
        by_ref,
    } = reply;
    match given {
        ReplyResult::Default => give_new(alloc, program, ty, member, args, false, by_ref, world),
        ReplyResult::Void => give_new(alloc, program, ty, member, args, true, by_ref, world),
        ReplyResult::Throw(name) => throw_new(alloc, program, member, args, name, by_ref, world),
        ReplyResult::Given(v) => {
            record(alloc, member, args, ReplyResult::Given(v), by_ref, world)?;
            Ok(Asked::Unfit)
        }
    }
}

fn answer_new(
    alloc: Global,
    program: &Program,
    ty: &Ty,
    member: &Member,
    args: Values,
    reply: Reply,
    top: &mut Frame,
    below: &mut Frames,
    world: &mut World,
) -> Result<Asked, AllocError>
    ensures { IfOk result (λ a. Answers a (top.new ∷ below.new) world.new (outside.making program.now ty.now (as_member member.now) args reply world.old (outside.stored_back program.now (outside.by_ref_args member.now.params args) reply.by_ref (top.old ∷ below.old) world.old))) }
{
    if !store_back(
        alloc,
        program,
        member.params.as_slice(),
        args.as_slice(),
        reply.by_ref.as_slice(),
        top,
        below,
        world,
    )? {
        let Reply {
            result: given,
            by_ref,
        } = reply;
        record(alloc, member, args, given, by_ref, world)?;
        return Ok(Asked::Unfit);
    }
    conclude_new(alloc, program, ty, member, args, reply, world)
}

/// A call of a constructor outside, with the topmost frame and those below it. The reply says nothing or throws; its parameters have
/// no `this`. What does not fit ends the run, as in a call.
#[tactic(auto, unfolding(cil_semantics::specs::Outside::ask_new))]
pub fn ask_new(
    alloc: Global,
    program: &Program,
    ty: &Ty,
    member: &Member,
    values: &[Value],
    top: &mut Frame,
    below: &mut Frames,
    world: &mut World,
) -> Result<Asked, AllocError>
    ensures { IfOk result (λ a. Answers a (top.new ∷ below.new) world.new (outside.ask_new program.now ty.now (as_member member.now) values.now (top.old ∷ below.old) world.old)) }
{
    let Some(cells) = stored_args(alloc, program, member.params.as_slice(), values)? else {
        return Ok(Asked::Unfit);
    };
    let args = values_in(alloc, &cells)?;
    let reply = next_reply(alloc, world)?;
    answer_new(alloc, program, ty, member, args, reply, top, below, world)
}
