// Calls of members outside (ECMA-335, I.12.4.1 and II.15.4).

ghost use Rattle.std.specs.Prelude.{◌≡◌, ◌∷◌, [], List, map, IfOk};
ghost use Rattle.cil_semantics.specs.Outside as outside;
ghost use Rattle.cil_semantics.specs.Outside.{Answer};
ghost use Rattle.cil_semantics.specs.Core.{class_named};
ghost use Rattle.cil_semantics.specs.declared.Frame.{Frame as FrameOf};
ghost use Rattle.cil_semantics.specs.declared.World.{World as WorldOf};
ghost use Rattle.cil_semantics.specs.State.{next_object, with_object};
ghost use Rattle.cil_semantics.specs.declared.Cell.{Cell as CellOf};
ghost use Rattle.run_outside.specs.Asking as asking;
ghost use Rattle.run_outside.specs.Asking.{Answers, IsUnfit, TellsSame, as_member};
ghost use Rattle.run_outside.specs.declared.judging.Judged.TheVariants as verdict;

use crate::asked::Asked;
use crate::back::store_back;
use crate::judging::{Judged, copied_option, judgement};
use crate::member::Member;
use crate::replies::{drop_reply, next_reply};
use cil_base::Name;
use cil_model::{Program, Reply, ReplyResult, TraceItem, Ty, Value, Values};
use cil_semantics::{Cells, Frame, Frames, Item, Object, World};
use run_frames::stored_args;
use run_heap::number_of_next;
use run_unwind::add_object;
use run_values::copied_value;
use std::alloc::{AllocError, Global};

// What is recorded of a reply's result.
fn told(alloc: Global, member: &Member, given: ReplyResult) -> Result<ReplyResult, AllocError>
    ensures { IfOk result (λ it. it ≡ asking.told (as_member member.now).default given) }
{
    match given {
        ReplyResult::Default => match copied_option(alloc, &member.default)? {
            None => Ok(ReplyResult::Void),
            Some(v) => Ok(ReplyResult::Given(v)),
        },
        _ => Ok(given),
    }
}

// Takes the reply away and writes the call down.
pub(crate) fn record(
    alloc: Global,
    member: &Member,
    args: Values,
    told: ReplyResult,
    by_ref: Values,
    world: &mut World,
) -> Result<(), AllocError>
    ensures { IfOk result (λ _. world.new ≡ outside.recorded (as_member member.now) args told by_ref world.old) }
{
    let name = Name::from_slice(alloc, member.name.as_slice())?;
    drop_reply(&mut world.replies);
    let reply = Reply {
        result: told,
        by_ref,
    };
    let recorded = TraceItem {
        member: name,
        args,
        reply,
    };
    world.trace.push(Item {
        member: u64::from(member.number),
        recorded,
    })
}

fn throw(alloc: Global, program: &Program, name: Name, world: &mut World) -> Result<u32, AllocError>
    ensures number { IfOk result (λ k. k ≡ next_object world.old) }
    ensures made { IfOk result (λ _. world.new ≡ with_object program.now (record { ty = class_named name; cells = [] }) world.old) }
{
    let k = number_of_next(world)?;
    let object = Object {
        ty: Ty::Outside { name, value: false },
        cells: Cells::new(alloc),
    };
    add_object(program, object, world)?;
    Ok(k)
}

pub(crate) fn finish(
    alloc: Global,
    program: &Program,
    judged: Judged,
    world: &mut World,
) -> Result<Asked, AllocError>
    ensures { IfOk result (λ a. (fs : List FrameOf) (other : Answer) → (judged ≡ verdict.FitsNot → IsUnfit world.old other) → Answers a fs world.new (asking.concluded program.now judged fs world.old other)) }
{
    match judged {
        Judged::Gives(v) => Ok(Asked::Returned(v)),
        Judged::Throws(name) => Ok(Asked::Threw(throw(alloc, program, name, world)?)),
        Judged::FitsNot => Ok(Asked::Unfit),
    }
}

// The by-reference values are stored; the world told the same before.
#[tactic(auto, using(crate::proofs::AnswerLaws::conclusion))]
fn conclude(
    alloc: Global,
    program: &Program,
    member: &Member,
    args: Values,
    reply: Reply,
    world: &mut World,
) -> Result<Asked, AllocError>
    ensures { IfOk result (λ a. (fs : List FrameOf) (first : WorldOf) → TellsSame world.old first → Answers a fs world.new (outside.result_of program.now (as_member member.now) args reply.result reply.by_ref fs world.old (outside.unfit (as_member member.now) args reply first))) }
{
    let Reply {
        result: given,
        by_ref,
    } = reply;
    let judged = judgement(alloc, program, member, world, &given)?;
    let told = told(alloc, member, given)?;
    record(alloc, member, args, told, by_ref, world)?;
    finish(alloc, program, judged, world)
}

fn answer(
    alloc: Global,
    program: &Program,
    member: &Member,
    args: Values,
    reply: Reply,
    top: &mut Frame,
    below: &mut Frames,
    world: &mut World,
) -> Result<Asked, AllocError>
    ensures { IfOk result (λ a. Answers a (top.new ∷ below.new) world.new (outside.answered program.now (as_member member.now) args reply world.old (outside.stored_back program.now (outside.by_ref_args member.now.params args) reply.by_ref (top.old ∷ below.old) world.old))) }
{
    if !store_back(
        alloc,
        program,
        member.params.as_slice(),
        args.as_slice(),
        reply.by_ref.as_slice(),
        top,
        below,
        world,
    )? {
        let Reply {
            result: given,
            by_ref,
        } = reply;
        record(alloc, member, args, given, by_ref, world)?;
        return Ok(Asked::Unfit);
    }
    conclude(alloc, program, member, args, reply, world)
}

// The values in places.
pub(crate) fn values_in(alloc: Global, cells: &Cells) -> Result<Values, AllocError>
    ensures { IfOk result (λ values. values ≡ map (λ (c : CellOf). c.value) cells.now) }
{
    let mut values = Values::new(alloc);
    for cell in cells.as_slice() {
        values.push(copied_value(alloc, &cell.value)?)?;
    }
    Ok(values)
}

/// A call outside, with the topmost frame and those below it: the arguments are stored in places of the parameters' types, the next
/// reply is taken, its by-reference values are stored, and the call is written down. A reply that does not fit is written down as it
/// was given, and arguments that do not fit tell nothing; both end the run.
#[tactic(auto, unfolding(cil_semantics::specs::Outside::ask))]
pub fn ask(
    alloc: Global,
    program: &Program,
    member: &Member,
    values: &[Value],
    top: &mut Frame,
    below: &mut Frames,
    world: &mut World,
) -> Result<Asked, AllocError>
    ensures { IfOk result (λ a. Answers a (top.new ∷ below.new) world.new (outside.ask program.now (as_member member.now) values.now (top.old ∷ below.old) world.old)) }
{
    let Some(cells) = stored_args(alloc, program, member.params.as_slice(), values)? else {
        return Ok(Asked::Unfit);
    };
    let args = values_in(alloc, &cells)?;
    let reply = next_reply(alloc, world)?;
    answer(alloc, program, member, args, reply, top, below, world)
}
