// Replies that are left, the next first.

ghost use Rattle.std.specs.Prelude.{◌≡◌, IfOk};
ghost use Rattle.cil_semantics.specs.Outside as outside;

use cil_base::Name;
use cil_model::{Reply, ReplyResult, Values};
use cil_semantics::{Replies, World};
use run_values::{copied_value, copied_values};
use std::alloc::{AllocError, Global};

fn copied_result(alloc: Global, given: &ReplyResult) -> Result<ReplyResult, AllocError>
    ensures { IfOk result (λ copy. copy ≡ given.now) }
{
    match given {
        ReplyResult::Default => Ok(ReplyResult::Default),
        ReplyResult::Void => Ok(ReplyResult::Void),
        ReplyResult::Given(v) => Ok(ReplyResult::Given(copied_value(alloc, v)?)),
        ReplyResult::Throw(name) => Ok(ReplyResult::Throw(Name::from_slice(
            alloc,
            name.as_slice(),
        )?)),
    }
}

fn copied_reply(alloc: Global, reply: &Reply) -> Result<Reply, AllocError>
    ensures { IfOk result (λ copy. copy ≡ reply.now) }
{
    let result = copied_result(alloc, &reply.result)?;
    let by_ref = copied_values(alloc, &reply.by_ref)?;
    Ok(Reply { result, by_ref })
}

/// An equal reply of its own to the next one, which says nothing where none is left.
pub(crate) fn next_reply(alloc: Global, world: &mut World) -> Result<Reply, AllocError>
    ensures next { IfOk result (λ reply. reply ≡ outside.next_reply world.old.replies) }
    ensures kept { IfOk result (λ _. world.new ≡ world.old) }
{
    match world.replies.pop() {
        None => Ok(Reply {
            result: ReplyResult::Default,
            by_ref: Values::new(alloc),
        }),
        Some(reply) => {
            let copy = copied_reply(alloc, &reply)?;
            world.replies.push(reply)?;
            Ok(copy)
        }
    }
}

/// Takes the next reply away.
pub(crate) fn drop_reply(replies: &mut Replies)
    ensures { replies.new ≡ outside.replies_after replies.old }
{
    replies.pop();
}
