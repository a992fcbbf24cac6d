// Values taken from the evaluation stack.

ghost use Rattle.std.specs.Prelude.{◌≡◌, ◌<◌, ◌∷◌, length, MatchOption, IfOk};
ghost use Rattle.cil_semantics.specs.Acts as acts;
ghost use Rattle.run_numbers.specs.Answers.{act_of};
ghost use Rattle.frame_acts.specs.Meant.{meant};

use crate::wanted::Wanted;
use cil_model::Value;
use cil_semantics::{Local, Stack};
use run_numbers::Answer;
use std::alloc::AllocError;

/// The two topmost values, the upper one last.
#[derive(Drop)]
pub struct Two {
    pub x: Value,
    pub y: Value,
}

fn pop_below(stack: &mut Stack, y: Value) -> Option<Two>
    ensures { MatchOption result (length stack.old < 1) (λ two. (stack.old ≡ two.x ∷ stack.new) × (two.y ≡ y)) }
{
    match stack.pop() {
        Some(x) => Some(Two { x, y }),
        None => None,
    }
}

/// Takes the two topmost values.
pub fn pop_two(stack: &mut Stack) -> Option<Two>
    ensures { MatchOption result (length stack.old < 2) (λ two. stack.old ≡ two.y ∷ two.x ∷ stack.new) }
{
    match stack.pop() {
        Some(y) => pop_below(stack, y),
        None => None,
    }
}

/// Pushes what was answered.
pub fn finish(answer: Answer, local: &mut Local) -> Result<Wanted, AllocError>
    ensures { IfOk result (λ a. meant a local.new ≡ act_of answer local.old) }
{
    match answer {
        Answer::Push(v) => {
            local.stack.push(v)?;
            Ok(Wanted::GoOn)
        }
        Answer::Raise(x) => Ok(Wanted::Raise(x)),
        Answer::Stuck => Ok(Wanted::Stuck),
    }
}

/// Pushes a value.
pub fn push(value: Value, local: &mut Local) -> Result<Wanted, AllocError>
    ensures { IfOk result (λ a. meant a local.new ≡ acts.goes_with local.old value local.old.stack) }
{
    local.stack.push(value)?;
    Ok(Wanted::GoOn)
}

/// Pushes a value that there may be.
pub fn push_some(value: Option<Value>, local: &mut Local) -> Result<Wanted, AllocError>
    ensures { IfOk result (λ a. meant a local.new ≡ acts.if_some value (λ v. acts.goes_with local.old v local.old.stack)) }
{
    match value {
        None => Ok(Wanted::Stuck),
        Some(v) => {
            local.stack.push(v)?;
            Ok(Wanted::GoOn)
        }
    }
}
