// Instructions on numbers (ECMA-335, III.3.1 to 3.67 and III.1.5).

ghost use Rattle.std.specs.Prelude.{◌≡◌, option_and_then, option_map, IfOk};
ghost use Rattle.cil_semantics.specs.Acts as acts;
ghost use Rattle.cil_semantics.specs.declared.Local.{Local as LocalOf};
ghost use Rattle.run_numbers.specs.Answers.{act_of};
ghost use Rattle.frame_acts.specs.Meant.{meant};

use crate::stack::{Two, finish, pop_two, push_some};
use crate::wanted::Wanted;
use cil_model::Value;
use cil_semantics::Local;
use il_opcodes::{BinaryOp, Comparison, NumberKind, ShiftOp, UnaryOp};
use run_numbers::{
    Answer, binary, compare_values, convert, convert_checked, flag_of, number_in, pair_of, shift,
    unary,
};
use std::alloc::AllocError;

fn binary_of(op: BinaryOp, two: &Two) -> Answer
    ensures { (l : LocalOf) → act_of result l ≡ acts.compute op (acts.paired (acts.numeric two.now.x) (acts.numeric two.now.y)) l }
{
    binary(op, pair_of(number_in(&two.x), number_in(&two.y)))
}

/// `add` and its like.
pub fn compute(op: BinaryOp, local: &mut Local) -> Result<Wanted, AllocError>
    ensures { IfOk result (λ a. meant a local.new ≡ acts.on_two local.old.stack (λ x y rest. acts.compute op (acts.paired (acts.numeric x) (acts.numeric y)) (record local.old { stack = rest }))) }
{
    match pop_two(&mut local.stack) {
        None => Ok(Wanted::Stuck),
        Some(two) => {
            let answer = finish(binary_of(op, &two), local)?;
            Ok(answer)
        }
    }
}

fn shift_of(op: ShiftOp, two: &Two) -> Option<Value>
    ensures { result ≡ option_and_then (acts.shift op (acts.numeric two.now.x)) (acts.shift_count (acts.numeric two.now.y)) }
{
    shift(op, number_in(&two.x), number_in(&two.y))
}

/// `shl` and its like.
pub fn compute_shift(op: ShiftOp, local: &mut Local) -> Result<Wanted, AllocError>
    ensures { IfOk result (λ a. meant a local.new ≡ acts.on_two local.old.stack (λ x k rest. acts.if_some (option_and_then (acts.shift op (acts.numeric x)) (acts.shift_count (acts.numeric k))) (λ v. acts.goes_with local.old v rest))) }
{
    match pop_two(&mut local.stack) {
        None => Ok(Wanted::Stuck),
        Some(two) => {
            let answer = push_some(shift_of(op, &two), local)?;
            Ok(answer)
        }
    }
}

/// `neg` and `not`.
pub fn compute_unary(op: UnaryOp, local: &mut Local) -> Result<Wanted, AllocError>
    ensures { IfOk result (λ a. meant a local.new ≡ acts.on_top local.old.stack (λ x rest. acts.if_some (acts.unary op (acts.numeric x)) (λ v. acts.goes_with local.old v rest))) }
{
    match local.stack.pop() {
        None => Ok(Wanted::Stuck),
        Some(x) => {
            let answer = push_some(unary(op, number_in(&x)), local)?;
            Ok(answer)
        }
    }
}

/// A conversion without overflow detection.
pub fn convert_top(kind: NumberKind, local: &mut Local) -> Result<Wanted, AllocError>
    ensures { IfOk result (λ a. meant a local.new ≡ acts.on_top local.old.stack (λ x rest. acts.if_some (acts.convert kind (acts.numeric x)) (λ v. acts.goes_with local.old v rest))) }
{
    match local.stack.pop() {
        None => Ok(Wanted::Stuck),
        Some(x) => {
            let answer = push_some(convert(kind, number_in(&x)), local)?;
            Ok(answer)
        }
    }
}

/// A conversion with overflow detection, of what is read with a sign or without.
pub fn convert_top_checked(
    unsigned: bool,
    kind: NumberKind,
    local: &mut Local,
) -> Result<Wanted, AllocError>
    ensures { IfOk result (λ a. meant a local.new ≡ acts.on_top local.old.stack (λ x rest. acts.if_some (acts.read_number unsigned (acts.numeric x)) (λ z. acts.convert_checked kind z local.old rest))) }
{
    match local.stack.pop() {
        None => Ok(Wanted::Stuck),
        Some(x) => {
            let answer = finish(convert_checked(unsigned, kind, number_in(&x)), local)?;
            Ok(answer)
        }
    }
}

fn flag_compared(test: Comparison, two: &Two) -> Option<Value>
    ensures { result ≡ option_map acts.flag (acts.compare test two.now.x two.now.y) }
{
    match compare_values(test, &two.x, &two.y) {
        None => None,
        Some(b) => Some(flag_of(b)),
    }
}

/// `ceq` and its like.
pub fn compare(test: Comparison, local: &mut Local) -> Result<Wanted, AllocError>
    ensures { IfOk result (λ a. meant a local.new ≡ acts.on_two local.old.stack (λ x y rest. acts.if_some (acts.compare test x y) (λ b. acts.goes_with local.old (acts.flag b) rest))) }
{
    match pop_two(&mut local.stack) {
        None => Ok(Wanted::Stuck),
        Some(two) => {
            let answer = push_some(flag_compared(test, &two), local)?;
            Ok(answer)
        }
    }
}
