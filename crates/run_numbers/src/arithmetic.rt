// The instructions on numbers, over any operands.

ghost use Rattle.std.specs.Prelude.{◌≡◌, List, option_and_then, option_map};
ghost use Rattle.cil_model.specs.declared.value.Value.{I4 as four_bytes, I8 as eight_bytes, Native as native};
ghost use Rattle.cil_semantics.specs.Acts as acts;
ghost use Rattle.cil_semantics.specs.declared.state.Local.{Local as LocalOf};
ghost use Rattle.cil_model.specs.declared.value.Value.{Value as ValueOf};
ghost use Rattle.run_numbers.specs.Answers.{act_of};

use crate::answer::{Answer, Exception};
use crate::conversions::{converted, is_kept};
use crate::operands::{count_of, number_read};
use crate::small::{computed_32, shifted_32, unary_32};
use crate::wide::{computed_64, shifted_64, unary_64};
use cil_model::Value;
use cil_semantics::{Number, Numeric, Pair};
use il_opcodes::{BinaryOp, NumberKind, ShiftOp, UnaryOp};

fn answer_32(n: Number<i32>) -> Answer
    ensures { (l : LocalOf) → act_of result l ≡ acts.number_act four_bytes n l }
{
    match n {
        Number::Is(z) => Answer::Push(Value::I4(z)),
        Number::DividesByZero => Answer::Raise(Exception::DivideByZero),
        Number::Overflows => Answer::Raise(Exception::Overflow),
    }
}

fn answer_64(n: Number<i64>) -> Answer
    ensures { (l : LocalOf) → act_of result l ≡ acts.number_act eight_bytes n l }
{
    match n {
        Number::Is(z) => Answer::Push(Value::I8(z)),
        Number::DividesByZero => Answer::Raise(Exception::DivideByZero),
        Number::Overflows => Answer::Raise(Exception::Overflow),
    }
}

fn answer_native(n: Number<i64>) -> Answer
    ensures { (l : LocalOf) → act_of result l ≡ acts.number_act native n l }
{
    match n {
        Number::Is(z) => Answer::Push(Value::Native(z)),
        Number::DividesByZero => Answer::Raise(Exception::DivideByZero),
        Number::Overflows => Answer::Raise(Exception::Overflow),
    }
}

/// Two numbers with one another: `add` and its like.
pub fn binary(op: BinaryOp, pair: Pair) -> Answer
    ensures { (l : LocalOf) → act_of result l ≡ acts.compute op pair l }
{
    match pair {
        Pair::Both4(x, y) => answer_32(computed_32(op, x, y)),
        Pair::Both8(x, y) => answer_64(computed_64(op, x, y)),
        Pair::BothNative(x, y) => answer_native(computed_64(op, x, y)),
        Pair::NoPair => Answer::Stuck,
    }
}

fn shifted(op: ShiftOp, x: Numeric, count: u64) -> Option<Value>
    ensures { result ≡ acts.shift op x count }
{
    match x {
        Numeric::Int4(z) => Some(Value::I4(shifted_32(op, z, count))),
        Numeric::Int8(z) => Some(Value::I8(shifted_64(op, z, count))),
        Numeric::IntNative(z) => Some(Value::Native(shifted_64(op, z, count))),
        Numeric::NoNumber => None,
    }
}

/// A number shifted; `None` where the operands are none that are shifted.
pub fn shift(op: ShiftOp, x: Numeric, count: Numeric) -> Option<Value>
    ensures { result ≡ option_and_then (acts.shift op x) (acts.shift_count count) }
{
    match count_of(count) {
        Some(places) => shifted(op, x, places),
        None => None,
    }
}

/// `neg` and `not`.
pub fn unary(op: UnaryOp, x: Numeric) -> Option<Value>
    ensures { result ≡ acts.unary op x }
{
    match x {
        Numeric::Int4(z) => Some(Value::I4(unary_32(op, z))),
        Numeric::Int8(z) => Some(Value::I8(unary_64(op, z))),
        Numeric::IntNative(z) => Some(Value::Native(unary_64(op, z))),
        Numeric::NoNumber => None,
    }
}

fn read_and_converted(unsigned: bool, kind: NumberKind, x: Numeric) -> Option<Value>
    ensures { result ≡ option_map (acts.put_in kind) (acts.read_number unsigned x) }
{
    match number_read(unsigned, x) {
        Some(z) => Some(converted(kind, z)),
        None => None,
    }
}

/// A conversion without overflow detection.
pub fn convert(kind: NumberKind, x: Numeric) -> Option<Value>
    ensures { result ≡ acts.convert kind x }
{
    match kind {
        NumberKind::Small(_, _) => read_and_converted(false, kind, x),
        NumberKind::Wide(signed) => read_and_converted(!signed, kind, x),
        NumberKind::Native(signed) => read_and_converted(!signed, kind, x),
    }
}

/// A conversion with overflow detection, of what is read with a sign or without.
pub fn convert_checked(unsigned: bool, kind: NumberKind, x: Numeric) -> Answer
    ensures { (l : LocalOf) (rest : List ValueOf) → act_of result (record l { stack = rest }) ≡ acts.if_some (acts.read_number unsigned x) (λ z. acts.convert_checked kind z l rest) }
{
    match number_read(unsigned, x) {
        None => Answer::Stuck,
        Some(z) => {
            if is_kept(kind, z) {
                Answer::Push(converted(kind, z))
            } else {
                Answer::Raise(Exception::Overflow)
            }
        }
    }
}
