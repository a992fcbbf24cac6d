// Numbers of 8 bytes (ECMA-335, III.1.5 and III.3).

ghost use Rattle.std.specs.Prelude.{◌≡◌};
ghost use Rattle.cil_semantics.specs.Numbers.{computed, compared, shifted, unary_result, size_64};
ghost use Rattle.il_opcodes.specs.declared.class.BinaryOp.{BinaryOp};
ghost use Rattle.il_opcodes.specs.declared.class.ShiftOp.{ShiftOp};

use cil_semantics::Number;
use il_opcodes::{BinaryOp, Comparison, ShiftOp, UnaryOp};

/// x with y: the number, or the exception that the instruction throws in its place.
pub fn computed_64(op: BinaryOp, x: i64, y: i64) -> Number<i64>
    ensures { result ≡ computed op size_64 x y }
{
    match op {
        BinaryOp::Add => Number::Is(x.wrapping_add(y)),
        BinaryOp::Sub => Number::Is(x.wrapping_sub(y)),
        BinaryOp::Mul => Number::Is(x.wrapping_mul(y)),
        BinaryOp::Div => divided(x, y),
        BinaryOp::DivUn => divided_unsigned(x, y),
        BinaryOp::Rem => remainder(x, y),
        BinaryOp::RemUn => remainder_unsigned(x, y),
        BinaryOp::And => Number::Is(x & y),
        BinaryOp::Or => Number::Is(x | y),
        BinaryOp::Xor => Number::Is(x ^ y),
        BinaryOp::AddOvf => added(x, y),
        BinaryOp::AddOvfUn => added_unsigned(x, y),
        BinaryOp::MulOvf => multiplied(x, y),
        BinaryOp::MulOvfUn => multiplied_unsigned(x, y),
        BinaryOp::SubOvf => subtracted(x, y),
        BinaryOp::SubOvfUn => subtracted_unsigned(x, y),
    }
}

fn divided(x: i64, y: i64) -> Number<i64>
    ensures { result ≡ computed BinaryOp.Div size_64 x y }
{
    if y == 0 {
        return Number::DividesByZero;
    }
    if y == -1 && x == i64::MIN {
        return Number::Overflows;
    }
    Number::Is(x / y)
}

fn remainder(x: i64, y: i64) -> Number<i64>
    ensures { result ≡ computed BinaryOp.Rem size_64 x y }
{
    if y == 0 {
        return Number::DividesByZero;
    }
    if y == -1 && x == i64::MIN {
        return Number::Overflows;
    }
    Number::Is(x % y)
}

fn divided_unsigned(x: i64, y: i64) -> Number<i64>
    ensures { result ≡ computed BinaryOp.DivUn size_64 x y }
{
    if y == 0 {
        return Number::DividesByZero;
    }
    Number::Is((x.cast_unsigned() / y.cast_unsigned()).cast_signed())
}

fn remainder_unsigned(x: i64, y: i64) -> Number<i64>
    ensures { result ≡ computed BinaryOp.RemUn size_64 x y }
{
    if y == 0 {
        return Number::DividesByZero;
    }
    Number::Is((x.cast_unsigned() % y.cast_unsigned()).cast_signed())
}

fn added(x: i64, y: i64) -> Number<i64>
    ensures { result ≡ computed BinaryOp.AddOvf size_64 x y }
{
    match x.checked_add(y) {
        Some(z) => Number::Is(z),
        None => Number::Overflows,
    }
}

fn subtracted(x: i64, y: i64) -> Number<i64>
    ensures { result ≡ computed BinaryOp.SubOvf size_64 x y }
{
    match x.checked_sub(y) {
        Some(z) => Number::Is(z),
        None => Number::Overflows,
    }
}

fn multiplied(x: i64, y: i64) -> Number<i64>
    ensures { result ≡ computed BinaryOp.MulOvf size_64 x y }
{
    match x.checked_mul(y) {
        Some(z) => Number::Is(z),
        None => Number::Overflows,
    }
}

fn added_unsigned(x: i64, y: i64) -> Number<i64>
    ensures { result ≡ computed BinaryOp.AddOvfUn size_64 x y }
{
    match x.cast_unsigned().checked_add(y.cast_unsigned()) {
        Some(z) => Number::Is(z.cast_signed()),
        None => Number::Overflows,
    }
}

fn multiplied_unsigned(x: i64, y: i64) -> Number<i64>
    ensures { result ≡ computed BinaryOp.MulOvfUn size_64 x y }
{
    match x.cast_unsigned().checked_mul(y.cast_unsigned()) {
        Some(z) => Number::Is(z.cast_signed()),
        None => Number::Overflows,
    }
}

fn subtracted_unsigned(x: i64, y: i64) -> Number<i64>
    ensures { result ≡ computed BinaryOp.SubOvfUn size_64 x y }
{
    if x.cast_unsigned() < y.cast_unsigned() {
        return Number::Overflows;
    }
    Number::Is((x.cast_unsigned() - y.cast_unsigned()).cast_signed())
}

/// x shifted; the count is taken modulo 64.
pub fn shifted_64(op: ShiftOp, x: i64, count: u64) -> i64
    ensures { result ≡ shifted op size_64 x count }
{
    let places = (count % 64) as u32;
    match op {
        ShiftOp::Shl => x << places,
        ShiftOp::Shr => x >> places,
        ShiftOp::ShrUn => (x.cast_unsigned() >> places).cast_signed(),
    }
}

/// `neg` and `not`.
pub fn unary_64(op: UnaryOp, x: i64) -> i64
    ensures { result ≡ unary_result op size_64 x }
{
    match op {
        UnaryOp::Neg => x.wrapping_neg(),
        UnaryOp::Not => !x,
    }
}

/// A comparison, by sign or without.
pub fn compared_64(test: Comparison, x: i64, y: i64) -> bool
    ensures { result ≡ compared test size_64 x y }
{
    match test {
        Comparison::Eq => x == y,
        Comparison::Gt => x > y,
        Comparison::GtUn => x.cast_unsigned() > y.cast_unsigned(),
        Comparison::Lt => x < y,
        Comparison::LtUn => x.cast_unsigned() < y.cast_unsigned(),
    }
}
