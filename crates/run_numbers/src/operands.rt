// Values on the stack as operands (ECMA-335, III.1.5).

ghost use Rattle.std.specs.Prelude.{◌≡◌, Some};
ghost use Rattle.cil_semantics.specs.declared.number.Numeric.{Numeric};
ghost use Rattle.cil_semantics.specs.Acts.{flag, index_number, numeric, paired, read_number, shift_count, truth};

use cil_model::Value;
use cil_semantics::{Numeric, Pair};

/// The number that a value is.
pub fn number_in(v: &Value) -> Numeric
    ensures { result ≡ numeric v.now }
{
    match v {
        Value::I4(z) => Numeric::Int4(*z),
        Value::I8(z) => Numeric::Int8(*z),
        Value::Native(z) => Numeric::IntNative(*z),
        _ => Numeric::NoNumber,
    }
}

/// Two numbers of one kind.
pub fn pair_of(x: Numeric, y: Numeric) -> Pair
    ensures { result ≡ paired x y }
{
    match x {
        Numeric::Int4(a) => match y {
            Numeric::Int4(b) => Pair::Both4(a, b),
            Numeric::IntNative(b) => Pair::BothNative(a as i64, b),
            _ => Pair::NoPair,
        },
        Numeric::Int8(a) => match y {
            Numeric::Int8(b) => Pair::Both8(a, b),
            _ => Pair::NoPair,
        },
        Numeric::IntNative(a) => match y {
            Numeric::IntNative(b) => Pair::BothNative(a, b),
            Numeric::Int4(b) => Pair::BothNative(a, b as i64),
            _ => Pair::NoPair,
        },
        Numeric::NoNumber => Pair::NoPair,
    }
}

/// Whether a value is neither zero nor null; `None` for what no branch tests.
pub fn truth_of(v: &Value) -> Option<bool>
    ensures { result ≡ truth v.now }
{
    match v {
        Value::I4(z) => Some(*z != 0),
        Value::I8(z) => Some(*z != 0),
        Value::Native(z) => Some(*z != 0),
        Value::Null => Some(false),
        Value::Obj(_) => Some(true),
        Value::Text(_) => Some(true),
        Value::Ptr(_) => Some(true),
        _ => None,
    }
}

/// The count of a shift.
pub fn count_of(n: Numeric) -> Option<u64>
    ensures { result ≡ shift_count n }
{
    match n {
        Numeric::Int4(z) => Some(z.cast_unsigned() as u64),
        Numeric::IntNative(z) => Some(z.cast_unsigned()),
        _ => None,
    }
}

/// A length or an index.
pub fn index_of(n: Numeric) -> Option<i64>
    ensures { result ≡ index_number n }
{
    match n {
        Numeric::Int4(z) => Some(z as i64),
        Numeric::IntNative(z) => Some(z),
        _ => None,
    }
}

/// The number as it is read with its sign, or without.
pub fn number_read(unsigned: bool, n: Numeric) -> Option<i128>
    ensures { result ≡ read_number unsigned n }
{
    match n {
        Numeric::Int4(z) => Some(read_32(unsigned, z)),
        Numeric::Int8(z) => Some(read_64(unsigned, z)),
        Numeric::IntNative(z) => Some(read_64(unsigned, z)),
        Numeric::NoNumber => None,
    }
}

fn read_32(unsigned: bool, z: i32) -> i128
    ensures { read_number unsigned (Numeric.Int4 z) ≡ Some result }
{
    if unsigned {
        z.cast_unsigned() as i128
    } else {
        z as i128
    }
}

fn read_64(unsigned: bool, z: i64) -> i128
    ensures eight { read_number unsigned (Numeric.Int8 z) ≡ Some result }
    ensures native { read_number unsigned (Numeric.IntNative z) ≡ Some result }
{
    if unsigned {
        z.cast_unsigned() as i128
    } else {
        z as i128
    }
}

/// 1 or 0, as a comparison leaves it.
pub fn flag_of(b: bool) -> Value
    ensures { result ≡ flag b }
{
    if b { Value::I4(1) } else { Value::I4(0) }
}
