// Numbers truncated and extended (ECMA-335, III.1.5, table 8, and III.3.27 to 3.29).

ghost use Rattle.std.specs.Prelude.{◌≡◌, true};
ghost use Rattle.il_opcodes.specs.declared.class.Bits.{Bits};
ghost use Rattle.il_opcodes.specs.declared.class.NumberKind.{NumberKind};
ghost use Rattle.cil_semantics.specs.Acts.{put_in};
ghost use Rattle.cil_semantics.specs.Numbers.{lies_in, truncated, truncated_small};

use cil_model::Value;
use il_opcodes::{Bits, NumberKind};

/// A number truncated to so many bits and extended, by its sign or by zeros, to four bytes.
pub fn truncated_to(bits: Bits, signed: bool, z: i128) -> i32
    ensures { result ≡ truncated_small bits signed z }
{
    match bits {
        Bits::B8 => truncated_to_8(signed, z),
        Bits::B16 => truncated_to_16(signed, z),
        Bits::B32 => truncated_to_32(signed, z),
    }
}

fn truncated_to_8(signed: bool, z: i128) -> i32
    ensures { result ≡ truncated_small Bits.B8 signed z }
{
    let low = (z.cast_unsigned() % 256) as u8;
    if signed {
        low.cast_signed() as i32
    } else {
        low as i32
    }
}

fn truncated_to_16(signed: bool, z: i128) -> i32
    ensures { result ≡ truncated_small Bits.B16 signed z }
{
    let low = (z.cast_unsigned() % 65536) as u16;
    if signed {
        low.cast_signed() as i32
    } else {
        low as i32
    }
}

fn truncated_to_32(signed: bool, z: i128) -> i32
    ensures { result ≡ truncated_small Bits.B32 signed z }
{
    ((z.cast_unsigned() % 4294967296) as u32).cast_signed()
}

/// The lowest 64 bits of a number, as a number with a sign.
pub fn truncated_to_64(z: i128) -> i64
    ensures { result ≡ truncated 64 true z }
{
    ((z.cast_unsigned() % 18446744073709551616) as u64).cast_signed()
}

/// What a conversion leaves of a number.
pub fn converted(kind: NumberKind, z: i128) -> Value
    ensures { result ≡ put_in kind z }
{
    match kind {
        NumberKind::Small(bits, signed) => Value::I4(truncated_to(bits, signed, z)),
        NumberKind::Wide(_) => Value::I8(truncated_to_64(z)),
        NumberKind::Native(_) => Value::Native(truncated_to_64(z)),
    }
}

/// Whether a conversion with overflow detection keeps the number.
pub fn is_kept(kind: NumberKind, z: i128) -> bool
    ensures { result ≡ lies_in kind z }
{
    match kind {
        NumberKind::Small(Bits::B8, signed) => lies_in_8(signed, z),
        NumberKind::Small(Bits::B16, signed) => lies_in_16(signed, z),
        NumberKind::Small(Bits::B32, signed) => lies_in_32(signed, z),
        NumberKind::Wide(signed) => lies_in_64(signed, z),
        NumberKind::Native(signed) => lies_in_64(signed, z),
    }
}

fn lies_in_8(signed: bool, z: i128) -> bool
    ensures { result ≡ lies_in (NumberKind.Small Bits.B8 signed) z }
{
    if signed {
        -128 <= z && z < 128
    } else {
        0 <= z && z < 256
    }
}

fn lies_in_16(signed: bool, z: i128) -> bool
    ensures { result ≡ lies_in (NumberKind.Small Bits.B16 signed) z }
{
    if signed {
        -32768 <= z && z < 32768
    } else {
        0 <= z && z < 65536
    }
}

fn lies_in_32(signed: bool, z: i128) -> bool
    ensures { result ≡ lies_in (NumberKind.Small Bits.B32 signed) z }
{
    if signed {
        -2147483648 <= z && z < 2147483648
    } else {
        0 <= z && z < 4294967296
    }
}

fn lies_in_64(signed: bool, z: i128) -> bool
    ensures { result ≡ lies_in (NumberKind.Wide signed) z }
{
    if signed {
        -9223372036854775808 <= z && z < 9223372036854775808
    } else {
        0 <= z && z < 18446744073709551616
    }
}
