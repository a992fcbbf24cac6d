// Bytes read as a text.

ghost use Rattle.std.specs.Prelude.{◌≡◌, ◌<◌, ◌++◌, IfOk, OnOk};
ghost use Rattle.cil_model.specs.Texts.{continues, if_scalar, two, three, four, char_from, units_of, units_or, passed, text_units};

use cil_base::Units;
use std::alloc::{AllocError, Global};

/// Whether the byte stands behind the first of a character (RFC 3629, section 3).
fn is_later_byte(byte: u8) -> bool
    ensures { result ≡ continues byte }
{
    byte >= 0x80 && byte < 0xC0
}

/// A character and the number of its bytes behind the first, if it is one of Unicode's that needs
/// so many.
fn scalar(least: u32, more: usize, code: u32) -> Option<(u32, usize)>
    ensures { result ≡ if_scalar least more code }
{
    if code >= least && (code < 0xD800 || code >= 0xE000) && code < 0x11_0000 {
        Some((code, more))
    } else {
        None
    }
}

fn of_two_bytes(a: u8, rest: &[u8]) -> Option<(u32, usize)>
    ensures { result ≡ two a rest.now }
{
    match rest {
        [] => None,
        [b, ..] => {
            if is_later_byte(*b) {
                scalar(0x80, 1, a as u32 % 32 * 64 + *b as u32 % 64)
            } else {
                None
            }
        }
    }
}

fn of_three_bytes(a: u8, rest: &[u8]) -> Option<(u32, usize)>
    ensures { result ≡ three a rest.now }
{
    match rest {
        [] => None,
        [_] => None,
        [b, c, ..] => {
            if is_later_byte(*b) && is_later_byte(*c) {
                scalar(
                    0x800,
                    2,
                    a as u32 % 16 * 4096 + *b as u32 % 64 * 64 + *c as u32 % 64,
                )
            } else {
                None
            }
        }
    }
}

fn of_four_bytes(a: u8, rest: &[u8]) -> Option<(u32, usize)>
    ensures { result ≡ four a rest.now }
{
    match rest {
        [] => None,
        [_] => None,
        [_, _] => None,
        [b, c, d, ..] => {
            if is_later_byte(*b) && is_later_byte(*c) && is_later_byte(*d) {
                scalar(
                    0x1_0000,
                    3,
                    a as u32 % 8 * 262144
                        + *b as u32 % 64 * 4096
                        + *c as u32 % 64 * 64
                        + *d as u32 % 64,
                )
            } else {
                None
            }
        }
    }
}

/// The character that begins with a byte.
fn character(a: u8, rest: &[u8]) -> Option<(u32, usize)>
    ensures { result ≡ char_from a rest.now }
{
    if a < 0x80 {
        Some((a as u32, 0))
    } else if a < 0xC0 {
        None
    } else if a < 0xE0 {
        of_two_bytes(a, rest)
    } else if a < 0xF0 {
        of_three_bytes(a, rest)
    } else if a < 0xF8 {
        of_four_bytes(a, rest)
    } else {
        None
    }
}

/// Appends a character's units.
fn push_character(units: &mut Units, code: u32) -> Result<(), AllocError>
    requires { code < 0x110000 }
    ensures { OnOk result (units.new ≡ units.old ++ units_of code) }
{
    if code < 0x1_0000 {
        return units.push(code as u16);
    }
    units.push((0xD800 + (code - 0x1_0000) / 1024) as u16)?;
    units.push((0xDC00 + (code - 0x1_0000) % 1024) as u16)
}

/// Appends the units of the character that begins with `a`, or U+FFFD, and tells how many bytes the
/// character has behind it.
fn push_next(units: &mut Units, a: u8, rest: &[u8]) -> Result<usize, AllocError>
    ensures read { IfOk result (λ more. more ≡ passed (char_from a rest.now)) }
    ensures pushed { OnOk result (units.new ≡ units.old ++ units_or (char_from a rest.now)) }
{
    match character(a, rest) {
        None => {
            units.push(0xFFFD)?;
            Ok(0)
        }
        Some((code, more)) => {
            push_character(units, code)?;
            Ok(more)
        }
    }
}

/// The bytes as a text: UTF-8 from left to right (RFC 3629), each byte that begins no whole
/// character being U+FFFD. A character past U+FFFF has two units.
pub fn text_of(alloc: Global, name: &[u8]) -> Result<Units, AllocError>
    ensures { IfOk result (λ units. units ≡ text_units name.now) }
{
    let mut units = Units::new(alloc);
    let mut more = 0;
    for (i, byte) in name.iter().enumerate() {
        if more > 0 {
            more -= 1;
        } else {
            more = push_next(&mut units, *byte, &name[i + 1..])?;
        }
    }
    Ok(units)
}
