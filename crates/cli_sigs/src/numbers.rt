// Single bytes and compressed numbers at the front of a slice (ECMA-335, II.23.2).
ghost use Rattle.std.specs.Prelude.{◌≡◌, ◌+◌, ◌*◌, ◌<◌, ◌≤◌, ◌^◌, ◌==◌, IfOk};
ghost use Rattle.cli_sigs.specs.Numbers.{unrotated, has_table};
ghost use Rattle.cli_sigs.specs.Read.{byte_where, byte_as, many};
ghost use Rattle.cli_sigs.specs.Reading.{Gives, is_byte, is_head, is_zero_head, this_byte, packed_after, packed, is_coded_head, is_tagged_byte, coded_after, coded_index, head_half, signed, nothing_after, no_items, named_value, leaf_in, counted};
ghost use Rattle.cli_sigs.specs.Elements.{element_in};

use crate::elements::{Element, Slot};
use cil_base::{I32s, U32s};
use sqlite_items::Items;
use std::alloc::{AllocError, Global};

/// Why a reader stopped: so many bytes are left from the first wrong one on, or there was no memory.
#[derive(Drop)]
pub enum Stop {
    At(usize),
    Memory(AllocError),
}

impl From<AllocError> for Stop {
    ghost use Rattle.std.specs.Prelude.{◌≡◌};
    ghost use Rattle.cli_sigs.specs.declared.numbers.Stop.TheVariants.{Memory};

    ghost from_gives = { λ e r. r ≡ Memory e };

    fn from(e: AllocError) -> Stop {
        Stop::Memory(e)
    }
}

pub fn any_byte(bytes: &[u8]) -> Result<(u8, &[u8]), Stop>
    ensures { Gives (λ x. (x.0, x.1.now)) result (byte_where is_byte bytes.now) }
{
    match bytes {
        [] => Err(Stop::At(0)),
        [b, rest @ ..] => Ok((*b, rest)),
    }
}

/// The byte `c`.
pub fn this_byte(c: u8, bytes: &[u8]) -> Result<(u8, &[u8]), Stop>
    ensures { Gives (λ x. (x.0, x.1.now)) result (this_byte c bytes.now) }
{
    match bytes {
        [] => Err(Stop::At(0)),
        [b, rest @ ..] => {
            if *b == c {
                Ok((*b, rest))
            } else {
                Err(Stop::At(bytes.len()))
            }
        }
    }
}

/// The first byte of a compressed number.
fn head_byte(bytes: &[u8]) -> Result<(u8, &[u8]), Stop>
    ensures { Gives (λ x. (x.0, x.1.now)) result (byte_where is_head bytes.now) }
{
    match bytes {
        [] => Err(Stop::At(0)),
        [b, rest @ ..] => {
            if *b < 0xE0 {
                Ok((*b, rest))
            } else {
                Err(Stop::At(bytes.len()))
            }
        }
    }
}

/// The rest of a compressed number that begins with `a`.
#[tactic(auto, unfolding(crate::specs::Reading::packed_after))]
fn packed_rest(a: u8, bytes: &[u8]) -> Result<(u32, &[u8]), Stop>
    requires { a < 0xE0 }
    ensures small { IfOk result (λ x. x.0 < 2 ^ 29) }
    ensures read { Gives (λ x. (x.0, x.1.now)) result (packed_after a bytes.now) }
{
    let a = u32::from(a);
    if a < 0x80 {
        return Ok((a, bytes));
    }
    let (b, bytes) = any_byte(bytes)?;
    let b = u32::from(b);
    if a < 0xC0 {
        return Ok((0x100 * (a - 0x80) + b, bytes));
    }
    let (c, bytes) = any_byte(bytes)?;
    let (d, bytes) = any_byte(bytes)?;
    let (c, d) = (u32::from(c), u32::from(d));
    Ok((
        0x100_0000 * (a - 0xC0) + 0x1_0000 * b + 0x100 * c + d,
        bytes,
    ))
}

/// A compressed unsigned number; a longer spelling than needed counts too.
#[tactic(auto, unfolding(crate::specs::Reading::packed))]
pub fn packed(bytes: &[u8]) -> Result<(u32, &[u8]), Stop>
    ensures { Gives (λ x. (x.0, x.1.now)) result (packed bytes.now) }
{
    let (a, rest) = head_byte(bytes)?;
    packed_rest(a, rest)
}

/// Whether the two lowest bits are the tag of a table.
fn has_table(last: u8) -> bool
    ensures { result ≡ has_table last }
{
    last % 4 < 3
}

/// The first byte of a coded index.
fn coded_head(bytes: &[u8]) -> Result<(u8, &[u8]), Stop>
    ensures { Gives (λ x. (x.0, x.1.now)) result (byte_where is_coded_head bytes.now) }
{
    match bytes {
        [] => Err(Stop::At(0)),
        [b, rest @ ..] => {
            if *b < 0xE0 && (*b >= 0x80 || has_table(*b)) {
                Ok((*b, rest))
            } else {
                Err(Stop::At(bytes.len()))
            }
        }
    }
}

/// The last of several bytes of a coded index.
fn tagged_byte(bytes: &[u8]) -> Result<(u8, &[u8]), Stop>
    ensures { Gives (λ x. (x.0, x.1.now)) result (byte_where is_tagged_byte bytes.now) }
{
    match bytes {
        [] => Err(Stop::At(0)),
        [b, rest @ ..] => {
            if has_table(*b) {
                Ok((*b, rest))
            } else {
                Err(Stop::At(bytes.len()))
            }
        }
    }
}

/// The rest of a coded index that begins with `a`.
#[tactic(auto, unfolding(crate::specs::Reading::coded_after))]
fn coded_rest(a: u8, bytes: &[u8]) -> Result<(u32, &[u8]), Stop>
    requires { a < 0xE0 }
    ensures { Gives (λ x. (x.0, x.1.now)) result (coded_after a bytes.now) }
{
    let a = u32::from(a);
    if a < 0x80 {
        return Ok((a, bytes));
    }
    if a < 0xC0 {
        let (b, bytes) = tagged_byte(bytes)?;
        return Ok((0x100 * (a - 0x80) + u32::from(b), bytes));
    }
    let (b, bytes) = any_byte(bytes)?;
    let (c, bytes) = any_byte(bytes)?;
    let (d, bytes) = tagged_byte(bytes)?;
    let (b, c, d) = (u32::from(b), u32::from(c), u32::from(d));
    Ok((
        0x100_0000 * (a - 0xC0) + 0x1_0000 * b + 0x100 * c + d,
        bytes,
    ))
}

/// A coded index of the table of a type (II.23.2.8).
#[tactic(auto, unfolding(crate::specs::Reading::coded_index))]
pub fn coded_index(bytes: &[u8]) -> Result<(u32, &[u8]), Stop>
    ensures { Gives (λ x. (x.0, x.1.now)) result (coded_index bytes.now) }
{
    let (a, rest) = coded_head(bytes)?;
    coded_rest(a, rest)
}

fn half(a: u8) -> u32
    ensures { result ≡ head_half a }
{
    if a < 0x80 {
        0x40
    } else if a < 0xC0 {
        0x2000
    } else {
        0x1000_0000
    }
}

fn unrotated(half: u32, u: u32) -> i32
    requires small { half ≤ 0x10000000 }
    requires within { u < 0x40000000 }
    ensures { result ≡ unrotated half u }
{
    let rest = (u / 2) as i32;
    if u % 2 == 0 { rest } else { rest - half as i32 }
}

/// A compressed signed number.
#[tactic(auto, unfolding(crate::specs::Reading::signed))]
pub fn signed(bytes: &[u8]) -> Result<(i32, &[u8]), Stop>
    ensures { Gives (λ x. (x.0, x.1.now)) result (signed bytes.now) }
{
    let (a, bytes) = head_byte(bytes)?;
    let (u, bytes) = packed_rest(a, bytes)?;
    Ok((unrotated(half(a), u), bytes))
}

/// A count and so many unsigned numbers.
#[tactic(auto, unfolding(crate::specs::Reading::counted))]
pub fn packed_list(alloc: Global, bytes: &[u8]) -> Result<(U32s, &[u8]), Stop>
    ensures { Gives (λ x. (x.0, x.1.now)) result (counted packed bytes.now) }
{
    let (count, bytes) = packed(bytes)?;
    packed_items(alloc, count, bytes)
}

fn packed_items(alloc: Global, count: u32, bytes: &[u8]) -> Result<(U32s, &[u8]), Stop>
    ensures { Gives (λ x. (x.0, x.1.now)) result (many count packed bytes.now) }
{
    let mut items = Items::new(alloc);
    let mut rest = bytes;
    for _ in 0..count {
        let (one, after) = packed(rest)?;
        items.push(one)?;
        rest = after;
    }
    Ok((items, rest))
}

/// A count and so many signed numbers.
#[tactic(auto, unfolding(crate::specs::Reading::counted))]
pub fn signed_list(alloc: Global, bytes: &[u8]) -> Result<(I32s, &[u8]), Stop>
    ensures { Gives (λ x. (x.0, x.1.now)) result (counted signed bytes.now) }
{
    let (count, bytes) = packed(bytes)?;
    signed_items(alloc, count, bytes)
}

fn signed_items(alloc: Global, count: u32, bytes: &[u8]) -> Result<(I32s, &[u8]), Stop>
    ensures { Gives (λ x. (x.0, x.1.now)) result (many count signed bytes.now) }
{
    let mut items = Items::new(alloc);
    let mut rest = bytes;
    for _ in 0..count {
        let (one, after) = signed(rest)?;
        items.push(one)?;
        rest = after;
    }
    Ok((items, rest))
}

fn zero_head(bytes: &[u8]) -> Result<(u8, &[u8]), Stop>
    ensures { Gives (λ x. (x.0, x.1.now)) result (byte_where is_zero_head bytes.now) }
{
    match bytes {
        [] => Err(Stop::At(0)),
        [b, rest @ ..] => {
            if *b == 0x00 || *b == 0x80 || *b == 0xC0 {
                Ok((*b, rest))
            } else {
                Err(Stop::At(bytes.len()))
            }
        }
    }
}

#[tactic(auto, unfolding(crate::specs::Reading::nothing_after))]
fn nothing_rest(a: u8, bytes: &[u8]) -> Result<(u8, &[u8]), Stop>
    ensures { Gives (λ x. (x.0, x.1.now)) result (nothing_after a bytes.now) }
{
    match a {
        0x00 => Ok((0, bytes)),
        0x80 => this_byte(0, bytes),
        _ => {
            let (_, bytes) = this_byte(0, bytes)?;
            let (_, bytes) = this_byte(0, bytes)?;
            this_byte(0, bytes)
        }
    }
}

/// A count of no items.
#[tactic(auto, unfolding(crate::specs::Reading::no_items))]
pub fn no_items(bytes: &[u8]) -> Result<(u8, &[u8]), Stop>
    ensures { Gives (λ x. (x.0, x.1.now)) result (no_items bytes.now) }
{
    let (a, bytes) = zero_head(bytes)?;
    nothing_rest(a, bytes)
}

/// The first byte of a type.
pub fn element(slot: Slot, bytes: &[u8]) -> Result<(Element, &[u8]), Stop>
    ensures { Gives (λ x. (x.0, x.1.now)) result (byte_as (element_in slot) bytes.now) }
{
    match bytes {
        [] => Err(Stop::At(0)),
        [b, rest @ ..] => match slot.element(*b) {
            Some(element) => Ok((element, rest)),
            None => Err(Stop::At(bytes.len())),
        },
    }
}

/// The first byte of a type with none inside.
pub fn leaf_element(slot: Slot, bytes: &[u8]) -> Result<(Element, &[u8]), Stop>
    ensures { Gives (λ x. (x.0, x.1.now)) result (byte_as (leaf_in slot) bytes.now) }
{
    match bytes {
        [] => Err(Stop::At(0)),
        [b, rest @ ..] => match slot.element(*b) {
            Some(element) => {
                if element.is_leaf() {
                    Ok((element, rest))
                } else {
                    Err(Stop::At(bytes.len()))
                }
            }
            None => Err(Stop::At(bytes.len())),
        },
    }
}

/// VALUETYPE or CLASS.
pub fn named_value(bytes: &[u8]) -> Result<(bool, &[u8]), Stop>
    ensures { Gives (λ x. (x.0, x.1.now)) result (byte_as named_value bytes.now) }
{
    match bytes {
        [] => Err(Stop::At(0)),
        [b, rest @ ..] => match *b {
            0x11 => Ok((true, rest)),
            0x12 => Ok((false, rest)),
            _ => Err(Stop::At(bytes.len())),
        },
    }
}
