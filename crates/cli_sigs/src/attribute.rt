// The blobs of contract attributes that name a type (ECMA-335, II.23.3; Code Contracts manual,
// ContractClass and ContractClassFor).
ghost use Rattle.std.specs.Prelude.{◌≡◌, ◌<◌, ◌^◌, ℕ, List, length, reverse, IfOk};
ghost use Rattle.cil_base.specs.Refusals.{OnRefused};
ghost use Rattle.cli_sigs.specs.Read.{byte_where, many};
ghost use Rattle.cli_sigs.specs.Reading.{Gives, is_byte, counted, attribute, bare_attribute, ended};
ghost use Rattle.std.specs.Option.{option_map};
ghost use Rattle.cli_sigs.specs.Attributes.{IsTypeAttribute, IsBareAttribute, before_comma, behind_comma, from_front, up_to_end, assembly_in};
ghost use Rattle.cli_sigs.specs.Answers.{GivesOnly, Reads, AtLongest};

use crate::blobs::whole;
use crate::numbers::{Stop, any_byte, packed, this_byte};
use cil_base::{Fault, Name, Place, Rule};
use sqlite_items::Items;
use std::alloc::Global;

fn text_bytes(alloc: Global, count: u32, bytes: &[u8]) -> Result<(Name, &[u8]), Stop>
    ensures { Gives (λ x. (x.0, x.1.now)) result (many count (byte_where is_byte) bytes.now) }
{
    let mut items = Items::new(alloc);
    let mut rest = bytes;
    for _ in 0..count {
        let (one, after) = any_byte(rest)?;
        items.push(one)?;
        rest = after;
    }
    Ok((items, rest))
}

#[tactic(auto, unfolding(crate::specs::Reading::counted))]
fn text_of(alloc: Global, bytes: &[u8]) -> Result<(Name, &[u8]), Stop>
    ensures { Gives (λ x. (x.0, x.1.now)) result (counted (byte_where is_byte) bytes.now) }
{
    let (count, bytes) = packed(bytes)?;
    text_bytes(alloc, count, bytes)
}

#[tactic(auto, unfolding(crate::specs::Reading::attribute))]
fn attribute_of(alloc: Global, bytes: &[u8]) -> Result<(Name, &[u8]), Stop>
    ensures { Gives (λ x. (x.0, x.1.now)) result (attribute bytes.now) }
{
    let (_, bytes) = this_byte(0x01, bytes)?;
    let (_, bytes) = this_byte(0x00, bytes)?;
    let (text, bytes) = text_of(alloc, bytes)?;
    let (_, bytes) = this_byte(0x00, bytes)?;
    let (_, bytes) = this_byte(0x00, bytes)?;
    Ok((text, bytes))
}

/// The text of an attribute with one argument, a type, and no named values: a type name, and behind
/// a comma an assembly name. Refused by S2 where the blob is none, at the length of the longest
/// prefix with which one begins.
pub fn read_type_attribute(alloc: Global, blob: &[u8], place: Place) -> Result<Name, Fault>
    requires { length blob.now < 2 ^ 32 }
    ensures found { IfOk result (λ text. IsTypeAttribute blob.now text) }
    ensures only { (text : List ℕ) → IsTypeAttribute blob.now text → GivesOnly result text }
    ensures refused { OnRefused result (AtLongest Rule.S2 place IsTypeAttribute blob.now) }
    ensures read { Reads result (ended (attribute blob.now)) }
{
    let read = attribute_of(alloc, blob);
    whole(read, blob, place, Rule::S2)
}

#[tactic(auto, unfolding(crate::specs::Reading::bare_attribute))]
fn bare_attribute_of(bytes: &[u8]) -> Result<(u8, &[u8]), Stop>
    ensures { Gives (λ x. (x.0, x.1.now)) result (bare_attribute bytes.now) }
{
    let (_, bytes) = this_byte(0x01, bytes)?;
    let (_, bytes) = this_byte(0x00, bytes)?;
    let (_, bytes) = this_byte(0x00, bytes)?;
    this_byte(0x00, bytes)
}

/// An attribute without arguments and without named values: the number of these, 0. Refused as an
/// attribute with a text.
pub fn read_bare_attribute(blob: &[u8], place: Place) -> Result<u8, Fault>
    requires { length blob.now < 2 ^ 32 }
    ensures found { IfOk result (λ named. IsBareAttribute blob.now named) }
    ensures only { (named : ℕ) → IsBareAttribute blob.now named → GivesOnly result named }
    ensures refused { OnRefused result (AtLongest Rule.S2 place IsBareAttribute blob.now) }
    ensures read { Reads result (ended (bare_attribute blob.now)) }
{
    let read = bare_attribute_of(blob);
    whole(read, blob, place, Rule::S2)
}

/// A text that names a type.
#[derive(Clone, Copy)]
pub struct TypeName<'a> {
    /// The type's name, with `+` before the name of a nested type.
    pub type_name: &'a [u8],
    /// The simple name of the assembly; none where the type is in the same assembly.
    pub assembly: Option<&'a [u8]>,
}

/// What ends a type name and an assembly name.
const COMMA: u8 = b',';

fn before_comma(text: &[u8]) -> &[u8]
    ensures { result.now ≡ before_comma text.now }
{
    for (at, b) in text.iter().enumerate() {
        if *b == COMMA {
            return &text[..at];
        }
    }
    text
}

fn behind_comma(text: &[u8]) -> Option<&[u8]>
    ensures { option_map (λ x. x.now) result ≡ behind_comma text.now }
{
    let mut rest = text;
    while let [b, after @ ..] = rest {
        if *b == COMMA {
            return Some(after);
        }
        rest = after;
    }
    None
}

fn from_front(text: &[u8]) -> &[u8]
    ensures { result.now ≡ from_front text.now }
{
    let mut rest = text;
    while let [b' ', after @ ..] = rest {
        rest = after;
    }
    rest
}

fn up_to_end(text: &[u8]) -> &[u8]
    ensures { result.now ≡ up_to_end text.now }
{
    let mut rest = text;
    while let [before @ .., b' '] = rest {
        rest = before;
    }
    rest
}

/// Splits the text of an attribute that names a type: what stands before the first comma, and what
/// stands between it and the next comma or the end, without blanks at the front and at the end.
/// Takes no memory.
pub fn split_type_name(text: &[u8]) -> TypeName<'_>
    ensures type_name { result.type_name.now ≡ before_comma text.now }
    ensures assembly { option_map (λ x. x.now) result.assembly ≡ assembly_in text.now }
{
    let type_name = before_comma(text);
    match behind_comma(text) {
        Some(rest) => {
            let assembly = Some(up_to_end(from_front(before_comma(rest))));
            TypeName {
                type_name,
                assembly,
            }
        }
        None => TypeName {
            type_name,
            assembly: None,
        },
    }
}
