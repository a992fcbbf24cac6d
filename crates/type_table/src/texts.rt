// The types that attributes of Code Contracts name by a text (Code Contracts manual, "Contract classes"; ECMA-335, II.23.3).
ghost use Rattle.std.specs.Prelude.{◌≡◌, ◌<◌, ◌^◌, [], length, IfOk};
ghost use Rattle.std.specs.Option.{option_copied};
ghost use Rattle.set_signatures.specs.Blobs.{attribute_text};
ghost use Rattle.set_program.specs.Attributes.{parted, inside_all, named_in, by_parts, text_type, attribute_type};

use cil_base::tables::CUSTOM_ATTRIBUTE;
use cil_base::{Fault, Name, Place};
use cli_sigs::{read_type_attribute, split_type_name};
use set_program::{Part, TypeId, assembly_named, found_in, inside};
use std::alloc::{AllocError, Global};

/// The place of a refusal that is not told.
const NOWHERE: Place = Place {
    assembly: 0,
    table: 0,
    row: 0,
};

/// The names that `+` parts.
fn parts_of(alloc: Global, text: &[u8]) -> Result<Vec<Name>, AllocError>
    ensures { IfOk result (λ names. names.items ≡ parted [] text.now) }
{
    let mut names = Vec::new(alloc);
    let mut part = Name::new(alloc);
    for b in text {
        if *b == b'+' {
            names.push(part)?;
            part = Name::new(alloc);
        } else {
            part.push(*b)?;
        }
    }
    names.push(part)?;
    Ok(names)
}

/// The type of these names inside one another from a type on.
fn inside_all(
    alloc: Global,
    set: &[Part<'_>],
    outer: Option<TypeId>,
    names: &[Name],
) -> Result<Option<TypeId>, AllocError>
    ensures { IfOk result (λ id. id ≡ inside_all set.now outer names.now) }
{
    let mut found = outer;
    for name in names {
        let Some(outer) = found else {
            return Ok(None);
        };
        found = inside(alloc, set, name.as_slice(), outer)?;
    }
    Ok(found)
}

/// The type of a name in an assembly by its simple name, or else in one by its number.
fn named_in(
    alloc: Global,
    set: &[Part<'_>],
    name: &[u8],
    a: u32,
    assembly: Option<&[u8]>,
) -> Result<Option<TypeId>, AllocError>
    requires { length set.now < 2 ^ 32 }
    ensures { IfOk result (λ id. id ≡ named_in set.now name.now a (option_copied assembly.entry)) }
{
    let Some(simple) = assembly else {
        return found_in(alloc, set, name, a);
    };
    match assembly_named(set, simple) {
        Some(named) => found_in(alloc, set, name, named),
        None => Ok(Some(TypeId::Outside(Name::from_slice(alloc, name)?))),
    }
}

/// The type of a text: in the assembly that stands behind the comma, else in this one.
#[tactic(auto, unfolding(set_program::specs::Attributes::text_type))]
fn text_type(
    alloc: Global,
    set: &[Part<'_>],
    a: u32,
    text: &[u8],
) -> Result<Option<TypeId>, AllocError>
    requires { length set.now < 2 ^ 32 }
    ensures { IfOk result (λ id. id ≡ text_type set.now a text.now) }
{
    let split = split_type_name(text);
    let names = parts_of(alloc, split.type_name)?;
    match names.as_slice() {
        [] => Ok(None),
        [first, rest @ ..] => {
            let outer = named_in(alloc, set, first.as_slice(), a, split.assembly)?;
            inside_all(alloc, set, outer, rest)
        }
    }
}

/// The text of an attribute, where its blob has one and nothing else.
#[tactic(auto, unfolding(set_signatures::specs::Blobs::attribute_text))]
fn attribute_text(alloc: Global, bytes: &[u8]) -> Result<Option<Name>, AllocError>
    requires { length bytes.now < 2 ^ 32 }
    ensures { IfOk result (λ text. text ≡ attribute_text bytes.now) }
{
    match read_type_attribute(alloc, bytes, NOWHERE) {
        Ok(text) => Ok(Some(text)),
        Err(Fault::Refused(_)) => Ok(None),
        Err(Fault::Memory(e)) => Err(e),
    }
}

/// The type that a CustomAttribute row names by its text; None where its blob has no text, or where
/// the type isn't there.
pub fn attribute_type(
    alloc: Global,
    set: &[Part<'_>],
    a: u32,
    row: u32,
) -> Result<Option<TypeId>, AllocError>
    requires short { length set.now < 2 ^ 32 }
    requires there { a < length set.now }
    ensures { IfOk result (λ id. id ≡ attribute_type set.now a row) }
{
    let blob = set[a as usize].blob(CUSTOM_ATTRIBUTE, row, 2);
    match attribute_text(alloc, blob)? {
        None => Ok(None),
        Some(text) => text_type(alloc, set, a, text.as_slice()),
    }
}
