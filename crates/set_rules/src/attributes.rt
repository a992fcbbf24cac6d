// The types that contract attributes name (ECMA-335, II.22.10; Code Contracts manual, "Contract classes").
ghost use Rattle.std.specs.Prelude.{◌≡◌, ◌<◌, ◌^◌, ◌&&◌, ◌||◌, length, is_none, IfOk};
ghost use Rattle.cil_base.specs.Refusals.{first_of};
ghost use Rattle.set_names.specs.Names.{is_name};
ghost use Rattle.set_program.specs.Attributes.{attribute_name, attribute_type, names_type, class_attribute, class_for_attribute};
ghost use Rattle.set_blobs.specs.Readings.{AreNames};
ghost use Rattle.set_rules.specs.TableTests.{table_tests};

use cil_base::tables::CUSTOM_ATTRIBUTE;
use cil_base::{Name, Place, Refusal, Rule};
use set_program::Part;
use std::alloc::{AllocError, Global};
use type_table::attribute_type;

/// Whether there is a name, and it is this one.
fn is_name(name: &Option<Name>, wanted: &[u8]) -> bool
    ensures { result ≡ is_name wanted.now name.now }
{
    match name {
        Some(name) => wanted == name.as_slice(),
        None => false,
    }
}

/// Whether it is the name of an attribute that names a type.
fn names_type(name: &Option<Name>) -> bool
    ensures { result ≡ (is_name class_attribute name.now || is_name class_for_attribute name.now) }
{
    is_name(name, b"System.Diagnostics.Contracts.ContractClassAttribute")
        || is_name(
            name,
            b"System.Diagnostics.Contracts.ContractClassForAttribute",
        )
}

/// Whether a row is to name a type, and names none.
fn is_missing(
    alloc: Global,
    set: &[Part<'_>],
    a: u32,
    name: &Option<Name>,
    row: u32,
) -> Result<bool, AllocError>
    requires short { length set.now < 2 ^ 32 }
    requires there { a < length set.now }
    requires name { name.now ≡ attribute_name set.now a row }
    ensures { IfOk result (λ b. b ≡ (names_type set.now a row && is_none (attribute_type set.now a row))) }
{
    if !names_type(name) {
        return Ok(false);
    }
    Ok(attribute_type(alloc, set, a, row)?.is_none())
}

/// The first refusal at a CustomAttribute row; `names` has the full names of the types of attributes.
pub fn attribute_fault(
    alloc: Global,
    set: &[Part<'_>],
    a: u32,
    names: &[Option<Name>],
) -> Result<Option<Refusal>, AllocError>
    requires short { length set.now < 2 ^ 32 }
    requires there { a < length set.now }
    requires few { length names.now < 2 ^ 32 }
    requires names { AreNames set.now a names.now }
    ensures { IfOk result (λ o. o ≡ first_of (table_tests set.now a CUSTOM_ATTRIBUTE)) }
{
    for k in 0..names.len() {
        let row = k as u32 + 1;
        if is_missing(alloc, set, a, &names[k], row)? {
            let place = Place {
                assembly: a,
                table: CUSTOM_ATTRIBUTE,
                row,
            };
            return Ok(Some(place.refusal(Rule::N1, 0)));
        }
    }
    Ok(None)
}
