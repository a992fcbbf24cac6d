// The outside types of a set, each once, in the order of their numbers.
ghost use Rattle.std.specs.Prelude.{◌≡◌, ◌<◌, ◌^◌, ◌||◌, ◌++◌, length, map, filter, filter_map, flat_map, option_to_list, OnOk, IfOk};
ghost use Rattle.set_names.specs.Names.{is_name};
ghost use Rattle.set_rows.specs.Sets.{assembly_at, rows_in};
ghost use Rattle.set_names.specs.Distinct.{distinct};
ghost use Rattle.set_program.specs.Numbering.{fixed_names, outside_name, names_outside, outside_names, order};
ghost use Rattle.set_program.specs.Attributes.{attribute_name, attribute_type, class_attribute, class_for_attribute, attribute_outside};
ghost use Rattle.type_table.specs.Outside.{outside_by_attributes};

use crate::attributes::attribute_names;
use crate::identities::reference_rows;
use crate::texts::attribute_type;
use cil_base::Name;
use cil_base::tables::{CUSTOM_ATTRIBUTE, TYPE_REF};
use set_names::DistinctNames;
use set_program::{Part, TypeId, reference};
use std::alloc::{AllocError, Global};

static FIXED_NAMES: [&[u8]; 20] = [
    b"System.Void",
    b"System.Boolean",
    b"System.Char",
    b"System.SByte",
    b"System.Byte",
    b"System.Int16",
    b"System.UInt16",
    b"System.Int32",
    b"System.UInt32",
    b"System.Int64",
    b"System.UInt64",
    b"System.Single",
    b"System.Double",
    b"System.String",
    b"System.TypedReference",
    b"System.IntPtr",
    b"System.UIntPtr",
    b"System.Object",
    b"System.Array",
    b"<Module>",
];

/// The names of the types that each program has.
#[tactic(auto, unfolding(set_program::specs::Numbering::fixed_names))]
fn fixed_names() -> &'static [&'static [u8]]
    ensures { map (λ name. name.now) result.now ≡ fixed_names }
{
    &FIXED_NAMES
}

/// Adds the names of the types that each program has.
fn add_fixed(alloc: Global, names: &mut DistinctNames) -> Result<(), AllocError>
    ensures { OnOk result (names.new ≡ distinct names.old fixed_names) }
{
    for name in fixed_names() {
        names.add(alloc, name)?;
    }
    Ok(())
}

/// Adds the name of a type, where it is outside.
fn add_outside(
    alloc: Global,
    names: &mut DistinctNames,
    id: &Option<TypeId>,
) -> Result<(), AllocError>
    ensures { OnOk result (names.new ≡ distinct names.old (option_to_list (outside_name id.now))) }
{
    if let Some(TypeId::Outside(name)) = id {
        names.add(alloc, name.as_slice())?;
    }
    Ok(())
}

/// Adds the outside types that the TypeRef rows of an assembly name.
pub fn add_references(
    alloc: Global,
    names: &mut DistinctNames,
    set: &[Part<'_>],
    a: u32,
) -> Result<(), AllocError>
    requires short { length set.now < 2 ^ 32 }
    requires there { a < length set.now }
    ensures { OnOk result (names.new ≡ distinct names.old (names_outside set.now a)) }
{
    let count = set[a as usize].count(TYPE_REF);
    for k in 0..count {
        let id = reference(alloc, set, a, k + 1)?;
        add_outside(alloc, names, &id)?;
    }
    Ok(())
}

/// Whether there is a name, and it is this one.
fn is_name(name: &Option<Name>, wanted: &[u8]) -> bool
    ensures { result ≡ is_name wanted.now name.now }
{
    match name {
        Some(name) => wanted == name.as_slice(),
        None => false,
    }
}

/// Whether it is the name of one of two attributes of Code Contracts that name a type.
fn names_type(name: &Option<Name>) -> bool
    ensures { result ≡ (is_name class_attribute name.now || is_name class_for_attribute name.now) }
{
    is_name(name, b"System.Diagnostics.Contracts.ContractClassAttribute")
        || is_name(
            name,
            b"System.Diagnostics.Contracts.ContractClassForAttribute",
        )
}

/// Adds the type that an attribute names by its text, where it is outside.
fn add_attribute(
    alloc: Global,
    names: &mut DistinctNames,
    set: &[Part<'_>],
    a: u32,
    row: u32,
) -> Result<(), AllocError>
    requires short { length set.now < 2 ^ 32 }
    requires there { a < length set.now }
    ensures { OnOk result (names.new ≡ distinct names.old (option_to_list (outside_name (attribute_type set.now a row)))) }
{
    let id = attribute_type(alloc, set, a, row)?;
    add_outside(alloc, names, &id)
}

/// Adds the outside types that attributes of Code Contracts of an assembly name; `types` has the
/// names of the types of its attributes.
fn add_attributes(
    alloc: Global,
    names: &mut DistinctNames,
    set: &[Part<'_>],
    a: u32,
    types: &[Option<Name>],
) -> Result<(), AllocError>
    requires short { length set.now < 2 ^ 32 }
    requires there { a < length set.now }
    requires few { length types.now < 2 ^ 32 }
    requires types { types.now ≡ map (attribute_name set.now a) (rows_in (assembly_at set.now a) CUSTOM_ATTRIBUTE) }
    ensures { OnOk result (names.new ≡ distinct names.old (outside_by_attributes set.now a)) }
{
    for k in 0..types.len() {
        if names_type(&types[k]) {
            add_attribute(alloc, names, set, a, k as u32 + 1)?;
        }
    }
    Ok(())
}

/// Adds the outside types that attributes of Code Contracts of an assembly name.
fn add_by_attributes(
    alloc: Global,
    names: &mut DistinctNames,
    set: &[Part<'_>],
    a: u32,
) -> Result<(), AllocError>
    requires short { length set.now < 2 ^ 32 }
    requires there { a < length set.now }
    ensures { OnOk result (names.new ≡ distinct names.old (outside_by_attributes set.now a)) }
{
    let references = reference_rows(alloc, set, a)?;
    let types = attribute_names(alloc, set, a, references.as_slice())?;
    add_attributes(alloc, names, set, a, types.as_slice())
}

/// Adds the outside types that attributes of Code Contracts of all assemblies name, TARGET's last.
fn add_all_attributes(
    alloc: Global,
    names: &mut DistinctNames,
    set: &[Part<'_>],
) -> Result<(), AllocError>
    requires short { length set.now < 2 ^ 32 }
    requires some { 0 < length set.now }
    ensures { OnOk result (names.new ≡ distinct names.old (attribute_outside set.now)) }
{
    for a in 1..set.len() {
        add_by_attributes(alloc, names, set, a as u32)?;
    }
    add_by_attributes(alloc, names, set, 0)
}

/// Adds the outside types that the TypeRef rows of all assemblies name, TARGET's last.
fn add_all_references(
    alloc: Global,
    names: &mut DistinctNames,
    set: &[Part<'_>],
) -> Result<(), AllocError>
    requires short { length set.now < 2 ^ 32 }
    requires some { 0 < length set.now }
    ensures { OnOk result (names.new ≡ distinct names.old (flat_map (names_outside set.now) (order set.now))) }
{
    for a in 1..set.len() {
        add_references(alloc, names, set, a as u32)?;
    }
    add_references(alloc, names, set, 0)
}

/// Adds all.
fn add_all(alloc: Global, names: &mut DistinctNames, set: &[Part<'_>]) -> Result<(), AllocError>
    requires short { length set.now < 2 ^ 32 }
    requires some { 0 < length set.now }
    ensures { OnOk result (names.new ≡ distinct names.old (fixed_names ++ (attribute_outside set.now ++ flat_map (names_outside set.now) (order set.now)))) }
{
    add_fixed(alloc, names)?;
    add_all_attributes(alloc, names, set)?;
    add_all_references(alloc, names, set)
}

/// The names of the outside types of a set, in the order of their numbers.
#[tactic(auto, unfolding(set_program::specs::Numbering::outside_names))]
pub fn outside_names(alloc: Global, set: &[Part<'_>]) -> Result<DistinctNames, AllocError>
    requires short { length set.now < 2 ^ 32 }
    requires some { 0 < length set.now }
    ensures { IfOk result (λ names. names ≡ outside_names set.now (attribute_outside set.now)) }
{
    let mut names = DistinctNames::new(alloc);
    add_all(alloc, &mut names, set)?;
    Ok(names)
}
