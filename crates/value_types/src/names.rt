// The names of the outside types that signatures of a set say to be value types (ECMA-335, II.23.1.16).
ghost use Rattle.std.specs.Prelude.{◌≡◌, ◌<◌, ◌^◌, ◌∷◌, length, filter_map, flat_map, option_to_list, IfOk, OnOk};
ghost use Rattle.cil_semantics.specs.Core.{failure_kind};
ghost use Rattle.set_names.specs.Distinct.{distinct};
ghost use Rattle.set_rows.specs.Sets.{Assemblies};
ghost use Rattle.set_program.specs.Numbering.{order, outside_name};
ghost use Rattle.set_program.specs.Environment.{values_in, is_value};
ghost use Rattle.type_table.specs.Names.{AreReferences, reference_in};
ghost use Rattle.value_types.specs.CodedValues.{coded_outside, coded_values};
ghost use Rattle.value_types.specs.ValueNames.{value_names};

use crate::coded::coded_values;
use set_names::DistinctNames;
use set_program::{Part, TypeId};
use std::alloc::{AllocError, Global};
use type_table::reference_rows;

/// Adds the name of the type that a TypeRef row names, where it is outside.
fn add_outside(
    alloc: Global,
    names: &mut DistinctNames,
    references: &[Option<TypeId>],
    row: u32,
) -> Result<(), AllocError>
    ensures { OnOk result (names.new ≡ distinct names.old (option_to_list (outside_name (reference_in references.now row)))) }
{
    if row == 0 || row as usize > references.len() {
        return Ok(());
    }
    match &references[row as usize - 1] {
        Some(TypeId::Outside(name)) => names.add(alloc, name.as_slice()),
        _ => Ok(()),
    }
}

/// Adds the name of the type that a coded index names, where it is outside.
fn add_coded(
    alloc: Global,
    names: &mut DistinctNames,
    references: &[Option<TypeId>],
    coded: u32,
) -> Result<(), AllocError>
    ensures { OnOk result (names.new ≡ distinct names.old (option_to_list (coded_outside references.now coded))) }
{
    if coded % 4 != 1 {
        return Ok(());
    }
    add_outside(alloc, names, references, coded / 4)
}

fn add_all_coded(
    alloc: Global,
    names: &mut DistinctNames,
    references: &[Option<TypeId>],
    coded: &[u32],
) -> Result<(), AllocError>
    ensures { OnOk result (names.new ≡ distinct names.old (filter_map (coded_outside references.now) coded.now)) }
{
    for value in coded {
        add_coded(alloc, names, references, *value)?;
    }
    Ok(())
}

/// Adds the outside types that signatures of an assembly say to be value types.
fn add_values(
    alloc: Global,
    names: &mut DistinctNames,
    set: &[Part<'_>],
    a: u32,
) -> Result<(), AllocError>
    requires short { length set.now < 2 ^ 32 }
    requires there { a < length set.now }
    ensures { OnOk result (names.new ≡ distinct names.old (values_in set.now a)) }
{
    let references = reference_rows(alloc, set, a)?;
    let coded = coded_values(alloc, set[a as usize].rows())?;
    add_all_coded(alloc, names, references.as_slice(), coded.as_slice())
}

/// Adds those of all assemblies, TARGET's last.
fn add_all_values(
    alloc: Global,
    names: &mut DistinctNames,
    set: &[Part<'_>],
) -> Result<(), AllocError>
    requires short { length set.now < 2 ^ 32 }
    requires some { 0 < length set.now }
    ensures { OnOk result (names.new ≡ distinct names.old (flat_map (values_in set.now) (order set.now))) }
{
    for a in 1..set.len() {
        add_values(alloc, names, set, a as u32)?;
    }
    add_values(alloc, names, set, 0)
}

fn add_all(alloc: Global, names: &mut DistinctNames, set: &[Part<'_>]) -> Result<(), AllocError>
    requires short { length set.now < 2 ^ 32 }
    requires some { 0 < length set.now }
    ensures { OnOk result (names.new ≡ distinct names.old (failure_kind ∷ flat_map (values_in set.now) (order set.now))) }
{
    names.add(alloc, b"System.Diagnostics.Contracts.ContractFailureKind")?;
    add_all_values(alloc, names, set)
}

/// The names of the outside types that signatures of a set say to be value types, each once.
#[tactic(auto, unfolding(crate::specs::ValueNames::value_names))]
pub fn value_names(alloc: Global, set: &[Part<'_>]) -> Result<DistinctNames, AllocError>
    requires short { length set.now < 2 ^ 32 }
    requires some { 0 < length set.now }
    ensures { IfOk result (λ names. names ≡ value_names set.now) }
{
    let mut names = DistinctNames::new(alloc);
    add_all(alloc, &mut names, set)?;
    Ok(names)
}

/// Whether an outside type is a value type, where `names` has the names of a set's.
pub fn is_value(names: &DistinctNames, name: &[u8]) -> bool
    ensures { (s : Assemblies) → names.now ≡ value_names s → result ≡ is_value s name.now }
{
    names.place(name).is_some()
}
