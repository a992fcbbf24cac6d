// The types of a set in the order of their numbers.
ghost use Rattle.std.specs.Prelude.{◌≡◌, ◌<◌, ◌≤◌, ◌-◌, ◌+◌, ◌^◌, ◌++◌, length, map, slice_get, IfOk, OnOk};
ghost use Rattle.std.specs.List.{range_with_len};
ghost use Rattle.cil_base.specs.declared.tables.TheConstants.{TYPE_DEF};
ghost use Rattle.std.specs.Option.{option_copied};
ghost use Rattle.set_rows.specs.Sets.{assembly_at, count_in, or_empty};
ghost use Rattle.set_program.specs.Numbering.{outside_names};
ghost use Rattle.set_program.specs.Attributes.{attribute_outside};
ghost use Rattle.set_program.specs.Environment.{types_of};
ghost use Rattle.descriptions.specs.Descriptions.{type_row, outside_type, type_desc};
ghost use Rattle.program_build.specs.Known.{IsKnown, AreKnown};
ghost use Rattle.program_build.specs.Orders.{of_others};

use crate::facts::Known;
use crate::rows::rows_at;
use cil_base::Name;
use cil_base::tables::TYPE_DEF;
use cil_model::{TypeDesc, TypeDescs};
use descriptions::{facts_give_types, outside_type, type_row};
use member_numbers::types_before_class;
use set_names::DistinctNames;
use set_tables::SetTables;
use std::alloc::{AllocError, Global};
use type_facts::{marks_give_types, type_facts};

/// The type of a TypeDef row.
fn type_at(
    alloc: Global,
    tables: &SetTables<'_>,
    known: &Known,
    a: u32,
    row: u32,
) -> Result<TypeDesc, AllocError>
    requires there { a < length tables.now }
    requires short { length tables.now < 2 ^ 32 }
    requires known { IsKnown tables.now a known.now }
    requires from { 1 ≤ row }
    requires to { row ≤ count_in (assembly_at tables.now a) TYPE_DEF }
    ensures { IfOk result (λ d. d ≡ type_row tables.now a row) }
{
    facts_give_types();
    marks_give_types();
    let set = tables.set();
    let facts = type_facts(alloc, tables.types(), set, a, &known.types, row)?;
    let rows = rows_at(tables, a);
    let coded = tables.coded(a as usize);
    type_row(
        alloc,
        rows,
        coded,
        &known.members,
        &known.lists,
        facts,
        a,
        row,
    )
}

/// Appends the types of `n` TypeDef rows of an assembly, those after the first `before`.
fn push_types(
    alloc: Global,
    out: &mut TypeDescs,
    tables: &SetTables<'_>,
    known: &Known,
    a: u32,
    before: u32,
    n: u32,
) -> Result<(), AllocError>
    requires there { a < length tables.now }
    requires short { length tables.now < 2 ^ 32 }
    requires known { IsKnown tables.now a known.now }
    requires rows { before + n < 2 ^ 32 }
    requires within { before + n ≤ count_in (assembly_at tables.now a) TYPE_DEF }
    ensures { OnOk result (out.new ≡ out.old ++ map (type_row tables.now a) (range_with_len (before + 1) n)) }
{
    for k in 0..n {
        out.push(type_at(alloc, tables, known, a, before + k + 1)?)?;
    }
    Ok(())
}

/// Appends the types of the other assemblies.
fn push_others(
    alloc: Global,
    out: &mut TypeDescs,
    tables: &SetTables<'_>,
    known: &[Known],
) -> Result<(), AllocError>
    requires short { length tables.now < 2 ^ 32 }
    requires known { AreKnown tables.now known.now }
    ensures { OnOk result (out.new ≡ out.old ++ of_others tables.now TYPE_DEF (type_row tables.now) (length tables.now - 1)) }
{
    let others = known.len().saturating_sub(1);
    for k in 0..others {
        let a = k as u32 + 1;
        let count = rows_at(tables, a).count(TYPE_DEF);
        push_types(alloc, out, tables, &known[k + 1], a, 0, count)?;
    }
    Ok(())
}

/// An equal name of its own, empty where there is none.
fn name_or_empty(alloc: Global, name: Option<&[u8]>) -> Result<Name, AllocError>
    ensures { IfOk result (λ n. n ≡ or_empty (option_copied name.entry)) }
{
    match name {
        Some(name) => Name::from_slice(alloc, name),
        None => Ok(Name::new(alloc)),
    }
}

/// The type outside at a place.
fn outside_at(alloc: Global, names: &DistinctNames, place: usize) -> Result<TypeDesc, AllocError>
    ensures { IfOk result (λ d. d ≡ outside_type (or_empty (slice_get names.now place))) }
{
    let name = name_or_empty(alloc, names.get(place))?;
    Ok(outside_type(alloc, name))
}

/// Appends the types outside.
fn push_outside(alloc: Global, out: &mut TypeDescs, names: &DistinctNames) -> Result<(), AllocError>
    ensures { OnOk result (out.new ≡ out.old ++ map outside_type names.now) }
{
    for k in 0..names.len() {
        out.push(outside_at(alloc, names, k)?)?;
    }
    Ok(())
}

/// The types of a set in the order of their numbers.
pub fn all_types(
    alloc: Global,
    tables: &SetTables<'_>,
    known: &[Known],
) -> Result<TypeDescs, AllocError>
    requires some { 0 < length tables.now }
    requires short { length tables.now < 2 ^ 32 }
    requires known { AreKnown tables.now known.now }
    ensures { IfOk result (λ v. v ≡ map (type_desc tables.now) (types_of tables.now)) }
{
    let target = &tables.set()[0];
    let old = types_before_class(target);
    let own = target.count(TYPE_DEF).saturating_sub(old);
    let mut out = TypeDescs::new(alloc);
    push_others(alloc, &mut out, tables, known)?;
    push_types(alloc, &mut out, tables, &known[0], 0, 0, old)?;
    push_outside(alloc, &mut out, tables.types().outside())?;
    push_types(alloc, &mut out, tables, &known[0], 0, old, own)?;
    Ok(out)
}
