// What the coded types of an assembly lead to, as lists by row (ECMA-335, II.23.2.8).
ghost use Rattle.std.specs.Prelude.{◌≡◌, ◌<◌, ◌^◌, ◌++◌, length, map, IfOk, OnOk};
ghost use Rattle.cil_base.specs.declared.tables.TheConstants.{TYPE_REF};
ghost use Rattle.set_rows.specs.Sets.{assembly_at, rows_in};
ghost use Rattle.set_types.specs.CodedTypes.{coded_of};
ghost use Rattle.set_program.specs.Environment.{coded_in};
ghost use Rattle.value_types.specs.ValueNames.{value_names};
ghost use Rattle.coded_tables.specs.CodedAssemblies.{reference_ty, reference_number, IsEmpty, AreByRow};

use crate::references::{push_def_numbers, push_defs, push_numbers, push_references, push_specs};
use cil_base::U32s;
use cil_base::tables::TYPE_DEF;
use cil_model::{Ty, Tys};
use set_names::DistinctNames;
use set_program::Part;
use set_types::CodedTypes;
use std::alloc::{AllocError, Global};
use type_table::{TypeTable, reference_rows};

fn no_types(alloc: Global) -> CodedTypes
    ensures { IsEmpty result }
{
    CodedTypes {
        defs: Tys::new(alloc),
        refs: Vec::new(alloc),
        def_numbers: U32s::new(alloc),
        ref_numbers: Vec::new(alloc),
        specs: Vec::new(alloc),
    }
}

/// Notes what the TypeRef rows name.
fn note_references(
    alloc: Global,
    table: &TypeTable<'_>,
    values: &DistinctNames,
    set: &[Part<'_>],
    a: u32,
    refs: &mut Vec<Option<Ty>>,
    numbers: &mut Vec<Option<u32>>,
) -> Result<(), AllocError>
    requires same { set.now ≡ table.now }
    requires values { values.now ≡ value_names table.now }
    requires short { length set.now < 2 ^ 32 }
    requires there { a < length set.now }
    ensures types { OnOk result (refs.new.items ≡ refs.old.items ++ map (reference_ty set.now a) (rows_in (assembly_at set.now a) TYPE_REF)) }
    ensures numbers { OnOk result (numbers.new.items ≡ numbers.old.items ++ map (reference_number set.now a) (rows_in (assembly_at set.now a) TYPE_REF)) }
{
    let references = reference_rows(alloc, set, a)?;
    push_references(alloc, table, values, references.as_slice(), refs)?;
    push_numbers(table, references.as_slice(), numbers)?;
    Ok(())
}

/// Notes what the rows of an assembly lead to.
fn note_rows(
    alloc: Global,
    table: &TypeTable<'_>,
    values: &DistinctNames,
    set: &[Part<'_>],
    a: u32,
    coded: &mut CodedTypes,
) -> Result<(), AllocError>
    requires same { set.now ≡ table.now }
    requires values { values.now ≡ value_names table.now }
    requires short { length set.now < 2 ^ 32 }
    requires there { a < length set.now }
    requires empty { IsEmpty coded.old }
    ensures { OnOk result (AreByRow set.now a coded.new) }
{
    let rows = set[a as usize].rows();
    let count = rows.count(TYPE_DEF);
    push_defs(table, a, count, &mut coded.defs)?;
    push_def_numbers(table, a, count, &mut coded.def_numbers)?;
    note_references(
        alloc,
        table,
        values,
        set,
        a,
        &mut coded.refs,
        &mut coded.ref_numbers,
    )?;
    push_specs(alloc, rows, &mut coded.specs)?;
    Ok(())
}

/// What the coded types of an assembly lead to.
pub fn coded_types(
    alloc: Global,
    table: &TypeTable<'_>,
    values: &DistinctNames,
    set: &[Part<'_>],
    a: u32,
) -> Result<CodedTypes, AllocError>
    requires same { set.now ≡ table.now }
    requires values { values.now ≡ value_names table.now }
    requires short { length set.now < 2 ^ 32 }
    requires there { a < length set.now }
    ensures { IfOk result (λ c. coded_of c ≡ coded_in set.now a) }
{
    let mut coded = no_types(alloc);
    note_rows(alloc, table, values, set, a, &mut coded)?;
    Ok(coded)
}
