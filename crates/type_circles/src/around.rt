// From a type to the type around it (ECMA-335, II.22.32).
ghost use Rattle.std.specs.Prelude.{◌≡◌, ◌<◌, ◌^◌, length, map, option_and_then, option_to_list, IfOk};
ghost use Rattle.std.specs.List.{range_with_len};
ghost use Rattle.cil_base.specs.declared.tables.TheConstants.{TYPE_DEF};
ghost use Rattle.set_names.specs.Paths.{next_in};
ghost use Rattle.set_rows.specs.Sets.{rows_in};
ghost use Rattle.set_program.specs.declared.identity.TypeId.TheVariants.{Row};
ghost use Rattle.set_program.specs.Environment.{types_of, number_of};
ghost use Rattle.set_program.specs.Nesting.{AreOuter};
ghost use Rattle.set_program.specs.TypeRules.{around};
ghost use Rattle.member_table.specs.Environments.{AreOf};
ghost use Rattle.type_circles.specs.RowGraphs.{around_row, around_in};

use crate::by_number::lists_by_number;
use crate::lists::Lists;
use cil_base::U32s;
use cil_base::tables::{NESTED_CLASS, TYPE_DEF};
use member_table::MemberTable;
use members::AssemblyMembers;
use set_names::note_next;
use set_rows::Rows;
use std::alloc::{AllocError, Global};
use type_table::TypeTable;

/// By TypeDef row from 0: the row of the type around it, or 0.
fn outer_rows(alloc: Global, rows: &Rows<'_>) -> Result<Vec<u32>, AllocError>
    ensures { IfOk result (λ v. AreOuter rows.now v.items) }
{
    let count = rows.count(TYPE_DEF);
    let nestings = rows.count(NESTED_CLASS);
    let mut outer = Vec::new(alloc);
    for _k in 0..count {
        outer.push(0)?;
    }
    for k in 0..nestings {
        // The first NestedClass row of a type counts, so they are gone through from the last on.
        let row = nestings - k;
        note_next(
            &mut outer,
            rows.cell(NESTED_CLASS, row, 0),
            rows.cell(NESTED_CLASS, row, 1),
        );
    }
    Ok(outer)
}

/// The row around a row, where `outer` has them by row from 0.
fn outer_row(outer: &[u32], row: u32) -> Option<u32>
    ensures { result ≡ next_in outer.now row }
{
    if row == 0 || row as usize > outer.len() || outer[row as usize - 1] == 0 {
        return None;
    }
    Some(outer[row as usize - 1])
}

/// The number of the type around a row.
fn outer_number(types: &TypeTable<'_>, outer: &[u32], a: u32, row: u32) -> Option<u32>
    ensures { result ≡ option_and_then (λ o. number_of types.now (Row a o)) (next_in outer.now row) }
{
    match outer_row(outer, row) {
        None => None,
        Some(k) => types.row_number(a, k),
    }
}

fn around_row(
    alloc: Global,
    types: &TypeTable<'_>,
    outer: &[u32],
    a: u32,
    row: u32,
) -> Result<U32s, AllocError>
    ensures { IfOk result (λ l. l ≡ option_to_list (option_and_then (λ o. number_of types.now (Row a o)) (next_in outer.now row))) }
{
    let mut out = U32s::new(alloc);
    if let Some(k) = outer_number(types, outer, a, row) {
        out.push(k)?;
    }
    Ok(out)
}

/// Of each type of an assembly.
fn around_rows(
    alloc: Global,
    types: &TypeTable<'_>,
    rows: &Rows<'_>,
    a: u32,
) -> Result<Lists, AllocError>
    ensures { IfOk result (λ ls. ls ≡ map (around_row types.now a rows.now) (rows_in rows.now TYPE_DEF)) }
{
    let outer = outer_rows(alloc, rows)?;
    let count = rows.count(TYPE_DEF);
    let mut lists = Lists::new(alloc);
    for k in 0..count {
        lists.push(around_row(alloc, types, &outer, a, k + 1)?)?;
    }
    Ok(lists)
}

fn all_around(
    alloc: Global,
    types: &TypeTable<'_>,
    assemblies: &[AssemblyMembers<'_>],
) -> Result<Vec<Lists>, AllocError>
    requires { length assemblies.now < 2 ^ 32 }
    ensures { IfOk result (λ v. v.items ≡ map (around_in types.now assemblies.now) (range_with_len 0 (length assemblies.now))) }
{
    let mut all = Vec::new(alloc);
    for a in 0..assemblies.len() {
        let assembly = &assemblies[a];
        all.push(around_rows(alloc, types, &assembly.rows, a as u32)?)?;
    }
    Ok(all)
}

/// To the type around it each type leads, where these are the assemblies and the types of the set
/// of `types`. One pass over each table.
pub fn around_lists(
    alloc: Global,
    types: &TypeTable<'_>,
    table: &MemberTable<'_>,
) -> Result<Vec<U32s>, AllocError>
    requires few { length table.now.assemblies.items < 2 ^ 32 }
    requires table { AreOf types.now table.now.assemblies.items table.now.types.items }
    ensures { IfOk result (λ v. v.items ≡ map (around types.now) (range_with_len 0 (length (types_of types.now)))) }
{
    let rows = all_around(alloc, types, table.assemblies.as_slice())?;
    let lists = lists_by_number(alloc, table.types.as_slice(), rows.as_slice())?;
    Ok(lists)
}
