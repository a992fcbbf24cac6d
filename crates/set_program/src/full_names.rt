// The full names of an assembly's types, and the names of its forwarders (ECMA-335, II.6.1.3, II.22.14, II.22.32).
ghost use Rattle.std.specs.Prelude.{◌≡◌, ℕ, ◌+◌, ◌<◌, ◌^◌, length, reverse, map, IfOk, true};
ghost use Rattle.set_rows.specs.Sets.{rows_in, is_row};
ghost use Rattle.set_program.specs.TypeNames.{own_name, path_name, full_name};
ghost use Rattle.set_program.specs.Nesting.{AreOuter, forwarder_name};

use crate::row_names::{exported_name, inner_name, own_type_name};
use cil_base::Name;
use cil_base::tables::{EXPORTED_TYPE, NESTED_CLASS, TYPE_DEF};
use set_names::{note_next, path_of};
use set_rows::Rows;
use std::alloc::{AllocError, Global};

/// By TypeDef row from 0: the row of the type around it, or 0.
fn outer_rows(alloc: Global, rows: &Rows<'_>) -> Result<Vec<u32>, AllocError>
    ensures { IfOk result (λ v. AreOuter rows.now v.items) }
{
    let count = rows.count(TYPE_DEF);
    let nestings = rows.count(NESTED_CLASS);
    let mut outer = Vec::new(alloc);
    for _k in 0..count {
        outer.push(0)?;
    }
    for k in 0..nestings {
        // The first NestedClass row of a type counts, so they are gone through from the last on.
        let row = nestings - k;
        note_next(
            &mut outer,
            rows.cell(NESTED_CLASS, row, 0),
            rows.cell(NESTED_CLASS, row, 1),
        );
    }
    Ok(outer)
}

/// The names along a path, from the outermost at its end.
fn path_name(alloc: Global, rows: &Rows<'_>, path: Vec<u32>) -> Result<Name, AllocError>
    ensures { IfOk result (λ name. name ≡ path_name (own_name rows.now TYPE_DEF) (reverse path.items)) }
{
    let mut path = path;
    let Some(top) = path.pop() else {
        return Ok(Name::new(alloc));
    };
    let mut name = own_type_name(alloc, rows, top)?;
    while let Some(row) = path.pop() {
        let own = own_type_name(alloc, rows, row)?;
        name = inner_name(alloc, name.as_slice(), own.as_slice())?;
    }
    Ok(name)
}

/// The full name of a TypeDef row, or None where its nestings lead into a circle.
fn full_name_of(
    alloc: Global,
    rows: &Rows<'_>,
    outer: &[u32],
    row: u32,
) -> Result<Option<Name>, AllocError>
    requires outer { AreOuter rows.now outer.now }
    requires there { is_row rows.now TYPE_DEF row ≡ true }
    requires short { length outer.now < 2 ^ 32 }
    ensures { IfOk result (λ name. name ≡ full_name rows.now row) }
{
    match path_of(alloc, outer, row)? {
        None => Ok(None),
        Some(path) => {
            let name = path_name(alloc, rows, path)?;
            Ok(Some(name))
        }
    }
}

/// The full names of all types, by row from 0.
pub fn full_names(alloc: Global, rows: &Rows<'_>) -> Result<Vec<Option<Name>>, AllocError>
    ensures names { IfOk result (λ v. v.items ≡ map (full_name rows.now) (rows_in rows.now TYPE_DEF)) }
    ensures short { IfOk result (λ v. length v.items < 2 ^ 32) }
{
    let outer = outer_rows(alloc, rows)?;
    let count = rows.count(TYPE_DEF);
    let mut names = Vec::new(alloc);
    for k in 0..count {
        names.push(full_name_of(alloc, rows, outer.as_slice(), k + 1)?)?;
    }
    Ok(names)
}

/// The name by which an ExportedType row is found, if no type is around it.
fn forwarder_name(alloc: Global, rows: &Rows<'_>, row: u32) -> Result<Option<Name>, AllocError>
    ensures { IfOk result (λ name. name ≡ forwarder_name rows.now row) }
{
    let implementation = rows.cell(EXPORTED_TYPE, row, 4);
    if implementation % 4 == 2 && implementation / 4 != 0 {
        return Ok(None);
    }
    let name = exported_name(alloc, rows, row)?;
    Ok(Some(name))
}

/// The names under which ExportedType rows without a type around them are found, by row from 0.
pub fn forwarder_names(alloc: Global, rows: &Rows<'_>) -> Result<Vec<Option<Name>>, AllocError>
    ensures names { IfOk result (λ v. v.items ≡ map (forwarder_name rows.now) (rows_in rows.now EXPORTED_TYPE)) }
    ensures short { IfOk result (λ v. length v.items < 2 ^ 32) }
{
    let count = rows.count(EXPORTED_TYPE);
    let mut names = Vec::new(alloc);
    for k in 0..count {
        names.push(forwarder_name(alloc, rows, k + 1)?)?;
    }
    Ok(names)
}
