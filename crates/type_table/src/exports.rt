// What the ExportedType rows of an assembly name (ECMA-335, II.22.14).
ghost use Rattle.std.specs.Prelude.{◌≡◌, ◌<◌, ◌^◌, length, map, reverse, option_map, IfOk};
ghost use Rattle.set_rows.specs.Sets.{assembly_at, rows_in, count_in};
ghost use Rattle.set_names.specs.Paths.{path_within};
ghost use Rattle.set_program.specs.References.{exported_name};
ghost use Rattle.set_program.specs.TypeRules.{outer_export, by_implementation, from_outermost_export, exported};

use cil_base::Name;
use cil_base::tables::{ASSEMBLY_REF, EXPORTED_TYPE};
use set_program::{Part, TypeId, assembly_named, found_in, inside, joined};
use std::alloc::{AllocError, Global};

/// The name of an ExportedType row, without the types around it.
fn exported_name(alloc: Global, part: &Part<'_>, row: u32) -> Result<Name, AllocError>
    ensures { IfOk result (λ name. name ≡ exported_name part.now row) }
{
    joined(
        alloc,
        part.text(EXPORTED_TYPE, row, 3),
        part.text(EXPORTED_TYPE, row, 2),
    )
}

/// The ExportedType row that is the implementation of another.
#[tactic(auto, unfolding(set_program::specs::TypeRules::outer_export))]
fn outer_export(part: &Part<'_>, row: u32) -> Option<u32>
    ensures { result ≡ outer_export part.now row }
{
    let implementation = part.cell(EXPORTED_TYPE, row, 4);
    if implementation % 4 != 2 || implementation / 4 == 0 {
        return None;
    }
    Some(implementation / 4)
}

/// The ExportedType rows from this one outwards, or None where they lead into a circle.
fn export_path(alloc: Global, part: &Part<'_>, row: u32) -> Result<Option<Vec<u32>>, AllocError>
    ensures { IfOk result (λ path. option_map (λ rows. rows.items) path ≡ path_within (outer_export part.now) (count_in part.now EXPORTED_TYPE) row) }
{
    let most = part.count(EXPORTED_TYPE);
    let mut path = Vec::new(alloc);
    let mut at = row;
    for _k in 0..most {
        path.push(at)?;
        match outer_export(part, at) {
            None => return Ok(Some(path)),
            Some(outer) => at = outer,
        }
    }
    Ok(None)
}

/// The type of a name by an Implementation.
fn by_implementation(
    alloc: Global,
    set: &[Part<'_>],
    part: &Part<'_>,
    name: &[u8],
    implementation: u32,
) -> Result<Option<TypeId>, AllocError>
    requires { length set.now < 2 ^ 32 }
    ensures { IfOk result (λ id. id ≡ by_implementation set.now part.now name.now implementation) }
{
    if implementation % 4 == 1 {
        return match assembly_named(set, part.text(ASSEMBLY_REF, implementation / 4, 6)) {
            Some(named) => found_in(alloc, set, name, named),
            None => Ok(Some(TypeId::Outside(Name::from_slice(alloc, name)?))),
        };
    }
    Ok(Some(TypeId::Outside(Name::from_slice(alloc, name)?)))
}

/// The type that the rows of a path name, from the outermost at its end.
fn from_outermost(
    alloc: Global,
    set: &[Part<'_>],
    part: &Part<'_>,
    path: Vec<u32>,
) -> Result<Option<TypeId>, AllocError>
    requires { length set.now < 2 ^ 32 }
    ensures { IfOk result (λ id. id ≡ from_outermost_export set.now part.now (reverse path.items)) }
{
    let mut rows = path;
    let Some(top) = rows.pop() else {
        return Ok(None);
    };
    let name = exported_name(alloc, part, top)?;
    let mut found = by_implementation(
        alloc,
        set,
        part,
        name.as_slice(),
        part.cell(EXPORTED_TYPE, top, 4),
    )?;
    while let Some(row) = rows.pop() {
        let Some(outer) = found else {
            return Ok(None);
        };
        let name = exported_name(alloc, part, row)?;
        found = inside(alloc, set, name.as_slice(), outer)?;
    }
    Ok(found)
}

/// The type that an ExportedType row names. None where implementations lead into a circle, or where
/// a type that should be in the set isn't there.
fn exported(alloc: Global, set: &[Part<'_>], a: u32, row: u32) -> Result<Option<TypeId>, AllocError>
    requires short { length set.now < 2 ^ 32 }
    requires there { a < length set.now }
    ensures { IfOk result (λ id. id ≡ exported set.now a row) }
{
    let part = &set[a as usize];
    match export_path(alloc, part, row)? {
        None => Ok(None),
        Some(path) => from_outermost(alloc, set, part, path),
    }
}

/// The types that the ExportedType rows of an assembly name, by row from 0; None where a row names
/// none.
pub fn exported_rows(
    alloc: Global,
    set: &[Part<'_>],
    a: u32,
) -> Result<Vec<Option<TypeId>>, AllocError>
    requires short { length set.now < 2 ^ 32 }
    requires there { a < length set.now }
    ensures { IfOk result (λ v. v.items ≡ map (exported set.now a) (rows_in (assembly_at set.now a) EXPORTED_TYPE)) }
{
    let count = set[a as usize].count(EXPORTED_TYPE);
    let mut ids = Vec::new(alloc);
    for k in 0..count {
        ids.push(exported(alloc, set, a, k + 1)?)?;
    }
    Ok(ids)
}
