// What a MemberRef row names (ECMA-335, II.22.25).
ghost use Rattle.std.specs.Prelude.{◌≡◌, ◌*◌, IfOk};
ghost use Rattle.std.specs.Option.{option_copied};
ghost use Rattle.cil_model.specs.declared.ty.Ty.{out-Ty};
ghost use Rattle.set_types.specs.CodedTypes.{coded_of, named_row};
ghost use Rattle.member_table.specs.Environments.{environment_in};
ghost use Rattle.cil_semantics.specs.Lookups.{in_set};
ghost use Rattle.member_table.specs.Members.{parent_index, parent_type, outside_or_missing, found_or_missing, found_from, found_at, of_type, of_parent, of_method, of_reference, reference_shape, member_in};

use crate::bases::seen_within;
use crate::named::{Found, Named};
use crate::names::layer_name;
use crate::types::{coded_type, definition_of};
use cil_base::Name;
use cil_base::tables::MEMBER_REF;
use cil_model::Ty;
use members::{AssemblyMembers, OutsideMember, SetType, in_bases};
use set_signatures::{Shape, shape_of};
use set_types::CodedTypes;
use sqlite_items::at;
use std::alloc::{AllocError, Global};

/// The member of this name and signature, of an outside type.
fn outside_or_missing(
    alloc: Global,
    ty: Option<&Ty>,
    shape: Option<Shape>,
) -> Result<Named, AllocError>
    ensures { IfOk result (λ n. n ≡ outside_or_missing (option_copied ty.entry) shape) }
{
    let Some(shape) = shape else {
        return Ok(Named::Missing);
    };
    let owner = match ty {
        None => Name::from_slice(alloc, b"<Module>")?,
        Some(ty) => layer_name(alloc, ty)?,
    };
    Ok(Named::Outside(OutsideMember { owner, shape }))
}

/// The row of the type of a number, as `ty` and its bases have it.
fn found_at(
    alloc: Global,
    assemblies: &[AssemblyMembers<'_>],
    types: &[SetType],
    is_field: bool,
    ty: &Ty,
    k: u32,
    row: u32,
) -> Result<Option<Found>, AllocError>
    ensures { IfOk result (λ f. f ≡ found_at (environment_in assemblies.now types.now) is_field ty.now (k, row)) }
{
    let Some(of) = at(types, k as usize) else {
        return Ok(None);
    };
    match seen_within(alloc, assemblies, types, k, types.len(), ty)? {
        None => Ok(None),
        Some(owner) => Ok(Some(Found {
            owner,
            is_field,
            assembly: of.assembly,
            row,
        })),
    }
}

/// The member of a type of the set, or of its nearest base that has it.
fn found_from(
    alloc: Global,
    assemblies: &[AssemblyMembers<'_>],
    types: &[SetType],
    ty: &Ty,
    k: u32,
    shape: &Shape,
) -> Result<Named, AllocError>
    ensures { IfOk result (λ n. n ≡ found_or_missing (found_from (environment_in assemblies.now types.now) ty.now k shape.now)) }
{
    let Some((number, row)) = in_bases(alloc, assemblies, types, shape, k)? else {
        return Ok(Named::Missing);
    };
    match found_at(alloc, assemblies, types, shape.is_field, ty, number, row)? {
        None => Ok(Named::Missing),
        Some(found) => Ok(Named::InSet(found)),
    }
}

/// The member of this name and signature, of a type.
fn of_type(
    alloc: Global,
    assemblies: &[AssemblyMembers<'_>],
    types: &[SetType],
    shape: Option<Shape>,
    ty: &Ty,
) -> Result<Named, AllocError>
    ensures { IfOk result (λ n. n ≡ of_type (environment_in assemblies.now types.now) shape ty.now (in_set (out-Ty ty.now))) }
{
    let Some(k) = definition_of(ty) else {
        return outside_or_missing(alloc, Some(ty), shape);
    };
    match shape {
        None => Ok(Named::Missing),
        Some(shape) => found_from(alloc, assemblies, types, ty, k, &shape),
    }
}

/// The type of a TypeDef row.
fn definition_type(coded: &CodedTypes, row: u32) -> Option<&Ty>
    ensures { option_copied result ≡ named_row coded.now (row * 4) }
{
    if row == 0 {
        return None;
    }
    coded.defs.get(row as usize - 1)
}

/// The MethodDef row that a reference with further arguments names.
fn of_method(
    alloc: Global,
    a: u32,
    assembly: &AssemblyMembers<'_>,
    row: u32,
) -> Result<Named, AllocError>
    ensures { IfOk result (λ n. n ≡ of_method a assembly.now.rows (coded_of assembly.now.coded) row) }
{
    let Some(owner) = assembly.owner(false, row) else {
        return Ok(Named::Missing);
    };
    match definition_type(&assembly.coded, owner) {
        None => Ok(Named::Missing),
        Some(ty) => Ok(Named::InSet(Found {
            owner: ty.copied(alloc)?,
            is_field: false,
            assembly: a,
            row,
        })),
    }
}

fn parent_index(parent: u32) -> u32
    ensures { result ≡ parent_index parent }
{
    if parent % 8 == 4 {
        parent / 8 * 4 + 2
    } else {
        parent / 8 * 4 + parent % 8
    }
}

/// The type of a MemberRef row's parent; None where that is a method, another module, or nothing.
pub fn parent_type(
    alloc: Global,
    assembly: &AssemblyMembers<'_>,
    row: u32,
) -> Result<Option<Ty>, AllocError>
    ensures { IfOk result (λ t. t ≡ parent_type assembly.now.rows (coded_of assembly.now.coded) row) }
{
    let parent = assembly.rows.cell(MEMBER_REF, row, 0);
    match parent % 8 {
        0 | 1 | 4 => coded_type(alloc, &assembly.coded, parent_index(parent)),
        _ => Ok(None),
    }
}

fn reference_shape(
    alloc: Global,
    assembly: &AssemblyMembers<'_>,
    row: u32,
) -> Result<Option<Shape>, AllocError>
    ensures { IfOk result (λ x. x ≡ reference_shape assembly.now.rows (coded_of assembly.now.coded) row) }
{
    let name = assembly.rows.text(MEMBER_REF, row, 1);
    let bytes = assembly.rows.blob(MEMBER_REF, row, 2);
    shape_of(alloc, &assembly.coded, &[], name, bytes)
}

/// What a MemberRef row with a type, a module or nothing as its parent names.
fn of_parent(
    alloc: Global,
    assemblies: &[AssemblyMembers<'_>],
    types: &[SetType],
    assembly: &AssemblyMembers<'_>,
    row: u32,
) -> Result<Named, AllocError>
    ensures { IfOk result (λ n. n ≡ of_parent (environment_in assemblies.now types.now) (reference_shape assembly.now.rows (coded_of assembly.now.coded) row) (parent_type assembly.now.rows (coded_of assembly.now.coded) row)) }
{
    let shape = reference_shape(alloc, assembly, row)?;
    match parent_type(alloc, assembly, row)? {
        None => outside_or_missing(alloc, None, shape),
        Some(ty) => of_type(alloc, assemblies, types, shape, &ty),
    }
}

fn of_reference(
    alloc: Global,
    assemblies: &[AssemblyMembers<'_>],
    types: &[SetType],
    a: u32,
    assembly: &AssemblyMembers<'_>,
    row: u32,
) -> Result<Named, AllocError>
    ensures { IfOk result (λ n. n ≡ of_reference (environment_in assemblies.now types.now) a assembly.now.rows (coded_of assembly.now.coded) row) }
{
    let parent = assembly.rows.cell(MEMBER_REF, row, 0);
    if parent % 8 == 3 {
        return of_method(alloc, a, assembly, parent / 8);
    }
    of_parent(alloc, assemblies, types, assembly, row)
}

/// What a MemberRef row names, where the assemblies and the types are those of a set.
#[tactic(auto, unfolding(crate::specs::Members::member_in))]
pub fn member_in(
    alloc: Global,
    assemblies: &[AssemblyMembers<'_>],
    types: &[SetType],
    a: u32,
    row: u32,
) -> Result<Named, AllocError>
    ensures { IfOk result (λ n. n ≡ member_in (environment_in assemblies.now types.now) a row) }
{
    match at(assemblies, a as usize) {
        None => Ok(Named::Missing),
        Some(assembly) => of_reference(alloc, assemblies, types, a, assembly, row),
    }
}
