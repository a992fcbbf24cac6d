// What MemberRef rows name, as members by number (ECMA-335, II.22.25).
ghost use Rattle.std.specs.Prelude.{◌≡◌, ◌<◌, length, map, IfOk};
ghost use Rattle.cil_base.specs.declared.tables.TheConstants.{MEMBER_REF};
ghost use Rattle.cil_model.specs.declared.ty.Ty.TheVariants.{Opaque};
ghost use Rattle.set_rows.specs.Sets.{assembly_at, rows_in};
ghost use Rattle.set_types.specs.SignatureTypes.{ty_or};
ghost use Rattle.member_table.specs.declared.named.MemberId.TheVariants.{Row, Outside as OutsideId};
ghost use Rattle.member_table.specs.Members.{is_type, parent_index};
ghost use Rattle.descriptions.specs.Descriptions.{number_in, named_as, parent_ty, of_named, reference_at};

use cil_base::tables::MEMBER_REF;
use cil_model::Ty;
use descriptions::{NamedMember, type_at_index};
use member_numbers::MemberNumbers;
use member_table::{Found, Named};
use members::OutsideMember;
use set_tables::SetTables;
use std::alloc::{AllocError, Global};

fn is_type(parent: u32) -> bool
    ensures { result ≡ is_type parent }
{
    parent % 8 == 0 || parent % 8 == 1 || parent % 8 == 4
}

/// The index of a MemberRef row's parent among coded types.
fn parent_index(parent: u32) -> u32
    ensures { result ≡ parent_index parent }
{
    if parent % 8 == 4 {
        return parent / 8 * 4 + 2;
    }
    parent / 8 * 4 + parent % 8
}

/// The type of a MemberRef row's parent; None where that is a method, another module, or nothing.
fn parent_type(
    alloc: Global,
    tables: &SetTables<'_>,
    a: u32,
    parent: u32,
) -> Result<Option<Ty>, AllocError>
    requires { a < length tables.now }
    ensures { IfOk result (λ t. t ≡ parent_ty tables.now a parent) }
{
    if is_type(parent) {
        return type_at_index(alloc, tables.coded(a as usize), parent_index(parent));
    }
    Ok(None)
}

/// The number of a row of Field or MethodDef; 0 where there is no such row.
pub fn number_of_row(numbers: &MemberNumbers<'_>, is_field: bool, a: u32, row: u32) -> u32
    ensures { result ≡ number_in numbers.now is_field (Row a row) }
{
    numbers.row_number(is_field, a, row).unwrap_or(0)
}

fn number_of_outside(
    alloc: Global,
    numbers: &MemberNumbers<'_>,
    outside: &OutsideMember,
) -> Result<u32, AllocError>
    ensures { IfOk result (λ n. n ≡ number_in numbers.now outside.now.shape.is_field (OutsideId outside.now)) }
{
    let number = numbers.outside_number(alloc, outside.shape.is_field, outside)?;
    Ok(number.unwrap_or(0))
}

fn or_opaque(ty: Option<Ty>) -> Ty
    ensures { result ≡ ty_or Opaque ty }
{
    match ty {
        Some(ty) => ty,
        None => Ty::Opaque,
    }
}

/// A row of the set, in the type in which it was found.
fn of_row(numbers: &MemberNumbers<'_>, found: Found) -> NamedMember
    ensures { result ≡ named_as found.owner (number_in numbers.now found.is_field (Row found.assembly found.row)) }
{
    let number = number_of_row(numbers, found.is_field, found.assembly, found.row);
    NamedMember {
        owner: found.owner,
        number,
    }
}

/// A member as a program has it, where `ty` is the type of the reference.
fn of_named(
    alloc: Global,
    numbers: &MemberNumbers<'_>,
    ty: Option<Ty>,
    named: Named,
) -> Result<Option<NamedMember>, AllocError>
    ensures { IfOk result (λ m. m ≡ of_named numbers.now ty named) }
{
    match named {
        Named::InSet(found) => Ok(Some(of_row(numbers, found))),
        Named::Outside(outside) => {
            let number = number_of_outside(alloc, numbers, &outside)?;
            Ok(Some(NamedMember {
                owner: or_opaque(ty),
                number,
            }))
        }
        Named::Missing => Ok(None),
    }
}

/// What a MemberRef row names.
#[tactic(auto, unfolding(descriptions::specs::Descriptions::reference_at))]
fn reference_at(
    alloc: Global,
    tables: &SetTables<'_>,
    a: u32,
    row: u32,
) -> Result<Option<NamedMember>, AllocError>
    requires { a < length tables.now }
    ensures { IfOk result (λ m. m ≡ reference_at tables.now a row) }
{
    let part = &tables.set()[a as usize];
    if row == 0 || row > part.count(MEMBER_REF) {
        return Ok(None);
    }
    let ty = parent_type(alloc, tables, a, part.cell(MEMBER_REF, row, 0))?;
    let named = tables.member(alloc, a, row)?;
    of_named(alloc, tables.numbers(), ty, named)
}

/// What the MemberRef rows of an assembly name, by row from 0. One pass over them.
pub fn references(
    alloc: Global,
    tables: &SetTables<'_>,
    a: u32,
) -> Result<Vec<Option<NamedMember>>, AllocError>
    requires { a < length tables.now }
    ensures { IfOk result (λ v. v.items ≡ map (reference_at tables.now a) (rows_in (assembly_at tables.now a) MEMBER_REF)) }
{
    let count = tables.set()[a as usize].count(MEMBER_REF);
    let mut found = Vec::new(alloc);
    for k in 0..count {
        found.push(reference_at(alloc, tables, a, k + 1)?)?;
    }
    Ok(found)
}
