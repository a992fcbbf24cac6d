// What tokens of an assembly mean (ECMA-335, II.22, II.24.2.6).
ghost use Rattle.std.specs.Prelude.{◌≡◌, ◌<◌, ◌^◌, length, option_map, IfOk};
ghost use Rattle.cil_model.specs.declared.program.Meaning.TheVariants.{OfType};
ghost use Rattle.set_types.specs.CodedTypes.{coded_of};
ghost use Rattle.descriptions.specs.Programs.{of_field, of_method, of_member, of_locals, tys_in};
ghost use Rattle.descriptions.specs.Facts.{number_of_row, member_of_row, reference_of_row, method_by, definition_by, instance_by, meaning_by};

use crate::coded::{type_of_definition, type_of_reference, type_of_spec};
use crate::facts::{MemberFacts, NamedMember};
use cil_base::tables::{
    FIELD, MEMBER_REF, METHOD_DEF, METHOD_SPEC, STAND_ALONE_SIG, TYPE_DEF, TYPE_REF, TYPE_SPEC,
};
use cil_model::{Meaning, Ty, Tys};
use cli_sigs::SigTys;
use row_descriptions::{instance_types, local_types, owner_at};
use set_rows::Rows;
use set_signatures::{DEEPEST, is_field_blob};
use set_types::{CodedTypes, types_at};
use std::alloc::{AllocError, Global};

pub fn number_of_row(numbers: &[u32], row: u32) -> u32
    ensures { result ≡ number_of_row numbers.now row }
{
    let place = row.saturating_sub(1) as usize;
    if place < numbers.len() {
        numbers[place]
    } else {
        0
    }
}

/// A row of Field or MethodDef, by the lists of its table.
fn member_of_row(
    alloc: Global,
    coded: &CodedTypes,
    owners: &[u32],
    numbers: &[u32],
    row: u32,
) -> Result<Option<NamedMember>, AllocError>
    ensures { IfOk result (λ m. m ≡ member_of_row (coded_of coded.now) owners.now numbers.now row) }
{
    let Some(owner) = owner_at(owners, row) else {
        return Ok(None);
    };
    match type_of_definition(alloc, coded, owner)? {
        Some(owner) => Ok(Some(NamedMember {
            owner,
            number: number_of_row(numbers, row),
        })),
        None => Ok(None),
    }
}

/// What a MemberRef row names.
fn reference_of_row(
    alloc: Global,
    references: &[Option<NamedMember>],
    row: u32,
) -> Result<Option<NamedMember>, AllocError>
    ensures { IfOk result (λ m. m ≡ reference_of_row references.now row) }
{
    if row == 0 || row as usize > references.len() {
        return Ok(None);
    }
    match &references[row as usize - 1] {
        Some(named) => Ok(Some(NamedMember {
            owner: named.owner.copied(alloc)?,
            number: named.number,
        })),
        None => Ok(None),
    }
}

/// What a MethodDefOrRef index names.
pub fn method_by(
    alloc: Global,
    coded: &CodedTypes,
    facts: &MemberFacts,
    index: u32,
) -> Result<Option<NamedMember>, AllocError>
    ensures { IfOk result (λ m. m ≡ method_by (coded_of coded.now) facts.now index) }
{
    if index % 2 == 0 {
        let owners = facts.method_owners.as_slice();
        let numbers = facts.method_numbers.as_slice();
        return member_of_row(alloc, coded, owners, numbers, index / 2);
    }
    reference_of_row(alloc, facts.references.as_slice(), index / 2)
}

fn of_type(ty: Option<Ty>) -> Option<Meaning>
    ensures { result ≡ option_map OfType ty }
{
    match ty {
        Some(ty) => Some(Meaning::OfType(ty)),
        None => None,
    }
}

fn of_field(member: Option<NamedMember>) -> Option<Meaning>
    ensures { result ≡ of_field member }
{
    match member {
        Some(named) => Some(Meaning::OfField {
            owner: named.owner,
            field: named.number,
        }),
        None => None,
    }
}

fn of_method(args: Tys, member: Option<NamedMember>) -> Option<Meaning>
    ensures { result ≡ of_method args member }
{
    match member {
        Some(named) => Some(Meaning::OfMethod {
            owner: named.owner,
            method: named.number,
            args,
        }),
        None => None,
    }
}

fn of_member(alloc: Global, is_field: bool, member: Option<NamedMember>) -> Option<Meaning>
    ensures { result ≡ of_member is_field member }
{
    if is_field {
        return of_field(member);
    }
    of_method(Tys::new(alloc), member)
}

/// Types in a signature as a program has them; none where there is no signature.
fn tys_in(alloc: Global, coded: &CodedTypes, tys: Option<SigTys>) -> Result<Tys, AllocError>
    ensures { IfOk result (λ ts. ts ≡ tys_in (coded_of coded.now) tys) }
{
    match tys {
        Some(tys) => types_at(alloc, coded, DEEPEST, tys.as_slice()),
        None => Ok(Tys::new(alloc)),
    }
}

fn of_locals(alloc: Global, coded: &CodedTypes, blob: &[u8]) -> Result<Option<Meaning>, AllocError>
    requires { length blob.now < 2 ^ 32 }
    ensures { IfOk result (λ m. m ≡ of_locals (coded_of coded.now) blob.now) }
{
    match blob {
        [0x07, ..] => {
            let tys = local_types(alloc, blob)?;
            Ok(Some(Meaning::OfLocals(tys_in(alloc, coded, tys)?)))
        }
        _ => Ok(None),
    }
}

/// What a MethodSpec row names.
fn of_instance(
    alloc: Global,
    rows: &Rows<'_>,
    coded: &CodedTypes,
    facts: &MemberFacts,
    row: u32,
) -> Result<Option<Meaning>, AllocError>
    ensures { IfOk result (λ m. m ≡ instance_by rows.now (coded_of coded.now) facts.now row) }
{
    let tys = instance_types(alloc, rows.blob(METHOD_SPEC, row, 1))?;
    let args = tys_in(alloc, coded, tys)?;
    let member = method_by(alloc, coded, facts, rows.cell(METHOD_SPEC, row, 0))?;
    Ok(of_method(args, member))
}

/// What a row of Field or MethodDef means as a token.
fn of_definition(
    alloc: Global,
    coded: &CodedTypes,
    facts: &MemberFacts,
    is_field: bool,
    row: u32,
) -> Result<Option<Meaning>, AllocError>
    ensures { IfOk result (λ m. m ≡ definition_by (coded_of coded.now) facts.now is_field row) }
{
    if is_field {
        let owners = facts.field_owners.as_slice();
        let numbers = facts.field_numbers.as_slice();
        return Ok(of_field(member_of_row(alloc, coded, owners, numbers, row)?));
    }
    let owners = facts.method_owners.as_slice();
    let numbers = facts.method_numbers.as_slice();
    let member = member_of_row(alloc, coded, owners, numbers, row)?;
    Ok(of_method(Tys::new(alloc), member))
}

/// What a token means, by table and row; None where it means nothing.
#[tactic(auto, unfolding(crate::specs::Facts::meaning_by))]
pub fn meaning_by(
    alloc: Global,
    rows: &Rows<'_>,
    coded: &CodedTypes,
    facts: &MemberFacts,
    table: u8,
    row: u32,
) -> Result<Option<Meaning>, AllocError>
    ensures { IfOk result (λ m. m ≡ meaning_by rows.now (coded_of coded.now) facts.now table row) }
{
    match table {
        TYPE_REF => Ok(of_type(type_of_reference(alloc, coded, row)?)),
        TYPE_DEF => Ok(of_type(type_of_definition(alloc, coded, row)?)),
        FIELD => of_definition(alloc, coded, facts, true, row),
        METHOD_DEF => of_definition(alloc, coded, facts, false, row),
        MEMBER_REF => {
            let is_field = is_field_blob(rows.blob(MEMBER_REF, row, 2));
            let named = reference_of_row(alloc, facts.references.as_slice(), row)?;
            Ok(of_member(alloc, is_field, named))
        }
        STAND_ALONE_SIG => of_locals(alloc, coded, rows.blob(STAND_ALONE_SIG, row, 0)),
        TYPE_SPEC => Ok(of_type(type_of_spec(alloc, coded, row)?)),
        METHOD_SPEC => of_instance(alloc, rows, coded, facts, row),
        _ => Ok(None),
    }
}
