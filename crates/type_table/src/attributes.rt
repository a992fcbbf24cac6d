// The types of attributes (ECMA-335, II.22.10).
ghost use Rattle.std.specs.Prelude.{◌≡◌, ◌<◌, ◌^◌, length, map, IfOk};
ghost use Rattle.std.specs.Option.{option_copied};
ghost use Rattle.cli_sigs.specs.declared.types.SigTy.{out-SigTy};
ghost use Rattle.set_rows.specs.Sets.{assembly_at, rows_in};
ghost use Rattle.set_rows.specs.Owners.{AreOwners, row_in};
ghost use Rattle.set_signatures.specs.Blobs.{spec_sig};
ghost use Rattle.set_program.specs.References.{reference};
ghost use Rattle.set_program.specs.Attributes.{named_id, name_of, defined, parent_coded, attribute_name};
ghost use Rattle.type_table.specs.Names.{AreReferences, reference_in, id_name};

use cil_base::tables::{CUSTOM_ATTRIBUTE, MEMBER_REF, METHOD_DEF, TYPE_SPEC};
use cil_base::{Fault, Name, Place};
use cli_sigs::{SigTy, read_type_spec};
use set_program::{Part, TypeId};
use set_rows::owners;
use std::alloc::{AllocError, Global};

/// The place of a refusal that is not told.
const NOWHERE: Place = Place {
    assembly: 0,
    table: 0,
    row: 0,
};

/// The full name of a type.
fn id_name<'a>(set: &'a [Part<'_>], id: &'a TypeId) -> Option<&'a [u8]>
    ensures { option_copied result ≡ id_name set.now id.now }
{
    match id {
        TypeId::Outside(name) => Some(name.as_slice()),
        TypeId::Row { assembly, row } => {
            if *assembly as usize >= set.len() {
                return None;
            }
            set[*assembly as usize].full_name(*row)
        }
    }
}

/// What a TypeRef row names.
fn reference_in(references: &[Option<TypeId>], row: u32) -> Option<&TypeId>
    ensures { option_copied result ≡ reference_in references.now row }
{
    if row == 0 || row as usize > references.len() {
        return None;
    }
    match &references[row as usize - 1] {
        Some(id) => Some(id),
        None => None,
    }
}

/// The full name of the type of a TypeDef or TypeRef index; `references` has what the assembly's
/// TypeRef rows name.
fn coded_name<'a>(
    set: &'a [Part<'_>],
    a: u32,
    references: &'a [Option<TypeId>],
    coded: u32,
) -> Option<&'a [u8]>
    requires there { a < length set.now }
    requires references { AreReferences set.now a references.now }
    ensures { option_copied result ≡ name_of set.now (named_id set.now a coded) }
{
    match coded % 4 {
        0 => set[a as usize].full_name(coded / 4),
        1 => match reference_in(references, coded / 4) {
            Some(id) => id_name(set, id),
            None => None,
        },
        _ => None,
    }
}

/// The signature in a TypeSpec row, where its blob is one's.
#[tactic(auto, unfolding(set_signatures::specs::Blobs::spec_sig))]
fn spec_sig(alloc: Global, bytes: &[u8]) -> Result<Option<SigTy>, AllocError>
    requires { length bytes.now < 2 ^ 32 }
    ensures { IfOk result (λ t. t ≡ spec_sig bytes.now) }
{
    match read_type_spec(alloc, bytes, NOWHERE) {
        Ok(ty) => Ok(Some(ty)),
        Err(Fault::Refused(_)) => Ok(None),
        Err(Fault::Memory(e)) => Err(e),
    }
}

/// The coded index of the type of a signature, where it is one or an instance of one.
fn defined(ty: &SigTy) -> Option<u32>
    ensures { result ≡ defined (out-SigTy ty.now) }
{
    match ty {
        SigTy::Named { value: _, coded } => Some(*coded),
        SigTy::Inst {
            value: _,
            coded,
            args: _,
        } => Some(*coded),
        _ => None,
    }
}

/// The TypeDefOrRef index that a MemberRefParent index leads to.
fn parent_coded(alloc: Global, part: &Part<'_>, parent: u32) -> Result<Option<u32>, AllocError>
    ensures { IfOk result (λ coded. coded ≡ parent_coded part.now parent) }
{
    if parent % 8 == 0 {
        return Ok(Some(parent / 8 * 4));
    }
    if parent % 8 == 1 {
        return Ok(Some(parent / 8 * 4 + 1));
    }
    if parent % 8 != 4 {
        return Ok(None);
    }
    match spec_sig(alloc, part.blob(TYPE_SPEC, parent / 8, 0))? {
        Some(ty) => Ok(defined(&ty)),
        None => Ok(None),
    }
}

/// The row of the type that owns a method, where `owners` has them by row from 0.
fn owner_at(owners: &[u32], row: u32) -> Option<u32>
    ensures { result ≡ row_in owners.now row }
{
    if row == 0 || row as usize > owners.len() || owners[row as usize - 1] == 0 {
        return None;
    }
    Some(owners[row as usize - 1])
}

/// An equal name of its own.
fn copied(alloc: Global, name: Option<&[u8]>) -> Result<Option<Name>, AllocError>
    ensures { IfOk result (λ n. n ≡ option_copied name.entry) }
{
    match name {
        Some(name) => Ok(Some(Name::from_slice(alloc, name)?)),
        None => Ok(None),
    }
}

/// The full name of the type of a CustomAttribute row.
#[tactic(auto, unfolding(set_program::specs::Attributes::attribute_name))]
fn attribute_name(
    alloc: Global,
    set: &[Part<'_>],
    a: u32,
    references: &[Option<TypeId>],
    method_owners: &[u32],
    row: u32,
) -> Result<Option<Name>, AllocError>
    requires there { a < length set.now }
    requires references { AreReferences set.now a references.now }
    requires owners { AreOwners (assembly_at set.now a) 5 METHOD_DEF method_owners.now }
    ensures { IfOk result (λ name. name ≡ attribute_name set.now a row) }
{
    let part = &set[a as usize];
    let ty = part.cell(CUSTOM_ATTRIBUTE, row, 1);
    if ty % 8 == 2 {
        return match owner_at(method_owners, ty / 8) {
            Some(owner) => copied(alloc, part.full_name(owner)),
            None => Ok(None),
        };
    }
    if ty % 8 != 3 {
        return Ok(None);
    }
    match parent_coded(alloc, part, part.cell(MEMBER_REF, ty / 8, 0))? {
        Some(coded) => copied(alloc, coded_name(set, a, references, coded)),
        None => Ok(None),
    }
}

/// The full names of the types of the CustomAttribute rows of an assembly, by row from 0;
/// `references` has what its TypeRef rows name.
pub fn attribute_names(
    alloc: Global,
    set: &[Part<'_>],
    a: u32,
    references: &[Option<TypeId>],
) -> Result<Vec<Option<Name>>, AllocError>
    requires there { a < length set.now }
    requires references { AreReferences set.now a references.now }
    ensures names { IfOk result (λ v. v.items ≡ map (attribute_name set.now a) (rows_in (assembly_at set.now a) CUSTOM_ATTRIBUTE)) }
    ensures short { IfOk result (λ v. length v.items < 2 ^ 32) }
{
    let part = &set[a as usize];
    let owners = owners(alloc, part.rows(), 5, METHOD_DEF)?;
    let count = part.count(CUSTOM_ATTRIBUTE);
    let mut names = Vec::new(alloc);
    for k in 0..count {
        names.push(attribute_name(alloc, set, a, references, owners.as_slice(), k + 1)?)?;
    }
    Ok(names)
}
