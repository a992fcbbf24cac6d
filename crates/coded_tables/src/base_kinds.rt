// The kinds of an assembly's types (ECMA-335, II.10.1).
ghost use Rattle.std.specs.Prelude.{◌≡◌, ℕ, map, option_map, IfOk};
ghost use Rattle.cil_base.specs.declared.tables.TheConstants.{TYPE_DEF};
ghost use Rattle.cil_model.specs.declared.ty.Ty.{out-Ty};
ghost use Rattle.set_rows.specs.Sets.{Assemblies, assembly_at, cell, rows_in};
ghost use Rattle.set_types.specs.CodedTypes.{coded_of, named_row};
ghost use Rattle.set_types.specs.SignatureTypes.{ty_of};
ghost use Rattle.set_program.specs.Environment.{coded_in};
ghost use Rattle.set_program.specs.Kinds.{kind_at, kind_by_base, kind_by_layer, kind_by_name};
ghost use Rattle.coded_tables.specs.RowKinds.{base_of, row_kind};

use cil_base::tables::TYPE_DEF;
use cil_model::{Kind, Ty};
use set_rows::Rows;
use set_types::{CodedTypes, type_at};
use std::alloc::{AllocError, Global};

/// How deep a type nests at most, TypeSpec rows included.
const DEEPEST: u32 = 1000;

fn kind_by_name(name: &[u8]) -> Kind
    ensures { result ≡ kind_by_name name.now }
{
    if name == b"System.ValueType".as_slice() {
        return Kind::Struct;
    }
    if name == b"System.Enum".as_slice() {
        return Kind::Enumeration;
    }
    if name == b"System.MulticastDelegate".as_slice() || name == b"System.Delegate".as_slice() {
        return Kind::Delegate;
    }
    Kind::Class
}

/// The kind of a type whose base is this one.
fn kind_by_type(base: &Ty) -> Kind
    ensures { result ≡ kind_by_layer (out-Ty base.now) }
{
    match base {
        Ty::Outside { name, value: _ } => kind_by_name(name.as_slice()),
        _ => Kind::Class,
    }
}

fn kind_by_named(coded: &CodedTypes, index: u32) -> Kind
    ensures { result ≡ kind_by_base (named_row coded.now index) }
{
    match coded.named(index) {
        Some(base) => kind_by_type(base),
        None => Kind::Class,
    }
}

fn kind_by_spec(alloc: Global, coded: &CodedTypes, row: u32) -> Result<Kind, AllocError>
    ensures { IfOk result (λ kind. kind ≡ kind_by_base (option_map (ty_of (coded_of coded.now)) ((coded_of coded.now).spec row))) }
{
    match coded.spec(row) {
        None => Ok(Kind::Class),
        Some(base) => {
            let base = type_at(alloc, coded, DEEPEST, base)?;
            Ok(kind_by_type(&base))
        }
    }
}

/// The kind of a type by the TypeDefOrRef index of its base.
fn kind_by_base(alloc: Global, coded: &CodedTypes, index: u32) -> Result<Kind, AllocError>
    ensures { IfOk result (λ kind. kind ≡ kind_by_base (base_of (coded_of coded.now) index)) }
{
    if index / 4 == 0 {
        return Ok(Kind::Class);
    }
    if index % 4 == 2 {
        return kind_by_spec(alloc, coded, index / 4);
    }
    Ok(kind_by_named(coded, index))
}

fn row_kind(
    alloc: Global,
    coded: &CodedTypes,
    rows: &Rows<'_>,
    row: u32,
) -> Result<Kind, AllocError>
    ensures { IfOk result (λ kind. kind ≡ row_kind rows.now (coded_of coded.now) row) }
{
    if rows.cell(TYPE_DEF, row, 0) / 0x20 % 2 == 1 {
        return Ok(Kind::Interface);
    }
    kind_by_base(alloc, coded, rows.cell(TYPE_DEF, row, 3))
}

fn row_kinds(alloc: Global, coded: &CodedTypes, rows: &Rows<'_>) -> Result<Vec<Kind>, AllocError>
    ensures { IfOk result (λ v. v.items ≡ map (row_kind rows.now (coded_of coded.now)) (rows_in rows.now TYPE_DEF)) }
{
    let count = rows.count(TYPE_DEF);
    let mut kinds = Vec::new(alloc);
    for k in 0..count {
        kinds.push(row_kind(alloc, coded, rows, k + 1)?)?;
    }
    Ok(kinds)
}

/// The kinds of an assembly's types, by row from 0.
pub fn kinds(alloc: Global, coded: &CodedTypes, rows: &Rows<'_>) -> Result<Vec<Kind>, AllocError>
    ensures { IfOk result (λ v. (s : Assemblies) → (a : ℕ) → rows.now ≡ assembly_at s a → coded_of coded.now ≡ coded_in s a → v.items ≡ map (kind_at s a) (rows_in rows.now TYPE_DEF)) }
{
    row_kinds(alloc, coded, rows)
}
