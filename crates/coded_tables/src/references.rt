// What the TypeDef, TypeRef and TypeSpec rows of an assembly lead to, by row.
ghost use Rattle.std.specs.Prelude.{◌≡◌, ◌<◌, ◌^◌, ◌++◌, length, map, option_map, option_and_then, IfOk, OnOk};
ghost use Rattle.std.specs.List.{range_with_len};
ghost use Rattle.cil_base.specs.declared.tables.TheConstants.{TYPE_SPEC};
ghost use Rattle.set_rows.specs.Sets.{rows_in};
ghost use Rattle.set_signatures.specs.Blobs.{spec_sig};
ghost use Rattle.set_program.specs.Environment.{number_of, ty_by_id};
ghost use Rattle.value_types.specs.ValueNames.{value_names};
ghost use Rattle.coded_tables.specs.CodedAssemblies.{own_number, own_ty, row_spec};

use crate::types::{number_or_zero, type_by_id};
use cil_base::tables::TYPE_SPEC;
use cil_base::{Fault, Place, U32s};
use cil_model::{Ty, Tys};
use cli_sigs::{SigTy, read_type_spec};
use set_names::DistinctNames;
use set_program::TypeId;
use set_rows::Rows;
use std::alloc::{AllocError, Global};
use type_table::TypeTable;

/// The place of a refusal that is not told.
const NOWHERE: Place = Place {
    assembly: 0,
    table: 0,
    row: 0,
};

/// Appends the types of the first TypeDef rows of an assembly.
pub fn push_defs(table: &TypeTable<'_>, a: u32, count: u32, out: &mut Tys) -> Result<(), AllocError>
    ensures { OnOk result (out.new ≡ out.old ++ map (own_ty table.now a) (range_with_len 1 count)) }
{
    for k in 0..count {
        let number = number_or_zero(table.row_number(a, k + 1));
        out.push(Ty::Known(number))?;
    }
    Ok(())
}

/// Appends their numbers.
pub fn push_def_numbers(
    table: &TypeTable<'_>,
    a: u32,
    count: u32,
    out: &mut U32s,
) -> Result<(), AllocError>
    ensures { OnOk result (out.new ≡ out.old ++ map (own_number table.now a) (range_with_len 1 count)) }
{
    for k in 0..count {
        out.push(number_or_zero(table.row_number(a, k + 1)))?;
    }
    Ok(())
}

/// The type that a TypeRef row names.
fn type_at(
    alloc: Global,
    table: &TypeTable<'_>,
    values: &DistinctNames,
    reference: &Option<TypeId>,
) -> Result<Option<Ty>, AllocError>
    requires { values.now ≡ value_names table.now }
    ensures { IfOk result (λ t. t ≡ option_map (ty_by_id table.now) reference.now) }
{
    match reference {
        None => Ok(None),
        Some(id) => Ok(Some(type_by_id(alloc, table, values, id)?)),
    }
}

/// Appends the types that TypeRef rows name.
pub fn push_references(
    alloc: Global,
    table: &TypeTable<'_>,
    values: &DistinctNames,
    references: &[Option<TypeId>],
    out: &mut Vec<Option<Ty>>,
) -> Result<(), AllocError>
    requires { values.now ≡ value_names table.now }
    ensures { OnOk result (out.new.items ≡ out.old.items ++ map (option_map (ty_by_id table.now)) references.now) }
{
    for reference in references {
        out.push(type_at(alloc, table, values, reference)?)?;
    }
    Ok(())
}

/// The number of the type that a TypeRef row names.
fn number_at(table: &TypeTable<'_>, reference: &Option<TypeId>) -> Option<u32>
    ensures { result ≡ option_and_then (number_of table.now) reference.now }
{
    match reference {
        None => None,
        Some(id) => table.number(id),
    }
}

/// Appends the numbers of the types that TypeRef rows name.
pub fn push_numbers(
    table: &TypeTable<'_>,
    references: &[Option<TypeId>],
    out: &mut Vec<Option<u32>>,
) -> Result<(), AllocError>
    ensures { OnOk result (out.new.items ≡ out.old.items ++ map (option_and_then (number_of table.now)) references.now) }
{
    for reference in references {
        out.push(number_at(table, reference))?;
    }
    Ok(())
}

/// The signature in the blob of a TypeSpec row, where it is in its grammar.
#[tactic(auto, unfolding(set_signatures::specs::Blobs::spec_sig))]
fn spec_sig(alloc: Global, bytes: &[u8]) -> Result<Option<SigTy>, AllocError>
    requires { length bytes.now < 2 ^ 32 }
    ensures { IfOk result (λ t. t ≡ spec_sig bytes.now) }
{
    match read_type_spec(alloc, bytes, NOWHERE) {
        Ok(ty) => Ok(Some(ty)),
        Err(Fault::Refused(_)) => Ok(None),
        Err(Fault::Memory(e)) => Err(e),
    }
}

/// Appends the signatures of the TypeSpec rows.
pub fn push_specs(
    alloc: Global,
    rows: &Rows<'_>,
    out: &mut Vec<Option<SigTy>>,
) -> Result<(), AllocError>
    ensures { OnOk result (out.new.items ≡ out.old.items ++ map (row_spec rows.now) (rows_in rows.now TYPE_SPEC)) }
{
    let count = rows.count(TYPE_SPEC);
    for k in 0..count {
        out.push(spec_sig(alloc, rows.blob(TYPE_SPEC, k + 1, 0))?)?;
    }
    Ok(())
}
