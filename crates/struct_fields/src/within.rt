// From a struct to the structs of its instance fields (ECMA-335, II.10.3, II.22.15, II.22.37).
ghost use Rattle.std.specs.Prelude.{◌≡◌, ◌++◌, ◌+◌, ◌-◌, ◌<◌, ◌^◌, min, length, map, IfOk, OnOk};
ghost use Rattle.std.specs.List.{flat_map, range_with_len};
ghost use Rattle.cil_base.specs.declared.tables.TheConstants.{FIELD};
ghost use Rattle.set_rows.specs.Sets.{count_in};
ghost use Rattle.set_rows.specs.Owners.{owned_end};
ghost use Rattle.set_types.specs.CodedTypes.{coded_of};
ghost use Rattle.set_program.specs.Environment.{types_of};
ghost use Rattle.set_program.specs.TypeRules.{within};
ghost use Rattle.member_table.specs.Environments.{AreOf};
ghost use Rattle.struct_fields.specs.StructFields.{blob_structs, field_row_structs, within_row, within_type, within_at};

use cil_base::U32s;
use cil_base::tables::{FIELD, TYPE_DEF};
use member_table::MemberTable;
use members::{AssemblyMembers, SetType};
use row_descriptions::field_type;
use set_rows::Rows;
use set_signatures::DEEPEST;
use set_types::{CodedTypes, type_at};
use sqlite_items::at;
use std::alloc::{AllocError, Global};
use type_circles::{Structs, push_structs};

/// One past the place of the last Field row that a TypeDef row owns.
fn fields_end(rows: &Rows<'_>, row: u32) -> u32
    ensures { result ≡ min (owned_end rows.now 4 FIELD row - 1) (count_in rows.now FIELD) }
{
    let count = rows.count(FIELD);
    if row < rows.count(TYPE_DEF) {
        return rows.cell(TYPE_DEF, row + 1, 4).saturating_sub(1).min(count);
    }
    count
}

/// Appends the structs that a field's signature names; none where the blob is no signature.
fn push_blob(
    alloc: Global,
    structs: &Structs<'_>,
    out: &mut U32s,
    coded: &CodedTypes,
    blob: &[u8],
) -> Result<(), AllocError>
    requires { length blob.now < 2 ^ 32 }
    ensures { OnOk result (out.new ≡ out.old ++ blob_structs structs.now (coded_of coded.now) blob.now) }
{
    match field_type(alloc, blob)? {
        None => Ok(()),
        Some(sig) => {
            let ty = type_at(alloc, coded, DEEPEST, &sig)?;
            push_structs(structs, out, &ty)
        }
    }
}

/// Those of a field, if it isn't static.
fn push_field(
    alloc: Global,
    structs: &Structs<'_>,
    out: &mut U32s,
    rows: &Rows<'_>,
    coded: &CodedTypes,
    row: u32,
) -> Result<(), AllocError>
    ensures { OnOk result (out.new ≡ out.old ++ field_row_structs structs.now rows.now (coded_of coded.now) row) }
{
    if rows.cell(FIELD, row, 0) / 0x10 % 2 == 1 {
        return Ok(());
    }
    push_blob(alloc, structs, out, coded, rows.blob(FIELD, row, 2))
}

/// Those of the fields from one place up to another.
fn push_fields(
    alloc: Global,
    structs: &Structs<'_>,
    out: &mut U32s,
    rows: &Rows<'_>,
    coded: &CodedTypes,
    from: u32,
    to: u32,
) -> Result<(), AllocError>
    ensures { OnOk result (out.new ≡ out.old ++ flat_map (field_row_structs structs.now rows.now (coded_of coded.now)) (range_with_len (from + 1) (to - from))) }
{
    for k in from..to {
        push_field(alloc, structs, out, rows, coded, k + 1)?;
    }
    Ok(())
}

/// The structs in the instance fields of a TypeDef row.
fn within_row(
    alloc: Global,
    structs: &Structs<'_>,
    rows: &Rows<'_>,
    coded: &CodedTypes,
    row: u32,
) -> Result<U32s, AllocError>
    ensures { IfOk result (λ l. l ≡ within_row structs.now rows.now (coded_of coded.now) row) }
{
    let from = rows.cell(TYPE_DEF, row, 4).saturating_sub(1);
    let to = fields_end(rows, row);
    let mut out = U32s::new(alloc);
    push_fields(alloc, structs, &mut out, rows, coded, from, to)?;
    Ok(out)
}

fn within_type(
    alloc: Global,
    structs: &Structs<'_>,
    assemblies: &[AssemblyMembers<'_>],
    of: &SetType,
) -> Result<U32s, AllocError>
    ensures { IfOk result (λ l. l ≡ within_type structs.now assemblies.now of.now) }
{
    match at(assemblies, of.assembly as usize) {
        None => Ok(U32s::new(alloc)),
        Some(assembly) => within_row(alloc, structs, &assembly.rows, &assembly.coded, of.row),
    }
}

/// Those of a type by its number; none where it isn't a struct.
fn within_number(
    alloc: Global,
    structs: &Structs<'_>,
    assemblies: &[AssemblyMembers<'_>],
    types: &[SetType],
    k: u32,
) -> Result<U32s, AllocError>
    ensures { IfOk result (λ l. l ≡ within_at structs.now assemblies.now types.now k) }
{
    match at(types, k as usize) {
        None => Ok(U32s::new(alloc)),
        Some(of) => {
            if !structs.is(k) {
                return Ok(U32s::new(alloc));
            }
            within_type(alloc, structs, assemblies, of)
        }
    }
}

fn within_each(
    alloc: Global,
    structs: &Structs<'_>,
    assemblies: &[AssemblyMembers<'_>],
    types: &[SetType],
) -> Result<Vec<U32s>, AllocError>
    requires { length types.now < 2 ^ 32 }
    ensures { IfOk result (λ v. v.items ≡ map (within_at structs.now assemblies.now types.now) (range_with_len 0 (length types.now))) }
{
    let mut lists = Vec::new(alloc);
    for k in 0..types.len() {
        lists.push(within_number(alloc, structs, assemblies, types, k as u32)?)?;
    }
    Ok(lists)
}

/// To which structs each struct leads by its instance fields, where these are the assemblies, the
/// types and the structs of a set. Each struct's own fields are gone over once.
pub fn within_lists(
    alloc: Global,
    table: &MemberTable<'_>,
    structs: &Structs<'_>,
) -> Result<Vec<U32s>, AllocError>
    requires few { length (types_of structs.now) < 2 ^ 32 }
    requires table { AreOf structs.now table.now.assemblies.items table.now.types.items }
    ensures { IfOk result (λ v. v.items ≡ map (within structs.now) (range_with_len 0 (length (types_of structs.now)))) }
{
    let lists = within_each(
        alloc,
        structs,
        table.assemblies.as_slice(),
        table.types.as_slice(),
    )?;
    Ok(lists)
}
