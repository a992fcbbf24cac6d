// Fields as their rows say (ECMA-335, II.22.15).
ghost use Rattle.std.specs.Prelude.{◌≡◌, ◌<◌, ◌-◌, ◌^◌, ◌++◌, length, map, IfOk, OnOk};
ghost use Rattle.std.specs.List.{range_with_len};
ghost use Rattle.set_rows.specs.Owners.{AreOwners};
ghost use Rattle.set_types.specs.CodedTypes.{coded_of};
ghost use Rattle.row_descriptions.specs.RowDescriptions.{field_ty, field_row};

use crate::owners::owner_number;
use crate::signatures::field_type;
use cil_base::Name;
use cil_base::tables::FIELD;
use cil_model::{FieldDesc, FieldDescs, Ty};
use set_rows::Rows;
use set_signatures::DEEPEST;
use set_types::{CodedTypes, type_at};
use std::alloc::{AllocError, Global};

/// The type of a field by its signature; `Opaque` where the blob is none.
pub fn field_ty(alloc: Global, coded: &CodedTypes, blob: &[u8]) -> Result<Ty, AllocError>
    requires { length blob.now < 2 ^ 32 }
    ensures { IfOk result (λ t. t ≡ field_ty (coded_of coded.now) blob.now) }
{
    match field_type(alloc, blob)? {
        Some(ty) => type_at(alloc, coded, DEEPEST, &ty),
        None => Ok(Ty::Opaque),
    }
}

/// A field by its row; `owners` are those of Field rows.
#[tactic(auto, unfolding(crate::specs::RowDescriptions::field_row))]
pub fn field_row(
    alloc: Global,
    rows: &Rows<'_>,
    coded: &CodedTypes,
    owners: &[u32],
    row: u32,
) -> Result<FieldDesc, AllocError>
    requires { AreOwners rows.now 4 FIELD owners.now }
    ensures { IfOk result (λ d. d ≡ field_row rows.now (coded_of coded.now) row) }
{
    let flags = rows.cell(FIELD, row, 0);
    Ok(FieldDesc {
        owner: owner_number(coded, owners, row),
        name: Name::from_slice(alloc, rows.text(FIELD, row, 1))?,
        ty: field_ty(alloc, coded, rows.blob(FIELD, row, 2))?,
        is_static: flags / 0x10 % 2 == 1,
        flags: (flags % 0x10000) as u16,
    })
}

/// Appends the fields of the rows from one up to another.
pub fn push_fields(
    alloc: Global,
    out: &mut FieldDescs,
    rows: &Rows<'_>,
    coded: &CodedTypes,
    owners: &[u32],
    from: u32,
    to: u32,
) -> Result<(), AllocError>
    requires { AreOwners rows.now 4 FIELD owners.now }
    ensures { OnOk result (out.new ≡ out.old ++ map (field_row rows.now (coded_of coded.now)) (range_with_len from (to - from))) }
{
    for row in from..to {
        out.push(field_row(alloc, rows, coded, owners, row)?)?;
    }
    Ok(())
}
