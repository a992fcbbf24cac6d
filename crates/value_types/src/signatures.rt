// The coded types behind VALUETYPE in the signatures of one row (ECMA-335, II.23.1.16, II.23.2).
ghost use Rattle.std.specs.Prelude.{◌≡◌, ◌<◌, ◌^◌, ◌++◌, flat_map, length, IfOk, OnOk};
ghost use Rattle.set_types.specs.SignatureRules.{values_within};
ghost use Rattle.signature_rules.specs.BlobKinds.{blob_kind, kind_types};
ghost use Rattle.value_types.specs.CodedValues.{types_by, row_values};

use cil_base::{Fault, Place, U32s};
use cli_sigs::{SigTy, SigTys};
use set_rows::Rows;
use signature_rules::{BlobKind, blob_kind, push_values, read_types};
use std::alloc::{AllocError, Global};

/// The place of a refusal that is not told.
const NOWHERE: Place = Place {
    assembly: 0,
    table: 0,
    row: 0,
};

/// The types in a blob of this grammar; none where it isn't in it.
fn kind_types(alloc: Global, kind: BlobKind, blob: &[u8]) -> Result<SigTys, AllocError>
    requires { length blob.now < 2 ^ 32 }
    ensures { IfOk result (λ tys. tys ≡ kind_types kind blob.now) }
{
    match read_types(alloc, kind, blob, NOWHERE) {
        Ok(tys) => Ok(tys),
        Err(Fault::Refused(_)) => Ok(SigTys::new(alloc)),
        Err(Fault::Memory(e)) => Err(e),
    }
}

/// The types in the signature of a row of a table.
fn blob_types(alloc: Global, table: u8, blob: &[u8]) -> Result<SigTys, AllocError>
    requires { length blob.now < 2 ^ 32 }
    ensures { IfOk result (λ tys. tys ≡ types_by (blob_kind table blob.now) blob.now) }
{
    match blob_kind(table, blob) {
        None => Ok(SigTys::new(alloc)),
        Some(kind) => kind_types(alloc, kind, blob),
    }
}

fn push_types(tys: &[SigTy], out: &mut U32s) -> Result<(), AllocError>
    ensures { OnOk result (out.new ≡ out.old ++ flat_map (values_within 1000) tys.now) }
{
    for ty in tys {
        push_values(1000, ty, out)?;
    }
    Ok(())
}

/// Appends the coded types behind VALUETYPE in the signature of a row, whose blob stands in this
/// column.
pub fn push_row(
    alloc: Global,
    rows: &Rows<'_>,
    table: u8,
    column: u8,
    row: u32,
    out: &mut U32s,
) -> Result<(), AllocError>
    ensures { OnOk result (out.new ≡ out.old ++ row_values rows.now table column row) }
{
    let tys = blob_types(alloc, table, rows.blob(table, row, column))?;
    push_types(tys.as_slice(), out)
}
