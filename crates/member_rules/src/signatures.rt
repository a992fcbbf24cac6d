// The types in the signatures of rows (ECMA-335, II.23.2).
ghost use Rattle.std.specs.Prelude.{◌≡◌, ◌<◌, ◌^◌, [], length, IfOk};
ghost use Rattle.signature_rules.specs.BlobKinds.{kind_types};
ghost use Rattle.set_program.specs.Environment.{local_types, member_types, row_types};

use cil_base::tables::{
    FIELD, MEMBER_REF, METHOD_DEF, METHOD_SPEC, PROPERTY, STAND_ALONE_SIG, TYPE_SPEC,
};
use cil_base::{Fault, Place};
use cli_sigs::SigTys;
use set_rows::Rows;
use set_signatures::is_field_blob;
use signature_rules::{BlobKind, read_types};
use std::alloc::{AllocError, Global};

/// The place of a refusal that is not told.
const NOWHERE: Place = Place {
    assembly: 0,
    table: 0,
    row: 0,
};

/// The types in a blob of this grammar; none where it isn't in it.
fn kind_types(alloc: Global, kind: BlobKind, blob: &[u8]) -> Result<SigTys, AllocError>
    requires { length blob.now < 2 ^ 32 }
    ensures { IfOk result (λ tys. tys ≡ kind_types kind blob.now) }
{
    match read_types(alloc, kind, blob, NOWHERE) {
        Ok(tys) => Ok(tys),
        Err(Fault::Refused(_)) => Ok(SigTys::new(alloc)),
        Err(Fault::Memory(e)) => Err(e),
    }
}

/// Those of a field or a method that a MemberRef row names.
fn member_types(alloc: Global, blob: &[u8]) -> Result<SigTys, AllocError>
    requires { length blob.now < 2 ^ 32 }
    ensures { IfOk result (λ tys. tys ≡ member_types blob.now) }
{
    if is_field_blob(blob) {
        return kind_types(alloc, BlobKind::Field, blob);
    }
    kind_types(alloc, BlobKind::Method, blob)
}

/// Those of local variables; none in another signature that stands alone.
fn local_types(alloc: Global, blob: &[u8]) -> Result<SigTys, AllocError>
    requires { length blob.now < 2 ^ 32 }
    ensures { IfOk result (λ tys. tys ≡ local_types blob.now) }
{
    match blob {
        [0x07, ..] => kind_types(alloc, BlobKind::Locals, blob),
        _ => Ok(SigTys::new(alloc)),
    }
}

/// The types in the signature of a row; none where its table has no signatures, or its blob is in no
/// grammar.
pub fn row_types(alloc: Global, rows: &Rows<'_>, table: u8, row: u32) -> Result<SigTys, AllocError>
    ensures { IfOk result (λ tys. tys ≡ row_types rows.now table row) }
{
    match table {
        FIELD => kind_types(alloc, BlobKind::Field, rows.blob(FIELD, row, 2)),
        METHOD_DEF => kind_types(alloc, BlobKind::Method, rows.blob(METHOD_DEF, row, 4)),
        MEMBER_REF => member_types(alloc, rows.blob(MEMBER_REF, row, 2)),
        STAND_ALONE_SIG => local_types(alloc, rows.blob(STAND_ALONE_SIG, row, 0)),
        PROPERTY => kind_types(alloc, BlobKind::Property, rows.blob(PROPERTY, row, 2)),
        TYPE_SPEC => kind_types(alloc, BlobKind::TypeSpec, rows.blob(TYPE_SPEC, row, 0)),
        METHOD_SPEC => kind_types(alloc, BlobKind::MethodSpec, rows.blob(METHOD_SPEC, row, 1)),
        _ => Ok(SigTys::new(alloc)),
    }
}
