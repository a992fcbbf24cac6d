// The blobs of rows that hold signatures (ECMA-335, II.23.2), and whether they are in their grammars.
ghost use Rattle.std.specs.Prelude.{◌≡◌, ◌<◌, ◌^◌, ◌∷◌, [], length, IfOk, Ok, Err};
ghost use Rattle.cil_base.specs.declared.refusal.Fault.TheVariants.{Refused};
ghost use Rattle.cli_sigs.specs.declared.types.SigTy.{SigTy};
ghost use Rattle.cli_sigs.specs.declared.types.MethodSig.{MethodSig};
ghost use Rattle.cil_base.specs.Refusals.{OnRefused};
ghost use Rattle.signature_rules.specs.BlobKinds.{blob_kind, kind_types, IsBadBlob};
ghost use Rattle.set_types.specs.SignatureRules.{method_types};

use cil_base::tables::{
    FIELD, MEMBER_REF, METHOD_DEF, METHOD_SPEC, PROPERTY, STAND_ALONE_SIG, TYPE_SPEC,
};
use cil_base::{Fault, Place};
use cli_sigs::{
    MethodSig, SigTy, SigTys, read_field_sig, read_locals, read_method_sig, read_method_spec,
    read_property_sig, read_type_spec,
};
use set_signatures::is_field_blob;
use std::alloc::{AllocError, Global};

/// The grammar of a blob.
#[derive(Clone, Copy)]
pub enum BlobKind {
    Field,
    Method,
    Property,
    Locals,
    TypeSpec,
    MethodSpec,
}

/// The grammar in which the signature of a row is to be, by its table and its blob; None where no
/// signature is read there.
pub fn blob_kind(table: u8, blob: &[u8]) -> Option<BlobKind>
    ensures { result ≡ blob_kind table blob.now }
{
    match table {
        FIELD => Some(BlobKind::Field),
        METHOD_DEF => Some(BlobKind::Method),
        MEMBER_REF => {
            if is_field_blob(blob) {
                Some(BlobKind::Field)
            } else {
                Some(BlobKind::Method)
            }
        }
        STAND_ALONE_SIG => {
            match blob {
                [0x07, ..] => Some(BlobKind::Locals),
                _ => None,
            }
        }
        PROPERTY => Some(BlobKind::Property),
        TYPE_SPEC => Some(BlobKind::TypeSpec),
        METHOD_SPEC => Some(BlobKind::MethodSpec),
        _ => None,
    }
}

fn one_type(alloc: Global, ty: SigTy) -> Result<SigTys, AllocError>
    ensures { IfOk result (λ tys. tys ≡ ty ∷ []) }
{
    let mut tys = SigTys::new(alloc);
    tys.push(ty)?;
    Ok(tys)
}

/// What a method returns, and its parameters.
fn types_of_method(alloc: Global, sig: MethodSig) -> Result<SigTys, AllocError>
    ensures { IfOk result (λ tys. tys ≡ method_types sig) }
{
    let mut tys = one_type(alloc, sig.result)?;
    tys.append(sig.params)?;
    Ok(tys)
}

/// The type of a field or a TypeSpec row, and the refusal where there is none.
fn types_of_one(alloc: Global, read: Result<SigTy, Fault>) -> Result<SigTys, Fault>
    ensures found { IfOk result (λ tys. (t : SigTy) × (read ≡ Ok t) × (tys ≡ t ∷ [])) }
    ensures refused { OnRefused result (λ r. read ≡ Err (Refused r)) }
{
    Ok(one_type(alloc, read?)?)
}

fn types_of_signature(alloc: Global, read: Result<MethodSig, Fault>) -> Result<SigTys, Fault>
    ensures found { IfOk result (λ tys. (sig : MethodSig) × (read ≡ Ok sig) × (tys ≡ method_types sig)) }
    ensures refused { OnRefused result (λ r. read ≡ Err (Refused r)) }
{
    Ok(types_of_method(alloc, read?)?)
}

/// The types in a blob of this grammar; refused by S1 at the length of the longest prefix with which
/// some blob of the grammar begins, where it isn't in it.
pub fn read_types(alloc: Global, kind: BlobKind, blob: &[u8], place: Place) -> Result<SigTys, Fault>
    requires { length blob.now < 2 ^ 32 }
    ensures read { IfOk result (λ tys. tys ≡ kind_types kind blob.now) }
    ensures refused { OnRefused result (IsBadBlob kind place blob.now) }
{
    match kind {
        BlobKind::Field => types_of_one(alloc, read_field_sig(alloc, blob, place)),
        BlobKind::Method => types_of_signature(alloc, read_method_sig(alloc, blob, place)),
        BlobKind::Property => types_of_signature(alloc, read_property_sig(alloc, blob, place)),
        BlobKind::Locals => read_locals(alloc, blob, place),
        BlobKind::TypeSpec => types_of_one(alloc, read_type_spec(alloc, blob, place)),
        BlobKind::MethodSpec => read_method_spec(alloc, blob, place),
    }
}
