// Signatures in blobs, as they are read (ECMA-335, II.23.2); none where a blob is in no grammar.
ghost use Rattle.std.specs.Prelude.{◌≡◌, ◌<◌, ◌^◌, length, IfOk};
ghost use Rattle.set_signatures.specs.Blobs.{field_sig, method_sig, local_sigs, instance_sigs};

use cil_base::{Fault, Place};
use cli_sigs::{
    MethodSig, SigTy, SigTys, read_field_sig, read_locals, read_method_sig, read_method_spec,
};
use std::alloc::{AllocError, Global};

/// The place of a refusal that is not told.
const NOWHERE: Place = Place {
    assembly: 0,
    table: 0,
    row: 0,
};

/// The type of a field.
#[tactic(auto, unfolding(set_signatures::specs::Blobs::field_sig))]
pub fn field_type(alloc: Global, blob: &[u8]) -> Result<Option<SigTy>, AllocError>
    requires { length blob.now < 2 ^ 32 }
    ensures { IfOk result (λ t. t ≡ field_sig blob.now) }
{
    match read_field_sig(alloc, blob, NOWHERE) {
        Ok(ty) => Ok(Some(ty)),
        Err(Fault::Refused(_)) => Ok(None),
        Err(Fault::Memory(e)) => Err(e),
    }
}

/// The signature of a method.
#[tactic(auto, unfolding(set_signatures::specs::Blobs::method_sig))]
pub fn method_signature(alloc: Global, blob: &[u8]) -> Result<Option<MethodSig>, AllocError>
    requires { length blob.now < 2 ^ 32 }
    ensures { IfOk result (λ sig. sig ≡ method_sig blob.now) }
{
    match read_method_sig(alloc, blob, NOWHERE) {
        Ok(sig) => Ok(Some(sig)),
        Err(Fault::Refused(_)) => Ok(None),
        Err(Fault::Memory(e)) => Err(e),
    }
}

/// The types of local variables.
#[tactic(auto, unfolding(set_signatures::specs::Blobs::local_sigs))]
pub fn local_types(alloc: Global, blob: &[u8]) -> Result<Option<SigTys>, AllocError>
    requires { length blob.now < 2 ^ 32 }
    ensures { IfOk result (λ ts. ts ≡ local_sigs blob.now) }
{
    match read_locals(alloc, blob, NOWHERE) {
        Ok(tys) => Ok(Some(tys)),
        Err(Fault::Refused(_)) => Ok(None),
        Err(Fault::Memory(e)) => Err(e),
    }
}

/// The type arguments of a method.
#[tactic(auto, unfolding(set_signatures::specs::Blobs::instance_sigs))]
pub fn instance_types(alloc: Global, blob: &[u8]) -> Result<Option<SigTys>, AllocError>
    requires { length blob.now < 2 ^ 32 }
    ensures { IfOk result (λ ts. ts ≡ instance_sigs blob.now) }
{
    match read_method_spec(alloc, blob, NOWHERE) {
        Ok(tys) => Ok(Some(tys)),
        Err(Fault::Refused(_)) => Ok(None),
        Err(Fault::Memory(e)) => Err(e),
    }
}
