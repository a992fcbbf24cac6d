// Whether a blob is in its grammar, and where it leaves it.
ghost use Rattle.std.specs.Prelude.{◌≡◌, ◌<◌, ◌^◌, length, IfOk, Some};
ghost use Rattle.set_blobs.specs.declared.forms.BlobForm.TheVariants.{Signature};
ghost use Rattle.set_blobs.specs.Readings.{IsRefusalOf, TellsBad};

use crate::forms::BlobForm;
use cil_base::{Fault, Place, Refusal};
use cli_sigs::{
    read_bare_attribute, read_field_sig, read_locals, read_method_sig, read_method_spec,
    read_property_sig, read_type_attribute, read_type_spec,
};
use signature_rules::BlobKind;
use std::alloc::{AllocError, Global};

/// The refusal of a reader.
fn refusal_of<T: Drop>(read: Result<T, Fault>) -> Result<Option<Refusal>, AllocError>
    ensures { IfOk result (λ o. IsRefusalOf read o) }
{
    match read {
        Ok(_) => Ok(None),
        Err(Fault::Refused(r)) => Ok(Some(r)),
        Err(Fault::Memory(e)) => Err(e),
    }
}

/// The refusal of a blob that is in no grammar of this kind.
fn signature_fault(
    alloc: Global,
    kind: BlobKind,
    blob: &[u8],
    place: Place,
) -> Result<Option<Refusal>, AllocError>
    requires { length blob.now < 2 ^ 32 }
    ensures { IfOk result (λ o. TellsBad (Some (Signature kind)) place blob.now o) }
{
    match kind {
        BlobKind::Field => refusal_of(read_field_sig(alloc, blob, place)),
        BlobKind::Method => refusal_of(read_method_sig(alloc, blob, place)),
        BlobKind::Property => refusal_of(read_property_sig(alloc, blob, place)),
        BlobKind::Locals => refusal_of(read_locals(alloc, blob, place)),
        BlobKind::TypeSpec => refusal_of(read_type_spec(alloc, blob, place)),
        BlobKind::MethodSpec => refusal_of(read_method_spec(alloc, blob, place)),
    }
}

/// The refusal of a blob that is in no grammar of this form.
pub fn form_fault(
    alloc: Global,
    form: BlobForm,
    blob: &[u8],
    place: Place,
) -> Result<Option<Refusal>, AllocError>
    requires { length blob.now < 2 ^ 32 }
    ensures { IfOk result (λ o. TellsBad (Some form) place blob.now o) }
{
    match form {
        BlobForm::Signature(kind) => signature_fault(alloc, kind, blob, place),
        BlobForm::Text => refusal_of(read_type_attribute(alloc, blob, place)),
        BlobForm::Bare => refusal_of(read_bare_attribute(blob, place)),
    }
}
