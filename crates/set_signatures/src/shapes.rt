// What two members of a type are compared by (ECMA-335, II.22.15, II.22.26).
ghost use Rattle.std.specs.Prelude.{◌≡◌, ◌<◌, ◌^◌, length, option_and_then, IfOk};
ghost use Rattle.set_types.specs.CodedTypes.{coded_of};
ghost use Rattle.set_signatures.specs.Blobs.{is_field_blob, field_sig, method_sig};
ghost use Rattle.set_signatures.specs.Spelling.{spelled, spelled_method};
ghost use Rattle.set_signatures.specs.Shapes.{signature_numbers, shape_of};

use crate::shape::Shape;
use crate::spelling::{spell_method, spell_type};
use cil_base::{Fault, Name, Place, U32s};
use cli_sigs::{MethodSig, SigTy, read_field_sig, read_method_sig};
use set_types::CodedTypes;
use std::alloc::{AllocError, Global};

/// How deep a type nests at most, TypeSpec rows included.
pub const DEEPEST: u32 = 1000;

/// The place of a refusal that is not told.
const NOWHERE: Place = Place {
    assembly: 0,
    table: 0,
    row: 0,
};

/// The numbers of a type, with `args` for the parameters of the type around it; None where a coded
/// type names no row.
pub fn type_numbers(
    alloc: Global,
    coded: &CodedTypes,
    args: &[U32s],
    ty: &SigTy,
) -> Result<Option<U32s>, AllocError>
    ensures { IfOk result (λ numbers. numbers ≡ spelled (coded_of coded.now) args.now ty.now) }
{
    let mut out = U32s::new(alloc);
    if spell_type(coded, args, DEEPEST, ty, &mut out)? {
        return Ok(Some(out));
    }
    Ok(None)
}

fn method_numbers(
    alloc: Global,
    coded: &CodedTypes,
    args: &[U32s],
    sig: &MethodSig,
) -> Result<Option<U32s>, AllocError>
    ensures { IfOk result (λ numbers. numbers ≡ spelled_method (coded_of coded.now) args.now sig.now) }
{
    let mut out = U32s::new(alloc);
    if spell_method(coded, args, sig, &mut out)? {
        return Ok(Some(out));
    }
    Ok(None)
}

/// The type of a field, where the blob is one's.
#[tactic(auto, unfolding(crate::specs::Blobs::field_sig))]
fn field_type(alloc: Global, bytes: &[u8]) -> Result<Option<SigTy>, AllocError>
    requires { length bytes.now < 2 ^ 32 }
    ensures { IfOk result (λ t. t ≡ field_sig bytes.now) }
{
    match read_field_sig(alloc, bytes, NOWHERE) {
        Ok(ty) => Ok(Some(ty)),
        Err(Fault::Refused(_)) => Ok(None),
        Err(Fault::Memory(e)) => Err(e),
    }
}

/// The signature of a method, where the blob is one's.
#[tactic(auto, unfolding(crate::specs::Blobs::method_sig))]
fn method_signature(alloc: Global, bytes: &[u8]) -> Result<Option<MethodSig>, AllocError>
    requires { length bytes.now < 2 ^ 32 }
    ensures { IfOk result (λ sig. sig ≡ method_sig bytes.now) }
{
    match read_method_sig(alloc, bytes, NOWHERE) {
        Ok(sig) => Ok(Some(sig)),
        Err(Fault::Refused(_)) => Ok(None),
        Err(Fault::Memory(e)) => Err(e),
    }
}

fn field_numbers(
    alloc: Global,
    coded: &CodedTypes,
    args: &[U32s],
    bytes: &[u8],
) -> Result<Option<U32s>, AllocError>
    requires { length bytes.now < 2 ^ 32 }
    ensures { IfOk result (λ numbers. numbers ≡ option_and_then (spelled (coded_of coded.now) args.now) (field_sig bytes.now)) }
{
    match field_type(alloc, bytes)? {
        Some(ty) => type_numbers(alloc, coded, args, &ty),
        None => Ok(None),
    }
}

fn function_numbers(
    alloc: Global,
    coded: &CodedTypes,
    args: &[U32s],
    bytes: &[u8],
) -> Result<Option<U32s>, AllocError>
    requires { length bytes.now < 2 ^ 32 }
    ensures { IfOk result (λ numbers. numbers ≡ option_and_then (spelled_method (coded_of coded.now) args.now) (method_sig bytes.now)) }
{
    match method_signature(alloc, bytes)? {
        Some(sig) => method_numbers(alloc, coded, args, &sig),
        None => Ok(None),
    }
}

/// Whether a blob is a field's signature, and not a method's.
pub fn is_field_blob(bytes: &[u8]) -> bool
    ensures { result ≡ is_field_blob bytes.now }
{
    match bytes {
        [b, ..] => *b == 0x06,
        [] => false,
    }
}

/// The numbers of the signature in a blob of a field or a method, with `args` for the parameters of
/// the type around it; None where the blob is in no grammar, or a coded type names no row.
pub fn signature_numbers(
    alloc: Global,
    coded: &CodedTypes,
    args: &[U32s],
    bytes: &[u8],
) -> Result<Option<U32s>, AllocError>
    requires { length bytes.now < 2 ^ 32 }
    ensures { IfOk result (λ numbers. numbers ≡ signature_numbers (coded_of coded.now) args.now bytes.now) }
{
    if is_field_blob(bytes) {
        return field_numbers(alloc, coded, args, bytes);
    }
    function_numbers(alloc, coded, args, bytes)
}

/// The member of this name and blob; None as for the numbers of its signature.
pub fn shape_of(
    alloc: Global,
    coded: &CodedTypes,
    args: &[U32s],
    name: &[u8],
    bytes: &[u8],
) -> Result<Option<Shape>, AllocError>
    requires { length bytes.now < 2 ^ 32 }
    ensures { IfOk result (λ x. x ≡ shape_of (coded_of coded.now) args.now name.now bytes.now) }
{
    match signature_numbers(alloc, coded, args, bytes)? {
        Some(signature) => Ok(Some(Shape {
            name: Name::from_slice(alloc, name)?,
            is_field: is_field_blob(bytes),
            signature,
        })),
        None => Ok(None),
    }
}
