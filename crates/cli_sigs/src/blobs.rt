// Readers of whole blobs (ECMA-335, II.23.2.1 to II.23.2.6, II.23.2.14 and II.23.2.15).
ghost use Rattle.std.specs.Prelude.{◌≡◌, ◌<◌, ◌^◌, length, IfOk};
ghost use Rattle.cil_base.specs.Refusals.{OnRefused};
ghost use Rattle.cli_sigs.specs.declared.types.SigTy.{SigTy};
ghost use Rattle.cli_sigs.specs.declared.types.MethodSig.{MethodSig};
ghost use Rattle.cli_sigs.specs.Grammar.{IsMethodSig, IsPropertySig, IsFieldSig, IsLocals, IsTypeSpec, IsMethodSpec};
ghost use Rattle.cli_sigs.specs.Valid.{IsValidMethodSig, AreValidLocals, IsValidTypeSpec, IsValidMethodSpec};
ghost use Rattle.cli_sigs.specs.Reading.{Gives, field_at, list_at, type_at, method_at, ended};
ghost use Rattle.cli_sigs.specs.Answers.{GivesOnly, Reads, AtLongest, Concludes, Within};
ghost use Rattle.std.specs.Prelude.{List};

use crate::elements::{MethodKind, Slot};
use crate::numbers::{Stop, this_byte};
use crate::reading::{method_of, type_of, types_of};
use crate::types::{MethodSig, SigTy, SigTys};
use cil_base::{Fault, Place, Rule};
use std::alloc::Global;

/// How many types may stand inside a type, one in another.
const MOST_INSIDE: u32 = 999;

/// The value, where it takes all of the blob; else the refusal at the first wrong byte.
pub fn whole<T: Drop>(
    read: Result<(T, &[u8]), Stop>,
    blob: &[u8],
    place: Place,
    rule: Rule,
) -> Result<T, Fault>
    requires short { length blob.now < 2 ^ 32 }
    requires within { Within (λ x. (x.0, x.1.now)) blob.now read }
    ensures { Concludes (λ x. (x.0, x.1.now)) rule place blob.now read.entry result }
{
    match read {
        Ok((value, [])) => Ok(value),
        Ok((_, rest)) => {
            let at = blob.len() - rest.len();
            Err(Fault::Refused(place.refusal(rule, at as u32)))
        }
        Err(Stop::At(left)) => {
            let at = blob.len() - left;
            Err(Fault::Refused(place.refusal(rule, at as u32)))
        }
        Err(Stop::Memory(e)) => Err(Fault::Memory(e)),
    }
}

#[tactic(auto, unfolding(crate::specs::Reading::field_at))]
fn field_of(alloc: Global, bytes: &[u8]) -> Result<(SigTy, &[u8]), Stop>
    ensures { Gives (λ x. (x.0, x.1.now)) result (field_at 999 bytes.now) }
{
    let (_, bytes) = this_byte(0x06, bytes)?;
    type_of(alloc, MOST_INSIDE, Slot::Plain, bytes)
}

#[tactic(auto, unfolding(crate::specs::Reading::list_at))]
fn list_of(alloc: Global, first: u8, slot: Slot, bytes: &[u8]) -> Result<(SigTys, &[u8]), Stop>
    ensures { Gives (λ x. (x.0, x.1.now)) result (list_at first 999 slot bytes.now) }
{
    let (_, bytes) = this_byte(first, bytes)?;
    types_of(alloc, MOST_INSIDE, slot, bytes)
}

/// The signature of a method or of a reference to one (II.23.2.1, II.23.2.2). Refused by S1 where
/// the blob is none, at the length of the longest prefix with which one begins.
pub fn read_method_sig(alloc: Global, blob: &[u8], place: Place) -> Result<MethodSig, Fault>
    requires { length blob.now < 2 ^ 32 }
    ensures found { IfOk result (λ sig. IsMethodSig blob.now sig) }
    ensures valid { IfOk result (λ sig. IsValidMethodSig sig) }
    ensures only { (sig : MethodSig) → IsMethodSig blob.now sig → GivesOnly result sig }
    ensures refused { OnRefused result (AtLongest Rule.S1 place IsMethodSig blob.now) }
    ensures read { Reads result (ended (method_at MethodKind.Method (type_at 999) blob.now)) }
{
    let read = method_of(alloc, MOST_INSIDE, MethodKind::Method, blob);
    whole(read, blob, place, Rule::S1)
}

/// The signature of a property (II.23.2.5): its flags, type and parameters. Refused as a method's.
pub fn read_property_sig(alloc: Global, blob: &[u8], place: Place) -> Result<MethodSig, Fault>
    requires { length blob.now < 2 ^ 32 }
    ensures found { IfOk result (λ sig. IsPropertySig blob.now sig) }
    ensures only { (sig : MethodSig) → IsPropertySig blob.now sig → GivesOnly result sig }
    ensures refused { OnRefused result (AtLongest Rule.S1 place IsPropertySig blob.now) }
    ensures read { Reads result (ended (method_at MethodKind.Property (type_at 999) blob.now)) }
{
    let read = method_of(alloc, MOST_INSIDE, MethodKind::Property, blob);
    whole(read, blob, place, Rule::S1)
}

/// The type of a field (II.23.2.4). Refused as a method's signature.
pub fn read_field_sig(alloc: Global, blob: &[u8], place: Place) -> Result<SigTy, Fault>
    requires { length blob.now < 2 ^ 32 }
    ensures found { IfOk result (λ t. IsFieldSig blob.now t) }
    ensures valid { IfOk result (λ t. IsValidTypeSpec t) }
    ensures only { (t : SigTy) → IsFieldSig blob.now t → GivesOnly result t }
    ensures refused { OnRefused result (AtLongest Rule.S1 place IsFieldSig blob.now) }
    ensures read { Reads result (ended (field_at 999 blob.now)) }
{
    let read = field_of(alloc, blob);
    whole(read, blob, place, Rule::S1)
}

/// The types of a method's locals (II.23.2.6). Refused as a method's signature.
pub fn read_locals(alloc: Global, blob: &[u8], place: Place) -> Result<SigTys, Fault>
    requires { length blob.now < 2 ^ 32 }
    ensures found { IfOk result (λ ts. IsLocals blob.now ts) }
    ensures valid { IfOk result (λ ts. AreValidLocals ts) }
    ensures only { (ts : List SigTy) → IsLocals blob.now ts → GivesOnly result ts }
    ensures refused { OnRefused result (AtLongest Rule.S1 place IsLocals blob.now) }
    ensures read { Reads result (ended (list_at 0x07 999 Slot.Local blob.now)) }
{
    let read = list_of(alloc, 0x07, Slot::Local, blob);
    whole(read, blob, place, Rule::S1)
}

/// The type of a TypeSpec row (II.23.2.14). Refused as a method's signature.
pub fn read_type_spec(alloc: Global, blob: &[u8], place: Place) -> Result<SigTy, Fault>
    requires { length blob.now < 2 ^ 32 }
    ensures found { IfOk result (λ t. IsTypeSpec blob.now t) }
    ensures valid { IfOk result (λ t. IsValidTypeSpec t) }
    ensures only { (t : SigTy) → IsTypeSpec blob.now t → GivesOnly result t }
    ensures refused { OnRefused result (AtLongest Rule.S1 place IsTypeSpec blob.now) }
    ensures read { Reads result (ended (type_at 999 Slot.Plain blob.now)) }
{
    let read = type_of(alloc, MOST_INSIDE, Slot::Plain, blob);
    whole(read, blob, place, Rule::S1)
}

/// The arguments of a MethodSpec row (II.23.2.15). Refused as a method's signature.
pub fn read_method_spec(alloc: Global, blob: &[u8], place: Place) -> Result<SigTys, Fault>
    requires { length blob.now < 2 ^ 32 }
    ensures found { IfOk result (λ ts. IsMethodSpec blob.now ts) }
    ensures valid { IfOk result (λ ts. IsValidMethodSpec ts) }
    ensures only { (ts : List SigTy) → IsMethodSpec blob.now ts → GivesOnly result ts }
    ensures refused { OnRefused result (AtLongest Rule.S1 place IsMethodSpec blob.now) }
    ensures read { Reads result (ended (list_at 0x0A 999 Slot.Plain blob.now)) }
{
    let read = list_of(alloc, 0x0A, Slot::Plain, blob);
    whole(read, blob, place, Rule::S1)
}
