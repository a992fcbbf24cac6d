// The body at an RVA of an image.
ghost use Rattle.std.specs.Prelude.{◌≡◌, ◌<◌, ◌^◌, length, Some, IfOk, IfSome, OnOk};
ghost use Rattle.cil_base.specs.Refusals.{OnRefused};
ghost use Rattle.cil_base.specs.declared.refusal.Refusal.{Refusal};
ghost use Rattle.cil_model.specs.ValidBody.{IsValid};
ghost use Rattle.pe_image.specs.Sections.{tail_at};
ghost use Rattle.method_bodies.specs.Bodies.{FaultAt, IsBodyAt, StandsAt, has_header_byte};

use cil_base::{Fault, Place, Rule};
use cil_model::Body;
use il_body::{body_len, decode_body};
use pe_image::Image;
use std::alloc::Global;

/// Whether one of the bytes from an RVA on is one of the 72 bytes of the CLI header.
fn has_header_byte(image: &Image<'_>, rva: u32, len: u32) -> bool
    ensures { result ≡ has_header_byte image.now.bytes rva len }
{
    let header = u64::from(image.cli().header_rva);
    let from = u64::from(rva);
    from < header + 72 && header < from + u64::from(len)
}

/// The body with which the bytes at an RVA begin.
fn body_in(
    alloc: Global,
    image: &Image<'_>,
    place: Place,
    rva: u32,
    bytes: &[u8],
) -> Result<Body, Fault>
    requires short { length bytes.now < 2 ^ 32 }
    requires there { tail_at image.now.bytes rva ≡ Some bytes.now }
    requires some { 0 < rva }
    ensures body { IfOk result (StandsAt image.now.bytes place.assembly rva) }
    ensures valid { IfOk result (IsValid place.assembly) }
    ensures accepted { OnOk result ((r : Refusal) → FaultAt image.now.bytes place rva r → ⊥) }
    ensures broken { OnRefused result (FaultAt image.now.bytes place rva) }
    ensures first { OnRefused result (λ r. (s : Refusal) → FaultAt image.now.bytes place rva s → s ≡ r) }
{
    let len = match body_len(bytes, place) {
        Ok(len) => len,
        Err(refusal) => return Err(Fault::Refused(refusal)),
    };
    if has_header_byte(image, rva, len) {
        return Err(Fault::Refused(place.refusal(Rule::I5, 0)));
    }
    decode_body(alloc, bytes, place)
}

/// The body of the method of a row, by its RVA; None where that is 0. I5 where the RVA lies in no
/// section's raw bytes, where the header, the code or a section of the body isn't whole or has other
/// bits, or where the body shares a byte with the CLI header; else what `decode_body` refuses.
pub fn read_body(
    alloc: Global,
    image: &Image<'_>,
    place: Place,
    rva: u32,
) -> Result<Option<Body>, Fault>
    requires { length image.now.bytes < 2 ^ 32 }
    ensures body { IfOk result (IsBodyAt image.now.bytes place.assembly rva) }
    ensures valid { IfOk result (λ read. IfSome read (IsValid place.assembly)) }
    // It breaks one rule first, or none.
    ensures accepted { OnOk result ((r : Refusal) → FaultAt image.now.bytes place rva r → ⊥) }
    ensures broken { OnRefused result (FaultAt image.now.bytes place rva) }
    ensures first { OnRefused result (λ r. (s : Refusal) → FaultAt image.now.bytes place rva s → s ≡ r) }
{
    if rva == 0 {
        return Ok(None);
    }
    let Some(bytes) = image.tail(rva) else {
        return Err(Fault::Refused(place.refusal(Rule::I5, 0)));
    };
    match body_in(alloc, image, place, rva, bytes) {
        Ok(body) => return Ok(Some(body)),
        Err(fault) => return Err(fault),
    }
}
