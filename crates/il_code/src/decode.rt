// Bodies from bytes.
ghost use Rattle.std.specs.Prelude.{◌≡◌, ◌<◌, ◌≤◌, ◌+◌, ◌^◌, ℕ, length, IfOk, IfSome, OnOk};
ghost use Rattle.cil_base.specs.Refusals.{OnRefused};
ghost use Rattle.cil_base.specs.declared.refusal.Refusal.{Refusal};
ghost use Rattle.cil_model.specs.BodyOf.{IsBody, IsFault, IsSame, StandsFor, BodyFault};
ghost use Rattle.cil_model.specs.declared.body.Body.{Body};
ghost use Rattle.cil_model.specs.BodyLayout.{code_of};

use crate::code::{Form, read_code};
use crate::layout::read_layout;
use crate::regions::regions_in;
use crate::targets::put_all;
use cil_base::{Fault, Place, Rule, bytes_from};
use cil_model::{Body, Instrs, Layout, MethodHeader};
use std::alloc::Global;

/// The body of the code, with indexes of instructions for targets and regions.
fn decode_code(alloc: Global, layout: Layout, code: &[u8], place: Place) -> Result<Body, Fault>
    requires size { length code.now ≡ layout.header.code_size }
    requires row { IfSome layout.header.locals (λ token. token.row < 2 ^ 24) }
    ensures body { IfOk result (IsBody place.assembly layout code.now) }
    ensures row { IfOk result (λ body. IfSome body.locals (λ token. token.row < 2 ^ 24)) }
    ensures broken { OnRefused result (IsFault place layout code.now) }
{
    let Layout {
        header,
        clauses,
        len: _,
    } = layout;
    let (mut instrs, offsets) = read_code(alloc, Form::Any, code, place)?;
    let starts = offsets.as_slice();
    let Some(regions) = regions_in(alloc, starts, header.code_size, clauses.as_slice())? else {
        return Err(Fault::Refused(place.refusal(Rule::I3, 0)));
    };
    if let Some(k) = put_all(starts, &mut instrs) {
        return Err(Fault::Refused(place.refusal(Rule::I3, starts[k])));
    }
    Ok(Body {
        instrs: Instrs::from_vec(instrs),
        offsets,
        regions,
        locals: header.locals,
        max_stack: header.max_stack,
        init: header.init,
    })
}

/// The code behind a header.
fn code_in(bytes: &[u8], header: MethodHeader) -> &[u8]
    requires { header.size + header.code_size ≤ length bytes.now }
    ensures value { result.now ≡ code_of bytes.now header }
    ensures whole { length result.now ≡ header.code_size }
{
    let rest = bytes_from(bytes, header.size as usize);
    &rest[..header.code_size as usize]
}

/// The body that the bytes begin with (ECMA-335, II.25.4). Short and long spellings give one
/// instruction, whose targets are indexes of instructions, and bytes behind the body are ignored. I5
/// where the header, the code or a section isn't whole or has other bits; else I1 or I2 at the first
/// instruction that is undefined or cut; else I3 at 0 for a region and at the instruction for a
/// branch that leads to no instruction.
pub fn decode_body(alloc: Global, bytes: &[u8], place: Place) -> Result<Body, Fault>
    requires { length bytes.now < 2 ^ 32 }
    ensures body { IfOk result (λ body. (len : ℕ) × StandsFor place.assembly bytes.now body len) }
    ensures row { IfOk result (λ body. IfSome body.locals (λ token. token.row < 2 ^ 24)) }
    ensures broken { OnRefused result (BodyFault place bytes.now) }
    // It stands for no other body, and then breaks no rule; it breaks one rule first, and then
    // stands for no body.
    ensures once { IfOk result (λ body. (other : Body) (len : ℕ) → StandsFor place.assembly bytes.now other len → IsSame other body) }
    ensures accepted { OnOk result ((r : Refusal) → BodyFault place bytes.now r → ⊥) }
    ensures first { OnRefused result (λ r. (s : Refusal) → BodyFault place bytes.now s → s ≡ r) }
    ensures refused { OnRefused result (λ r. (body : Body) (len : ℕ) → StandsFor place.assembly bytes.now body len → ⊥) }
{
    let Some(layout) = read_layout(alloc, bytes)? else {
        return Err(Fault::Refused(place.refusal(Rule::I5, 0)));
    };
    let code = code_in(bytes, layout.header);
    decode_code(alloc, layout, code, place)
}
