// A small body: a tiny header, its code, and no more.
ghost use Rattle.std.specs.Prelude.{◌≡◌, ℕ, ◌<◌, length, IfOk, OnOk, Option};
ghost use Rattle.std.specs.Option.{option_map, ForSome};
ghost use Rattle.cil_base.specs.Refusals.{First, InTurn, NoneBroken, OnRefused};
ghost use Rattle.cil_model.specs.declared.body.Body.{Body};
ghost use Rattle.cil_model.specs.SmallBody.{HeaderBreaks, CodeBreaks, IsSmallBody, tiny_code};

use crate::code::{Form, read_code};
use cil_base::{Fault, Place, Rule};
use cil_model::{Body, Instrs, Regions};
use std::alloc::Global;

/// What stands behind a tiny header, if the bytes are that and no more.
fn code_behind(bytes: &[u8]) -> Option<&[u8]>
    ensures code { option_map (λ x. x.now) result ≡ tiny_code bytes.now }
    ensures small { ForSome result (λ x. length x.now < 64) }
{
    match bytes {
        [] => None,
        [header, code @ ..] => {
            if *header % 4 == 2 && (*header / 4) as usize == code.len() {
                Some(code)
            } else {
                None
            }
        }
    }
}

/// The body that the bytes stand for, in the form of the command `body`: a tiny header (ECMA-335,
/// II.25.4.2), its code and no more, over a few int32 instructions and one call, that of Requires.
///
/// It is refused by I5 at 0 where the header isn't tiny or the bytes are fewer or more than it
/// says, and else by I1 or I2 at the first instruction that breaks it.
pub fn decode_small(alloc: Global, bytes: &[u8], place: Place) -> Result<Body, Fault>
    ensures few { IfOk result (λ body. length body.instrs < 64) }
    ensures body { IfOk result (IsSmallBody place.assembly bytes.now) }
    // The bytes stand for one list of instructions.
    ensures once { IfOk result (λ body. (other : Body) → IsSmallBody place.assembly bytes.now other → (other.instrs ≡ body.instrs) × (other.offsets ≡ body.offsets)) }

    ensures refused { OnRefused result (InTurn (HeaderBreaks place bytes.now) (First (CodeBreaks place bytes.now))) }
    ensures accepted { OnOk result (NoneBroken (HeaderBreaks place bytes.now) × NoneBroken (CodeBreaks place bytes.now)) }
{
    let Some(code) = code_behind(bytes) else {
        return Err(Fault::Refused(place.refusal(Rule::I5, 0)));
    };
    let (instrs, offsets) = match read_code(alloc, Form::Small, code, place) {
        Ok(read) => read,
        Err(fault) => return Err(fault),
    };
    Ok(Body {
        instrs: Instrs::from_vec(instrs),
        offsets,
        regions: Regions::new(alloc),
        locals: None,
        max_stack: 8,
        init: false,
    })
}
