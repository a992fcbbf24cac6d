// The regions of a body (ECMA-335, I.12.4.2 and II.25.4.6).

ghost use Rattle.std.specs.Prelude.{◌≡◌};
ghost use Rattle.cil_semantics.specs.Unwind.{body_of, in_handler, in_try};

use cil_model::{Program, Region};
use cil_semantics::Handling;

/// The regions of a method's body.
#[tactic(auto, unfolding(cil_semantics::specs::Lookups::no_method, cil_semantics::specs::Unwind::no_body))]
pub fn regions_of(program: &Program, method: u32) -> &[Region]
    ensures { result.now ≡ (body_of program.now method).regions }
{
    match program.methods.get(method as usize) {
        None => &[],
        Some(desc) => match &desc.body {
            None => &[],
            Some(body) => body.regions.as_slice(),
        },
    }
}

pub(crate) fn is_in_try(region: &Region, q: u32) -> bool
    ensures { result ≡ in_try region.now q }
{
    region.try_from <= q && q < region.try_to
}

pub(crate) fn is_in_handler(regions: &[Region], q: u32, h: &Handling) -> bool
    ensures { result ≡ in_handler regions.now q h.now }
{
    match regions.get(h.handler as usize) {
        None => false,
        Some(region) => region.handler_from <= q && q < region.handler_to,
    }
}
