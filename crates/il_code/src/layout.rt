// The parts of a body's bytes.
ghost use Rattle.std.specs.Prelude.{◌≡◌, ◌<◌, ◌^◌, ◌+◌, ◌≤◌, length, Ok, Err, IfOk, IfSome, MatchOption};
ghost use Rattle.cil_base.specs.declared.rule.Rule.TheVariants.{I5};
ghost use Rattle.std.specs.Option.{option_map};
ghost use Rattle.cil_base.specs.Refusals.{refusal};
ghost use Rattle.cil_model.specs.BodyLayout.{layout_of};

use crate::header::read_header;
use crate::sections::{read_sections, sections_end};
use cil_base::{Place, Refusal, Rule};
use cil_model::{Layout, RawClauses};
use std::alloc::{AllocError, Global};

/// How many bytes the body has that the bytes begin with, from its header to the end of its code or
/// of its last exception section (ECMA-335, II.25.4). I5 where the header, the code or a section
/// isn't whole, or a header or a section has other bits.
pub fn body_len(bytes: &[u8], place: Place) -> Result<u32, Refusal>
    requires { length bytes.now < 2 ^ 32 }
    ensures { MatchOption (layout_of bytes.now) (result ≡ Err (refusal I5 place 0)) (λ layout. result ≡ Ok layout.len) }
{
    match len_of(bytes) {
        None => Err(place.refusal(Rule::I5, 0)),
        Some(len) => Ok(len),
    }
}

/// What the bytes say of the body apart from its code; None where a part isn't whole or has other
/// bits.
#[tactic(auto, unfolding(cil_model::specs::BodyLayout::layout_of))]
pub(crate) fn read_layout(alloc: Global, bytes: &[u8]) -> Result<Option<Layout>, AllocError>
    requires { length bytes.now < 2 ^ 32 }
    ensures value { IfOk result (λ layout. layout ≡ layout_of bytes.now) }
    ensures within { IfOk result (λ read. IfSome read (λ layout. layout.header.size + layout.header.code_size ≤ length bytes.now)) }
    ensures row { IfOk result (λ read. IfSome read (λ layout. IfSome layout.header.locals (λ token. token.row < 2 ^ 24))) }
{
    let Some(header) = read_header(bytes) else {
        return Ok(None);
    };
    let end = header.size as u64 + header.code_size as u64;
    if end > bytes.len() as u64 {
        return Ok(None);
    }
    if !header.more {
        return Ok(Some(Layout {
            header,
            clauses: RawClauses::new(alloc),
            len: end as u32,
        }));
    }
    match read_sections(alloc, bytes, end as usize)? {
        None => Ok(None),
        Some((clauses, len)) => Ok(Some(Layout {
            header,
            clauses,
            len,
        })),
    }
}

#[tactic(auto, unfolding(cil_model::specs::BodyLayout::layout_of))]
fn len_of(bytes: &[u8]) -> Option<u32>
    requires { length bytes.now < 2 ^ 32 }
    ensures { result ≡ option_map (λ layout. layout.len) (layout_of bytes.now) }
{
    let header = read_header(bytes)?;
    let end = header.size as u64 + header.code_size as u64;
    if end > bytes.len() as u64 {
        return None;
    }
    if header.more {
        sections_end(bytes, end as usize)
    } else {
        Some(end as u32)
    }
}
