// The bytes of a body with its contract calls made checks.
ghost use Rattle.std.specs.Prelude.{◌≡◌, IfOk, OnOk};
ghost use Rattle.cil_base.specs.Refusals.{OnRefused};
ghost use Rattle.body_splice.specs.Splice.{clause_count, first_call};
ghost use Rattle.body_splice.specs.Rewrite.{IsRewriting, KeepsBodyRules, IsBodyRefusal};

use crate::splice::{first_requires, splice_one};
use cil_base::{Bytes, Fault, Place};
use cil_model::Body;
use il_body::{decode_small, encode_body};
use std::alloc::Global;

/// The bytes of a rewritten body, and how many clauses it has.
#[derive(Drop)]
pub struct RewrittenBody {
    pub bytes: Bytes,
    pub clauses: u32,
}

fn clauses_of(body: &Body) -> u32
    ensures { result ≡ clause_count (first_call body.now.instrs) }
{
    match first_requires(body.instrs.as_slice()) {
        Some(_) => 1,
        None => 0,
    }
}

/// The bytes of the body with a check in place of its call of Requires. I5, I1 and I2 where the
/// bytes are no body of the kind that is rewritten, then C2 and C1 as `splice_one` says.
pub fn rewrite_body(alloc: Global, bytes: &[u8]) -> Result<RewrittenBody, Fault>
    ensures done { IfOk result (λ x. IsRewriting bytes.now x.bytes x.clauses) }
    ensures accepted { OnOk result (KeepsBodyRules bytes.now) }
    ensures refused { OnRefused result (IsBodyRefusal bytes.now) }
{
    let place = Place {
        assembly: 0,
        table: 0,
        row: 0,
    };
    let before = match decode_small(alloc, bytes, place) {
        Ok(before) => before,
        Err(fault) => return Err(fault),
    };
    let after = match splice_one(alloc, &before, place) {
        Ok(after) => after,
        Err(fault) => return Err(fault),
    };
    let encoded = match encode_body(alloc, &after) {
        Ok(encoded) => encoded,
        Err(fault) => return Err(fault),
    };
    Ok(RewrittenBody {
        bytes: encoded,
        clauses: clauses_of(&before),
    })
}
