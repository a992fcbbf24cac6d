// The own contract of a body.

ghost use Rattle.std.specs.Prelude.{◌≡◌, ◌<◌, ◌^◌, Some, None, All, IfOk};
ghost use Rattle.cil_base.specs.Refusals.{OnRefused, first_of};
ghost use Rattle.contract_parts.specs.Parts.{prefixes};
ghost use Rattle.contract_extract.specs.OwnContract.{own_contract};
ghost use Rattle.contract_extract.specs.Rules.{tests};

use crate::block::Block;
use crate::part_locals::PartLocals;
use crate::reach::Reach;
use cil_base::Fault;
use cil_model::Contract;
use contract_parts::{
    Closures, Code, LeadIn, Statement, lead_end, rest_behind, segments_from, statements_of,
};
use std::alloc::{AllocError, Global};

/// What a block says, whether or not it breaks a rule.
#[tactic(auto, unfolding(crate::specs::OwnContract::own_contract))]
fn contract_of(alloc: Global, block: &Block) -> Result<Contract, AllocError>
    ensures { IfOk result (λ contract. contract ≡ own_contract block.now) }
{
    let calls = block.inlines(alloc)?;
    let asserts = block.asserts(alloc, &calls)?;
    Ok(Contract {
        lead_end: block.lead(),
        rest_from: block.rest(),
        clauses: block.clauses(alloc, &calls)?,
        asserts,
    })
}

/// The contract of a block, or the first rule that it breaks.
fn checked_contract(alloc: Global, block: &Block) -> Result<Contract, Fault>
    ensures right { IfOk result (λ contract. (contract ≡ own_contract block.now) × (first_of (tests block.now) ≡ None)) }
    ensures wrong { OnRefused result (λ r. first_of (tests block.now) ≡ Some r) }
{
    match block.first_refusal() {
        Some(refusal) => Err(Fault::Refused(refusal)),
        None => Ok(contract_of(alloc, block)?),
    }
}

fn contract_with_lead(alloc: Global, lead: &LeadIn, calls: &[u32]) -> Result<Contract, Fault>
    requires calls { calls.now ≡ prefixes lead.now }
    requires below { All (λ at. at < 2 ^ 31) calls.now }
    ensures right { IfOk result (λ contract. (contract ≡ own_contract lead.now) × (first_of (tests lead.now) ≡ None)) }
    ensures wrong { OnRefused result (λ r. first_of (tests lead.now) ≡ Some r) }
{
    let made = lead.closures(alloc)?;
    let closures = Closures::new(lead, &made);
    let segments = segments_from(alloc, lead.end(), calls)?;
    let parts = (lead.end(), rest_behind(calls));
    let locals = PartLocals::new(alloc, lead.code(), parts.0, parts.1)?;
    let reach = Reach::new(alloc, lead.code())?;
    let block = Block::new(lead.code(), parts, &segments, &closures, &locals, &reach);
    checked_contract(alloc, &block)
}

/// The own contract of a body, or the first of C1 to C7 that it breaks, by place and then by rule.
pub fn own_contract_of(alloc: Global, code: &Code) -> Result<Contract, Fault>
    ensures right { IfOk result (λ contract. (contract ≡ own_contract code.now) × (first_of (tests code.now) ≡ None)) }
    ensures wrong { OnRefused result (λ r. first_of (tests code.now) ≡ Some r) }
{
    let calls = code.prefixes(alloc)?;
    let boundaries = code.boundaries(alloc)?;
    let parts = statements_of(alloc, boundaries.as_slice())?;
    let end = lead_end(code, &parts, &calls);
    let lead = LeadIn::new(code, end, &parts);
    contract_with_lead(alloc, &lead, &calls)
}
