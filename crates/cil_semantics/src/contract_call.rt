// The calls of the contract class.

use cil_model::ClauseKind;

/// Which contract call an instruction is (Code Contracts User Manual, sections 2 and 6).
#[derive(Clone, Copy)]
pub enum ContractCall {
    EndsClause(ClauseKind),
    EndsBlock,
    Abbreviates,
    GivesResult,
    ReadsArgument,
    TakesOld,
    ChecksHere(ClauseKind),
    NoContractCall,
}
