//! Clauses whose method is named by an instance: what stands for the type parameters in them.
#![tactic(auto)]

mod arguments;
mod clause;

pub use arguments::{joined, push_instances};
pub use clause::{
    clause_under, copied_names, exception_under, instr_under, old_under, push_clauses,
    push_clauses_under, push_refs, push_refs_under, ref_under,
};
