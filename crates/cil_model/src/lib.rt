//! Method bodies and programs as values, and what they mean.
#![tactic(auto)]

mod body;
mod contract;
mod layout;
mod methods;
mod program;
mod run;
mod tokens;
mod tree;
mod ty;
mod value;

pub use body::{Body, Instr, Instrs, Operand, Region, RegionKind, Regions};
pub use contract::{
    Capture, Captures, Clause, ClauseKind, ClauseLists, Clauses, Contract, ContractList, Contracts,
    Effective, EffectiveList, Group, Level, Names, Old, Olds, OwnContracts, Runtime, Settings,
    TyRef, TyRefs,
};
pub use layout::{Layout, MethodHeader, RawClause, RawClauses, Section};
pub use methods::MethodDescs;
pub use program::{
    FieldDesc, FieldDescs, Impl, Impls, Kind, Meaning, MethodDesc, Program, Source, Sources,
    TokenRow, TypeDesc, TypeDescs,
};
pub use run::{Outcome, Replies, Reply, ReplyResult, RunResult, Trace, TraceItem};
pub use tokens::TokenRows;
pub use tree::{Block, Blocks, Handler, Handlers, Tree};
pub use ty::{Instance, Instances, Signatures, Ty, TypeArgs, Tys, Under};
pub use value::{Pointer, Value, Values};
