//! The parts of a method's body: its lead-in, the segments of its contract block, its rest, and the
//! locals that hold closures.
#![tactic(auto)]

mod call;
mod code;
mod effect;
mod lead;
mod lead_in;
mod lines;
mod locals;
mod made;
mod plain;
mod segment;
mod setup;
mod slices;
mod statement;
mod types;

pub use call::{
    checked_kind, contract_call, count_params, ended_kind, ends_block, is_prefix, own_meaning,
};
pub use code::Code;
pub use effect::has_result;
pub use lead::{lead_end, statements_of};
pub use lead_in::LeadIn;
pub use lines::{is_nop, is_throw};
pub use locals::{is_it, loaded, named, read, stored, written};
pub use made::Made;
pub use segment::{Segment, rest_behind, segment_at, segments_from};
pub use setup::{Closures, copy_all};
pub use slices::part;
pub use statement::Statement;
pub use types::type_number;
