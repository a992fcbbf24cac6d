//! What is asked of the signatures of a set (ECMA-335, II.23.2): that their blobs are in their
//! grammars, and that arguments and parameters fit.
#![tactic(auto)]

mod blobs;
mod parameter_counts;
mod parameters;
mod values;

pub use blobs::{BlobKind, blob_kind, read_types};
pub use parameter_counts::ParameterCounts;
pub use parameters::{any_miscounts, any_strays};
pub use values::push_values;
