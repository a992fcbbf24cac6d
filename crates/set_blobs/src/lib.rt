//! The blobs of a set's signatures and contract attributes (ECMA-335, II.23.2 and II.23.3): the
//! first that is in no grammar of its kind.
#![tactic(auto)]

mod forms;
mod passes;
mod reading;

pub use forms::BlobForm;
pub use passes::blob_fault;
