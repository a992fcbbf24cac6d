//! To which structs each struct of a set leads by its instance fields; and which types lead back to
//! themselves, by the set's tables (ECMA-335, II.10.3, II.22.15).
#![tactic(auto)]

mod circles;
mod within;

pub use circles::find_entangled;
pub use within::within_lists;
