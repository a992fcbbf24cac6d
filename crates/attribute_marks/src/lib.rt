//! Which rows of an assembly bear an attribute of a name, and the types around nested ones (ECMA-335,
//! II.22.10, II.22.32).
#![tactic(auto)]

mod enclosing;
mod firsts;
mod marks;

pub use enclosing::enclosing_rows;
pub use firsts::first_rows;
pub use marks::{attributed, first_marks, row_at};
