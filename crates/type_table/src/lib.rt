//! The types of a set by number, and what rows, attributes and coded types lead to (ECMA-335, II.22).
#![tactic(auto)]

mod attributes;
mod exports;
mod identities;
mod numbering;
mod outside;
mod table;
mod texts;

pub use attributes::attribute_names;
pub use exports::exported_rows;
pub use identities::reference_rows;
pub use outside::outside_names;
pub use table::TypeTable;
pub use texts::attribute_type;
