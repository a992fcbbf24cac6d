//! The signatures of a set's assemblies (ECMA-335, II.23.2) as numbers by which they are compared,
//! and the members that they are of.
#![tactic(auto)]

mod shape;
mod shapes;
mod spelling;

pub use shape::Shape;
pub use shapes::{DEEPEST, is_field_blob, shape_of, signature_numbers, type_numbers};
pub use spelling::{spell_method, spell_type};
