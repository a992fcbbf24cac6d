//! What is known of the types and the methods of an assembly beside their rows: kinds, attributes,
//! numbers of parameters, and the types around nested ones (ECMA-335, II.22).
#![tactic(auto)]

mod methods;
mod types;

pub use methods::{MethodMarks, marks_give_methods, method_facts, method_marks};
pub use types::{TypeMarks, count_at, has_mark, marks_give_types, type_facts, type_marks};
