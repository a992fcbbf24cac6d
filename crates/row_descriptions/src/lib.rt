//! What single rows of an assembly say: fields and methods by their rows, the rows of each type, and
//! the tokens of texts (ECMA-335, II.22).
#![tactic(auto)]

mod fields;
mod methods;
mod owners;
mod row_lists;
mod signatures;
mod token_tables;
mod user_texts;

pub use fields::{field_row, field_ty, push_fields};
pub use methods::{MethodFacts, Parameters, method_row, parameters_of, push_methods};
pub use owners::{owned_rows, owner_at, owner_number, type_number};
pub use row_lists::{column, lists_by_number, rows_by_cell};
pub use signatures::{field_type, instance_types, local_types, method_signature};
pub use token_tables::{note_meaning, note_texts};
pub use user_texts::units_of;
