//! The program of a set: its types, fields and methods, and what each token means (ECMA-335, II.22).
#![tactic(auto)]

mod coded;
mod facts;
mod meanings;
mod outside;
mod signatures;
mod tokens;
mod types;

pub use facts::{MemberFacts, NamedMember, TypeFacts, TypeLists};
pub use meanings::{meaning_by, method_by};
pub use outside::{outside_field, outside_method};
pub use signatures::{numbers_tell_signatures_apart, signature_numbers};
pub use tokens::{facts_give_tokens, note_table, note_tokens};
pub use types::{
    facts_give_types, impls_of, interfaces_of, numbers_of, outside_type, type_at_index, type_lists,
    type_row,
};
