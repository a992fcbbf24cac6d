//! What all layers speak of: list types, bytes and numbers in them, tokens, places, rules, refusals,
//! tables and limits.
#![tactic(auto)]

mod bytes;
pub mod limits;
mod lists;
mod numbers;
mod packed;
mod refusal;
mod rule;
pub mod tables;
mod token;

pub use bytes::{
    between, bytes_from, padding, part, push_all, push_number, push_padding, push_u16, push_u32,
    push_u64, push_zeros, u16_bytes, u32_bytes,
};
pub use lists::{Bytes, I32s, Name, U32s, Units};
pub use numbers::{read_u16_at, read_u32_at};
pub use packed::{push_packed, read_packed};
pub use refusal::{Fault, Place, Refusal};
pub use rule::Rule;
pub use token::Token;
