//! The instructions of ECMA-335, Partition III, and what each does.
#![tactic(auto)]

mod class;
pub mod code;
mod find;
mod opcode;
mod table;

pub use class::{BinaryOp, Bits, Class, Comparison, NumberKind, ShiftOp, Storage, UnaryOp};
pub use find::{find_mnemonic, find_opcode, spellings_from};
pub use opcode::{Opcode, OperandKind};
pub use table::opcodes;
