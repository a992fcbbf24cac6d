//! Bodies from bytes: headers, code and exception sections.
#![tactic(auto)]

mod code;
mod decode;
mod header;
mod instr;
mod layout;
mod numbers;
mod operand;
mod regions;
mod sections;
mod small;
mod targets;

pub use code::calls_requires;
pub use decode::decode_body;
pub use layout::body_len;
pub use small::decode_small;
