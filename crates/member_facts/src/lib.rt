//! What is known of the members of an assembly of a set: the types that own its fields and methods,
//! their numbers, and what its MemberRef rows name (ECMA-335, II.22).
#![tactic(auto)]

mod facts;
mod references;

pub use facts::member_facts;
