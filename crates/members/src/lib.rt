//! The members of a set of assemblies: its fields and methods, found by type, name and signature,
//! also in bases, and those outside (ECMA-335, II.22.15, II.22.25 and II.22.26).
#![tactic(auto)]

mod assembly_members;
mod bases;
mod declaring;
mod hasher;
mod keys;
mod outside;
mod outside_member;
mod set_type;

pub use assembly_members::AssemblyMembers;
pub use bases::in_bases;
pub use declaring::{member_key, row_shape};
pub use keys::{Keys, rows_by_key};
pub use outside::Outside;
pub use outside_member::OutsideMember;
pub use set_type::SetType;
