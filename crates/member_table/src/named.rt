// What a MemberRef row names, and members by their identities (ECMA-335, II.22.25).

use cil_model::Ty;
use members::OutsideMember;

/// A row of Field, where `is_field`, or MethodDef, with the type in which it stands: that of the
/// reference, or its base with the arguments that it has there.
#[derive(Drop)]
pub struct Found {
    pub owner: Ty,
    pub is_field: bool,
    pub assembly: u32,
    pub row: u32,
}

/// What a MemberRef row names. `Missing`: its type is of the set, and neither that nor a base of the
/// set has the member; or its signature can't be read.
#[derive(Drop)]
pub enum Named {
    InSet(Found),
    Outside(OutsideMember),
    Missing,
}

/// A field, or a method, of a program by its identity: one of the set by its assembly and row, any
/// other by its type, name and signature.
#[derive(Drop)]
pub enum MemberId {
    Row { assembly: u32, row: u32 },
    Outside(OutsideMember),
}
