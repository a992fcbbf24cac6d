// The parts of a method body in bytes.

use cil_base::Token;
use sqlite_items::Items;

/// What a method header says (ECMA-335, II.25.4.2 and II.25.4.3): how many bytes it has itself,
/// how many its code has, and whether sections follow.
#[derive(Clone, Copy)]
pub struct MethodHeader {
    pub size: u32,
    pub code_size: u32,
    pub max_stack: u16,
    pub init: bool,
    pub locals: Option<Token>,
    pub more: bool,
}

/// An exception section (II.25.4.5): where its clauses begin and how many they are, where it ends,
/// and whether another follows.
#[derive(Clone, Copy)]
pub struct Section {
    pub fat: bool,
    pub more: bool,
    pub from: u32,
    pub count: u32,
    pub end: u32,
}

/// An exception clause (II.25.4.6), by offsets in the code. The last number is the token of a class
/// or the offset of a filter.
#[derive(Clone, Copy)]
pub struct RawClause {
    pub flags: u32,
    pub try_from: u32,
    pub try_size: u32,
    pub handler_from: u32,
    pub handler_size: u32,
    pub last: u32,
}

pub type RawClauses = Items<RawClause>;

/// What the bytes of a body say apart from its code, and how many they are.
#[derive(Drop)]
pub struct Layout {
    pub header: MethodHeader,
    pub clauses: RawClauses,
    pub len: u32,
}
