// A body as a tree of blocks.

use crate::body::{Instr, RegionKind};
use cil_base::Token;
use sqlite_items::Items;

/// A part of a body: straight code, or a protected block with its handlers.
#[cycle(tree)]
#[derive(Drop)]
pub enum Block {
    Code(Items<Instr>),
    Guarded {
        inner: Items<Block>,
        handlers: Items<Handler>,
    },
}

/// A handler and its code.
#[cycle(tree)]
#[derive(Drop)]
pub struct Handler {
    pub kind: RegionKind,
    pub blocks: Items<Block>,
}

pub type Blocks = Items<Block>;

pub type Handlers = Items<Handler>;

/// A body whose regions are nested blocks (ECMA-335, I.12.4.2.7).
#[derive(Drop)]
pub struct Tree {
    pub blocks: Blocks,
    pub locals: Option<Token>,
    pub max_stack: u16,
    pub init: bool,
}
