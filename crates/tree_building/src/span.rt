// Finished blocks by their places.

use cil_model::{Blocks, Handlers};
use sqlite_items::Items;

/// A protected block from `from` to `end`, whose try ends at `to`, or straight code where there are no
/// handlers. All are places in the list of instructions.
#[derive(Drop)]
pub struct Span {
    pub from: u32,
    pub to: u32,
    pub end: u32,
    pub inner: Blocks,
    pub handlers: Handlers,
}

pub type Spans = Items<Span>;
