// A call of an abbreviator.

use cil_model::{Instrs, TyRefs, Under};
use sqlite_items::{Boxed, Items};

/// Lists of instructions.
pub type InstrLists = Items<Instrs>;

/// A call of an abbreviator by its segment: the instructions before its arguments, those of each
/// argument with targets that count from its own beginning, the types of the locals that both name, and
/// what stands for the type parameters of the abbreviator.
#[derive(Drop)]
pub struct Site {
    pub lead: Instrs,
    pub args: InstrLists,
    pub locals: TyRefs,
    pub under: Option<Boxed<Under>>,
}
