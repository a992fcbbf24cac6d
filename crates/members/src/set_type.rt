// A type of the set, and its base.

use cli_sigs::SigTys;

/// By its assembly and TypeDef row; `base` is the number of its base, where that is of the set, and
/// `args` are the arguments of the base as the assembly spells them.
#[derive(Drop)]
pub struct SetType {
    pub assembly: u32,
    pub row: u32,
    pub base: Option<u32>,
    pub args: SigTys,
}
