// What an instruction wants done.

use cil_model::{Pointer, Ty, Tys, Value, Values};
use cil_semantics::{Access, Object};
use il_opcodes::Storage;
use run_numbers::Exception;

/// A call that an instruction makes: the member, and the values that it takes, the first first.
#[derive(Drop)]
pub struct Call {
    pub owner: Ty,
    pub method: u32,
    pub method_args: Tys,
    pub values: Values,
    pub constrained: Option<Ty>,
}

/// What an instruction wants done, besides what it did to its frame.
#[derive(Drop)]
pub enum Wanted {
    Stuck,
    GoOn,
    /// An object is made.
    Make(Object),
    /// An array is made, with so many places that hold this value.
    MakeArray(Ty, Value, u64),
    Jump(u32),
    Raise(Exception),
    Throw(u32),
    Rethrow,
    Leave(u32),
    EndHandler,
    Return,
    Load(Pointer, Storage),
    Store(Pointer, Value),
    Copy(Pointer, Pointer, Storage),
    UseStatic(Ty, Access),
    CallMember(Call),
    CallVirtual(Call),
    NewObject(Call),
    LoadVirtualFunction(Call),
}
