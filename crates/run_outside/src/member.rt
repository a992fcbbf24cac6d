// Members that are called outside (ECMA-335, II.22.25).

use cil_base::Name;
use cil_model::{Ty, Tys, Value};

/// A member that is called outside: its number, how it is told of, the types of its parameters and of its result, and what a reply
/// that says nothing gives.
#[derive(Drop)]
pub struct Member {
    pub number: u32,
    pub name: Name,
    pub params: Tys,
    pub result: Ty,
    pub default: Option<Value>,
}
