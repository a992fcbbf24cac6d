// What two members of a type are compared by.

use cil_base::{Name, U32s};

/// A member without its type: a field or a method, by its name and its signature as numbers.
#[derive(Drop)]
pub struct Shape {
    pub name: Name,
    pub is_field: bool,
    pub signature: U32s,
}
