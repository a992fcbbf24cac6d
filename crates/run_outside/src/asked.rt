// What a call outside comes to.

use cil_model::Value;

/// A value or none, an exception's object, or what does not fit.
#[derive(Drop)]
pub enum Asked {
    Returned(Option<Value>),
    Threw(u32),
    Unfit,
}
