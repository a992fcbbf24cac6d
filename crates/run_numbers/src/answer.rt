// What an instruction on values comes to.

use cil_model::Value;

/// The exceptions that instructions throw.
#[derive(Clone, Copy)]
pub enum Exception {
    NullReference,
    Overflow,
    DivideByZero,
    InvalidCast,
    OutOfRange,
    Mismatch,
}

/// A value to push, an exception to throw, or an instruction that is stuck.
#[derive(Drop)]
pub enum Answer {
    Push(Value),
    Raise(Exception),
    Stuck,
}
