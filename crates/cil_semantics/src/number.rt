// Numbers on the evaluation stack.

/// A number, or the exception that is thrown in its place.
#[derive(Clone, Copy)]
pub enum Number<T> {
    Is(T),
    DividesByZero,
    Overflows,
}

/// A number on the stack, of 4 bytes, of 8, or native; or another value.
#[derive(Clone, Copy)]
pub enum Numeric {
    Int4(i32),
    Int8(i64),
    IntNative(i64),
    NoNumber,
}

/// Two numbers of one kind; 4 bytes with native is native by sign (ECMA-335, III.1.5, table 2).
#[derive(Clone, Copy)]
pub enum Pair {
    Both4(i32, i32),
    Both8(i64, i64),
    BothNative(i64, i64),
    NoPair,
}
