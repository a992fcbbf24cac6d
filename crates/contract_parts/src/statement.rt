// Statements.

/// The code from a boundary up to the next one.
#[derive(Clone, Copy)]
pub struct Statement {
    pub from: u32,
    pub to: u32,
}
