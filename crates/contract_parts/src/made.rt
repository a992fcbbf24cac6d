// Locals that may hold a closure.

/// A local, the place of the instruction that makes its closure, and that of the `stloc`.
#[derive(Clone, Copy)]
pub struct Made {
    pub local: u32,
    pub maker: u32,
    pub place: u32,
}
