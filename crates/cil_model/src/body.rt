// A method body: instructions, and the regions that guard them.

ghost use Rattle.std.specs.Prelude.{◌≡◌, IfOk};

use crate::ty::Under;
use cil_base::{Token, U32s};
use sqlite_items::{Boxed, Items};
use std::alloc::{AllocError, Global};

/// What an instruction is given (ECMA-335, III.1.9). Targets are places in the list of
/// instructions, tokens carry the assembly that they are of.
#[derive(Drop)]
pub enum Operand {
    Nothing,
    Int(i64),
    Index(u32),
    Target(u32),
    Targets(U32s),
    Tok { assembly: u32, token: Token },
}

/// One instruction with its prefixes. `op` is the code of its longest spelling, 0xFE00 and the
/// second byte where it has two. In `prefixes` 1 is `volatile.`, 2 `tail.`, 4 `readonly.`.
#[derive(Drop)]
pub struct Instr {
    pub op: u16,
    pub operand: Operand,
    pub constrained: Option<Token>,
    pub prefixes: u8,
    /// What stands for the type parameters in its tokens; None in a body as it was decoded.
    pub under: Option<Boxed<Under>>,
}

pub type Instrs = Items<Instr>;

/// How a region's handler is entered (ECMA-335, II.25.4.6).
#[derive(Drop)]
pub enum RegionKind {
    Catch(Token),
    Filter(u32),
    Finally,
    Fault,
}

/// A try block and its handler, by places in the list of instructions; each end is one past the
/// last.
#[derive(Drop)]
pub struct Region {
    pub kind: RegionKind,
    pub try_from: u32,
    pub try_to: u32,
    pub handler_from: u32,
    pub handler_to: u32,
}

pub type Regions = Items<Region>;

/// A method's code. `offsets` has the offset of each instruction in the code that was read.
#[derive(Drop)]
pub struct Body {
    pub instrs: Instrs,
    pub offsets: U32s,
    pub regions: Regions,
    pub locals: Option<Token>,
    pub max_stack: u16,
    pub init: bool,
}

impl Operand {
    /// An equal operand of its own. It takes memory where there is a list.
    pub fn copied(&self, alloc: Global) -> Result<Operand, AllocError>
        ensures { IfOk result (λ copy. copy ≡ self.now) }
    {
        match self {
            Operand::Nothing => Ok(Operand::Nothing),
            Operand::Int(z) => Ok(Operand::Int(*z)),
            Operand::Index(k) => Ok(Operand::Index(*k)),
            Operand::Target(k) => Ok(Operand::Target(*k)),
            Operand::Targets(ks) => Ok(Operand::Targets(U32s::from_slice(alloc, ks.as_slice())?)),
            Operand::Tok { assembly, token } => Ok(Operand::Tok {
                assembly: *assembly,
                token: *token,
            }),
        }
    }
}

fn copied_under(
    alloc: Global,
    under: &Option<Boxed<Under>>,
) -> Result<Option<Boxed<Under>>, AllocError>
    ensures { IfOk result (λ copy. copy ≡ under.now) }
{
    match under {
        None => Ok(None),
        Some(under) => {
            let copy = under.get().copied(alloc)?;
            Ok(Some(Boxed::new(alloc, copy)?))
        }
    }
}

impl Instr {
    /// An equal instruction of its own.
    pub fn copied(&self, alloc: Global) -> Result<Instr, AllocError>
        ensures { IfOk result (λ copy. copy ≡ self.now) }
    {
        Ok(Instr {
            op: self.op,
            operand: self.operand.copied(alloc)?,
            constrained: self.constrained,
            prefixes: self.prefixes,
            under: copied_under(alloc, &self.under)?,
        })
    }
}
