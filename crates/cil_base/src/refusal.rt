// Which rule an input breaks, and where.
ghost use Rattle.std.specs.Prelude.{◌≡◌, ◌<◌, ◌^◌};
ghost use Rattle.cil_base.specs.declared.refusal.Fault.TheVariants.{Refused, Memory};
ghost use Rattle.cil_base.specs.Refusals.{refusal, limit_refusal, assembly_place};

use crate::rule::Rule;
use std::alloc::AllocError;

/// Whose signature or body it is: an assembly of the command, from 0, and a row of its tables.
#[derive(Clone, Copy, Debug, PartialEq, Eq)]
pub struct Place {
    pub assembly: u32,
    pub table: u8,
    pub row: u32,
}

/// A broken rule, and where: `at` is an offset, a column, a length or a limit, as the rule says.
#[derive(Clone, Copy, Debug, PartialEq, Eq)]
pub struct Refusal {
    pub rule: Rule,
    pub assembly: u32,
    pub table: u8,
    pub row: u32,
    pub at: u32,
}

impl Place {
    /// A whole assembly, by its number in the command.
    pub fn of_assembly(assembly: u32) -> Place
        ensures { result ≡ assembly_place assembly }
    {
        Place {
            assembly,
            table: 0,
            row: 0,
        }
    }

    /// The refusal by a rule at an offset of this place.
    pub fn refusal(self, rule: Rule, at: u32) -> Refusal
        ensures { result ≡ refusal rule self at }
    {
        Refusal {
            rule,
            assembly: self.assembly,
            table: self.table,
            row: self.row,
            at,
        }
    }
}

impl Refusal {
    /// The refusal of what passes a limit; `at` is the first number that is too large.
    pub fn limit(rule: Rule, limit: u32) -> Refusal
        requires { limit < 2 ^ 31 }
        ensures { result ≡ limit_refusal rule limit }
    {
        Refusal {
            rule,
            assembly: 0,
            table: 0,
            row: 0,
            at: limit + 1,
        }
    }
}

/// Why a call gives no result.
#[derive(Debug, Drop)]
pub enum Fault {
    Refused(Refusal),
    Memory(AllocError),
}

impl From<AllocError> for Fault {
    ghost from_gives = { λ e f. f ≡ Memory e };

    fn from(e: AllocError) -> Self {
        Fault::Memory(e)
    }
}

impl From<Refusal> for Fault {
    ghost from_gives = { λ r f. f ≡ Refused r };

    fn from(r: Refusal) -> Self {
        Fault::Refused(r)
    }
}
