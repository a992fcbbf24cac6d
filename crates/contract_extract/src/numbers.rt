// Clauses, each with its number among those of its word.

ghost use Rattle.std.specs.Prelude.{◌≡◌, ◌+◌, ◌<◌, ◌^◌, IfOk};
ghost use Rattle.contract_extract.specs.Clauses.{number_of, one_more, no_numbers, counted, counted_from};

use cil_model::ClauseKind;
use contract_parts::Segment;
use std::alloc::{AllocError, Global};

/// How many clauses of each word of a label there are.
#[derive(Clone, Copy)]
pub struct Numbers {
    pub preconditions: usize,
    pub postconditions: usize,
    pub throws: usize,
    pub invariants: usize,
    pub asserts: usize,
    pub assumes: usize,
}

/// A segment whose call ends a clause.
#[derive(Clone, Copy)]
pub struct Ended {
    pub segment: Segment,
    pub kind: ClauseKind,
}

/// The same with the clause's number among those of its word.
#[derive(Clone, Copy)]
pub struct Counted {
    pub segment: Segment,
    pub kind: ClauseKind,
    pub number: usize,
}

impl Numbers {
    fn none() -> Numbers
        ensures { result ≡ no_numbers }
    {
        Numbers {
            preconditions: 0,
            postconditions: 0,
            throws: 0,
            invariants: 0,
            asserts: 0,
            assumes: 0,
        }
    }

    fn of(&self, kind: ClauseKind) -> usize
        ensures { result ≡ number_of self.now kind }
    {
        match kind {
            ClauseKind::Requires | ClauseKind::RequiresOf => self.preconditions,
            ClauseKind::Ensures => self.postconditions,
            ClauseKind::Throws => self.throws,
            ClauseKind::Invariant => self.invariants,
            ClauseKind::Assert => self.asserts,
            ClauseKind::Assume => self.assumes,
        }
    }

    fn count(&mut self, kind: ClauseKind)
        requires { number_of self.old kind + 1 < 2 ^ 64 }
        ensures { self.new ≡ one_more self.old kind }
    {
        match kind {
            ClauseKind::Requires | ClauseKind::RequiresOf => self.preconditions += 1,
            ClauseKind::Ensures => self.postconditions += 1,
            ClauseKind::Throws => self.throws += 1,
            ClauseKind::Invariant => self.invariants += 1,
            ClauseKind::Assert => self.asserts += 1,
            ClauseKind::Assume => self.assumes += 1,
        }
    }
}

/// Each clause with its number.
pub(crate) fn count_all(alloc: Global, ended: &[Ended]) -> Result<Vec<Counted>, AllocError>
    ensures { IfOk result (λ out. out.items ≡ counted ended.now) }
{
    let mut numbers = Numbers::none();
    let mut out = Vec::new(alloc);
    for one in ended {
        out.push(Counted {
            segment: one.segment,
            kind: one.kind,
            number: numbers.of(one.kind),
        })?;
        numbers.count(one.kind);
    }
    Ok(out)
}
