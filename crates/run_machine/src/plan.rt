// The plan of a call that goes by a contract (Code Contracts User Manual, section 6.2).

ghost use Rattle.std.specs.Prelude.{◌≡◌, ◌+◌, length, slice_get, IfOk};
ghost use Rattle.std.specs.Option.{option_copied};
ghost use Rattle.cil_semantics.specs.Contracted.{locals_of, olds_of, pieces, pieces_from, plan_of};
ghost use Rattle.run_machine.specs.Machines.{keeps};

use crate::listing::{entry_pieces, exit_pieces, kept_pieces, more, throw_pieces};
use crate::piece::Piece;
use cil_model::{Effective, Group, Settings};
use std::alloc::{AllocError, Global};
use std::marker::Model;

/// The contract of a call: the kept clauses of a method and of its invariants, behind the locals of
/// its body, and the pieces of each group. It borrows the clauses.
#[derive(Drop)]
pub struct Plan<'a> {
    effective: &'a Effective,
    settings: Settings,
    clauses: Vec<Piece<'a>>,
    invariants: Vec<Piece<'a>>,
    entry: Vec<Piece<'a>>,
    exit: Vec<Piece<'a>>,
    throw: Vec<Piece<'a>>,
}

impl<'a> Model for Plan<'a> {
    ghost use Rattle.std.specs.Coded.{codes};
    ghost use Rattle.cil_model.specs.contracts.ty.Ty as ty;
    ghost use Rattle.cil_semantics.specs.Contracted as contracted;
    ghost use Rattle.run_machine.specs.Machines.{AreGroups};

    ghost Value = { contracted.Plan };

    ghost coded = { Prim.hlevel (codes, ty.the_row.coded) };

    ghost view = { λ p. record { effective = p.effective.now; settings = p.settings; clauses = p.clauses.items; invariants = p.invariants.items } };

    ghost invariant = { λ p. AreGroups p.clauses.items p.entry.items p.exit.items p.throw.items };
}

impl<'a> Plan<'a> {
    /// The pieces of a group, in order.
    pub fn pieces(&self, group: Group) -> &[Piece<'a>]
        ensures { result.now ≡ pieces self.now group }
    {
        match group {
            Group::Entry => self.entry.as_slice(),
            Group::Exit => self.exit.as_slice(),
            Group::Throw => self.throw.as_slice(),
            Group::Invariant => self.invariants.as_slice(),
            Group::Inline => &[],
        }
    }

    /// The piece of a number in a group.
    pub fn piece(&self, group: Group, number: usize) -> Option<&Piece<'a>>
        ensures { option_copied result ≡ slice_get (pieces self.now group) number }
    {
        self.pieces(group).get(number)
    }

    /// The kept clauses of the method, of all groups.
    pub fn clauses(&self) -> &[Piece<'a>]
        ensures { result.now ≡ self.now.clauses }
    {
        self.clauses.as_slice()
    }

    /// The effective contract.
    pub fn effective(&self) -> &'a Effective
        ensures { result.now ≡ self.now.effective }
    {
        self.effective
    }

    /// Where the lead-in ends and where the rest begins.
    pub fn parts(&self) -> (u32, u32)
        ensures { result ≡ (self.now.effective.lead_end, self.now.effective.rest_from) }
    {
        (self.effective.lead_end, self.effective.rest_from)
    }

    /// The settings of the run.
    pub fn settings(&self) -> Settings
        ensures { result ≡ self.now.settings }
    {
        self.settings
    }
}

/// How many locals these clauses have.
fn count_locals(pieces: &[Piece<'_>]) -> Result<u64, AllocError>
    ensures { IfOk result (λ n. n ≡ length (locals_of pieces.now)) }
{
    let mut count = 0;
    for piece in pieces {
        count = more(count, piece.clause.locals.len())?;
    }
    Ok(count)
}

/// How many old values these clauses have.
fn count_olds(pieces: &[Piece<'_>]) -> Result<u64, AllocError>
    ensures { IfOk result (λ n. n ≡ length (olds_of pieces.now)) }
{
    let mut count = 0;
    for piece in pieces {
        count = more(count, piece.clause.olds.len())?;
    }
    Ok(count)
}

/// The pieces of the invariants, behind those of the clauses.
fn invariant_pieces<'a>(
    alloc: Global,
    settings: Settings,
    visible: bool,
    locals: u64,
    effective: &'a Effective,
    clauses: &[Piece<'a>],
) -> Result<Vec<Piece<'a>>, AllocError>
    ensures { IfOk result (λ v. v.items ≡ pieces_from (keeps settings visible) (locals + length (locals_of clauses.now)) (length (olds_of clauses.now)) effective.now.invariants) }
{
    let own = count_locals(clauses)?;
    let Some(before) = locals.checked_add(own) else {
        return Err(AllocError);
    };
    let captured = count_olds(clauses)?;
    let invariants = effective.invariants.as_slice();
    let pieces = kept_pieces(alloc, settings, visible, invariants, before, captured)?;
    Ok(pieces)
}

/// The plan of an effective contract, for a method that is visible or not and whose body has so many locals.
pub(crate) fn plan_of<'a>(
    alloc: Global,
    settings: Settings,
    visible: bool,
    locals: u64,
    effective: &'a Effective,
) -> Result<Plan<'a>, AllocError>
    ensures { IfOk result (λ plan. plan ≡ plan_of settings visible locals effective.now) }
{
    let kept = effective.clauses.as_slice();
    let clauses = kept_pieces(alloc, settings, visible, kept, locals, 0)?;
    let invariants = invariant_pieces(
        alloc,
        settings,
        visible,
        locals,
        effective,
        clauses.as_slice(),
    )?;
    let entry = entry_pieces(alloc, clauses.as_slice())?;
    let exit = exit_pieces(alloc, clauses.as_slice())?;
    let throw = throw_pieces(alloc, clauses.as_slice())?;
    Ok(Plan {
        effective,
        settings,
        clauses,
        invariants,
        entry,
        exit,
        throw,
    })
}
