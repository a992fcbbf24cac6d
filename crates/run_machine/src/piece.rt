// A clause that a call runs, or the capture of one of its old values.

ghost use Rattle.std.specs.Prelude.{◌≡◌};
ghost use Rattle.cil_semantics.specs.Contracted.{is_pre, is_ensures, is_throws};

use cil_model::{Clause, ClauseKind};
use std::marker::Model;

/// A kept clause in a frame, or one of its old values: where it begins, where the clause's own
/// locals and captured values begin among the frame's, and for an old value its number among the
/// captured ones. It borrows the clause.
#[derive(Drop)]
pub struct Piece<'a> {
    pub(crate) clause: &'a Clause,
    pub(crate) from: u32,
    pub(crate) first_local: u64,
    pub(crate) first_captured: u64,
    pub(crate) captures: Option<u64>,
}

impl<'a> Model for Piece<'a> {
    ghost use Rattle.std.specs.Coded.{codes};
    ghost use Rattle.cil_model.specs.contracts.ty.Ty as ty;
    ghost use Rattle.cil_semantics.specs.Contracted as contracted;

    ghost Value = { contracted.Piece };

    ghost coded = { Prim.hlevel (codes, ty.the_row.coded) };

    ghost view = { λ p. record { clause = p.clause.now; from = p.from; first_local = p.first_local; first_captured = p.first_captured; captures = p.captures } };
}

impl<'a> Piece<'a> {
    /// The clause.
    pub fn clause(&self) -> &'a Clause
        ensures { result.now ≡ self.now.clause }
    {
        self.clause
    }

    /// The place in the clause's instructions at which the piece begins.
    pub fn from(&self) -> u32
        ensures { result ≡ self.now.from }
    {
        self.from
    }

    /// How many locals of the frame stand before the clause's own.
    pub fn first_local(&self) -> u64
        ensures { result ≡ self.now.first_local }
    {
        self.first_local
    }

    /// How many captured values of the frame stand before the clause's own.
    pub fn first_captured(&self) -> u64
        ensures { result ≡ self.now.first_captured }
    {
        self.first_captured
    }

    /// Of an old value its number among the frame's captured ones.
    pub fn captures(&self) -> Option<u64>
        ensures { result ≡ self.now.captures }
    {
        self.captures
    }

    /// The same piece once more.
    pub(crate) fn again(&self) -> Piece<'a>
        ensures { result ≡ self.now }
    {
        Piece {
            clause: self.clause,
            from: self.from,
            first_local: self.first_local,
            first_captured: self.first_captured,
            captures: self.captures,
        }
    }

    /// Whether it is a precondition.
    pub(crate) fn is_pre(&self) -> bool
        ensures { result ≡ is_pre self.now }
    {
        matches!(
            self.clause.kind,
            ClauseKind::Requires | ClauseKind::RequiresOf
        )
    }

    /// Whether it is an Ensures.
    pub(crate) fn is_ensures(&self) -> bool
        ensures { result ≡ is_ensures self.now }
    {
        matches!(self.clause.kind, ClauseKind::Ensures)
    }

    /// Whether it is an EnsuresOnThrow.
    pub(crate) fn is_throws(&self) -> bool
        ensures { result ≡ is_throws self.now }
    {
        matches!(self.clause.kind, ClauseKind::Throws)
    }
}
