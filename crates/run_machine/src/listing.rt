// The pieces of a call: of kept clauses, and of their old values (Code Contracts User Manual, section 2.2).

ghost use Rattle.std.specs.Prelude.{◌≡◌, ◌+◌, ◌++◌, filter, IfOk, OnOk};
ghost use Rattle.cil_semantics.specs.Contracted.{Piece as PieceOf, captures_from, captures_of, each_captured, is_pre, is_ensures, is_throws, pieces_from};
ghost use Rattle.run_machine.specs.Machines.{keeps};

use crate::piece::Piece;
use check_plan::is_kept;
use cil_model::{Clause, Old, Settings};
use std::alloc::{AllocError, Global};

/// So many more; want of memory where no list can be as long.
pub(crate) fn more(count: u64, len: usize) -> Result<u64, AllocError>
    ensures { IfOk result (λ n. n ≡ count + len) }
{
    match count.checked_add(len as u64) {
        Some(n) => Ok(n),
        None => Err(AllocError),
    }
}

/// The kept clauses of a list, where so many locals and captured values stand before them.
pub(crate) fn kept_pieces<'a>(
    alloc: Global,
    settings: Settings,
    visible: bool,
    clauses: &'a [Clause],
    locals: u64,
    captured: u64,
) -> Result<Vec<Piece<'a>>, AllocError>
    ensures { IfOk result (λ pieces. pieces.items ≡ pieces_from (keeps settings visible) locals captured clauses.now) }
{
    let mut pieces = Vec::new(alloc);
    let mut first_local = locals;
    let mut first_captured = captured;
    for clause in clauses {
        if is_kept(settings, visible, clause.kind) {
            pieces.push(Piece {
                clause,
                from: 0,
                first_local,
                first_captured,
                captures: None,
            })?;
            first_local = more(first_local, clause.locals.len())?;
            first_captured = more(first_captured, clause.olds.len())?;
        }
    }
    Ok(pieces)
}

/// Appends the old values of a clause, of which the first is captured at this number.
fn push_olds<'a>(
    out: &mut Vec<Piece<'a>>,
    piece: &Piece<'a>,
    olds: &[Old],
) -> Result<(), AllocError>
    ensures { OnOk result (out.new.items ≡ out.old.items ++ captures_from piece.now piece.now.first_captured olds.now) }
{
    let mut number = piece.first_captured;
    for old in olds {
        out.push(Piece {
            clause: piece.clause,
            from: old.from,
            first_local: piece.first_local,
            first_captured: piece.first_captured,
            captures: Some(number),
        })?;
        number = more(number, 1)?;
    }
    Ok(())
}

fn push_captures<'a>(out: &mut Vec<Piece<'a>>, piece: &Piece<'a>) -> Result<(), AllocError>
    ensures { OnOk result (out.new.items ≡ out.old.items ++ captures_of piece.now) }
{
    if piece.is_ensures() || piece.is_throws() {
        push_olds(out, piece, piece.clause.olds.as_slice())?;
    }
    Ok(())
}

/// The preconditions of a call, and then the captures of its old values.
pub(crate) fn entry_pieces<'a>(
    alloc: Global,
    pieces: &[Piece<'a>],
) -> Result<Vec<Piece<'a>>, AllocError>
    ensures { IfOk result (λ group. group.items ≡ filter is_pre pieces.now ++ each_captured pieces.now) }
{
    let mut group = Vec::new(alloc);
    for piece in pieces {
        if piece.is_pre() {
            group.push(piece.again())?;
        }
    }
    for piece in pieces {
        push_captures(&mut group, piece)?;
    }
    Ok(group)
}

/// The postconditions of a call.
pub(crate) fn exit_pieces<'a>(
    alloc: Global,
    pieces: &[Piece<'a>],
) -> Result<Vec<Piece<'a>>, AllocError>
    ensures { IfOk result (λ group. group.items ≡ filter is_ensures pieces.now) }
{
    let mut group = Vec::new(alloc);
    for piece in pieces {
        if piece.is_ensures() {
            group.push(piece.again())?;
        }
    }
    Ok(group)
}

/// What a call checks where an exception leaves it.
pub(crate) fn throw_pieces<'a>(
    alloc: Global,
    pieces: &[Piece<'a>],
) -> Result<Vec<Piece<'a>>, AllocError>
    ensures { IfOk result (λ group. group.items ≡ filter is_throws pieces.now) }
{
    let mut group = Vec::new(alloc);
    for piece in pieces {
        if piece.is_throws() {
            group.push(piece.again())?;
        }
    }
    Ok(group)
}
