// The arguments of the instance that a type is (ECMA-335, II.23.2.12).
ghost use Rattle.std.specs.Prelude.{◌≡◌, option_and_then, IfOk};
ghost use Rattle.cli_sigs.specs.declared.types.SigTy.{out-SigTy};
ghost use Rattle.set_types.specs.CodedTypes.{coded_of};
ghost use Rattle.member_table.specs.Environments.{or_else, in_coded, layer_arguments, arguments_within, arguments_at, coded_ty_at, definition_of};

use crate::copies::copied_types;
use cil_model::Ty;
use cli_sigs::{SigTy, SigTys};
use member_table::coded_type;
use set_types::CodedTypes;
use std::alloc::{AllocError, Global};

fn or_else<'c>(first: &'c [SigTy], other: &'c [SigTy]) -> &'c [SigTy]
    ensures { result.now ≡ or_else first.now other.now }
{
    if first.len() == 0 {
        return other;
    }
    first
}

#[cycle(arguments)]
fn layer_arguments<'c>(coded: &'c CodedTypes, depth: u32, ty: &'c SigTy) -> &'c [SigTy]
    ensures { result.now ≡ layer_arguments (coded_of coded.now) (arguments_within (coded_of coded.now) depth) (out-SigTy ty.now) }
{
    match ty {
        SigTy::Named {
            value: _,
            coded: index,
        } => coded_arguments(coded, depth, *index),
        SigTy::Inst {
            value: _,
            coded: index,
            args,
        } => or_else(coded_arguments(coded, depth, *index), args.as_slice()),
        SigTy::Modified {
            required: _,
            coded: _,
            inner,
        } => arguments_within(coded, depth, inner.get()),
        SigTy::Pinned(inner) => arguments_within(coded, depth, inner.get()),
        _ => &[],
    }
}

/// The arguments of the instance that a type is, where at most `depth` TypeSpec rows and modifiers
/// are read.
#[cycle(arguments)]
fn arguments_within<'c>(coded: &'c CodedTypes, depth: u32, ty: &'c SigTy) -> &'c [SigTy]
    ensures { result.now ≡ arguments_within (coded_of coded.now) depth ty.now }
{
    if depth == 0 {
        return &[];
    }
    layer_arguments(coded, depth - 1, ty)
}

/// Those of the type that a TypeDefOrRef index names.
#[cycle(arguments)]
fn coded_arguments<'c>(coded: &'c CodedTypes, depth: u32, index: u32) -> &'c [SigTy]
    ensures { result.now ≡ in_coded (coded_of coded.now) (arguments_within (coded_of coded.now) depth) index }
{
    if index % 4 != 2 {
        return &[];
    }
    match coded.spec(index / 4) {
        None => &[],
        Some(ty) => arguments_within(coded, depth, ty),
    }
}

/// Those of the type that a TypeDefOrRef index names, as a list of their own.
pub fn arguments_at(alloc: Global, coded: &CodedTypes, index: u32) -> Result<SigTys, AllocError>
    ensures { IfOk result (λ ts. ts ≡ arguments_at (coded_of coded.now) index) }
{
    copied_types(alloc, coded_arguments(coded, 1000, index))
}

/// The number of a type of the set.
fn definition_of(ty: &Ty) -> Option<u32>
    ensures { result ≡ definition_of ty.now }
{
    match ty {
        Ty::Known(k) => Some(*k),
        Ty::Inst { ty: k, args: _ } => Some(*k),
        _ => None,
    }
}

/// The number of the type that a TypeDefOrRef index names, where that is of the set.
pub fn base_at(alloc: Global, coded: &CodedTypes, index: u32) -> Result<Option<u32>, AllocError>
    ensures { IfOk result (λ k. k ≡ option_and_then definition_of (coded_ty_at (coded_of coded.now) index)) }
{
    match coded_type(alloc, coded, index)? {
        None => Ok(None),
        Some(ty) => Ok(definition_of(&ty)),
    }
}
