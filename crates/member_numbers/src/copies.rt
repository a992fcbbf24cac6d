// Copies of the types of signatures (ECMA-335, II.23.2.12).
ghost use Rattle.std.specs.Prelude.{◌≡◌, IfOk};

use cil_base::{I32s, U32s};
use cli_sigs::{MethodSig, SigTy, SigTys};
use sqlite_items::Boxed;
use std::alloc::{AllocError, Global};

#[cycle(copies)]
fn copied_boxed(alloc: Global, ty: &Boxed<SigTy>) -> Result<Boxed<SigTy>, AllocError>
    ensures { IfOk result (λ copy. copy ≡ ty.now) }
{
    let inner = copied(alloc, ty.get())?;
    Boxed::new(alloc, inner)
}

#[cycle(copies)]
fn copied_signature(alloc: Global, sig: &Boxed<MethodSig>) -> Result<Boxed<MethodSig>, AllocError>
    ensures { IfOk result (λ copy. copy ≡ sig.now) }
{
    let of = sig.get();
    let result = copied(alloc, &of.result)?;
    let params = copied_types(alloc, of.params.as_slice())?;
    let copy = MethodSig {
        flags: of.flags,
        generics: of.generics,
        result,
        params,
        sentinel: of.sentinel,
    };
    Boxed::new(alloc, copy)
}

/// A type equal to another.
#[cycle(copies)]
fn copied(alloc: Global, ty: &SigTy) -> Result<SigTy, AllocError>
    ensures { IfOk result (λ copy. copy ≡ ty.now) }
{
    match ty {
        SigTy::Prim(b) => Ok(SigTy::Prim(*b)),
        SigTy::Ptr(inner) => Ok(SigTy::Ptr(copied_boxed(alloc, inner)?)),
        SigTy::ByRef(inner) => Ok(SigTy::ByRef(copied_boxed(alloc, inner)?)),
        SigTy::Named { value, coded } => Ok(SigTy::Named {
            value: *value,
            coded: *coded,
        }),
        SigTy::Var(n) => Ok(SigTy::Var(*n)),
        SigTy::MVar(n) => Ok(SigTy::MVar(*n)),
        SigTy::Array {
            item,
            rank,
            sizes,
            lows,
        } => Ok(SigTy::Array {
            item: copied_boxed(alloc, item)?,
            rank: *rank,
            sizes: U32s::from_slice(alloc, sizes.as_slice())?,
            lows: I32s::from_slice(alloc, lows.as_slice())?,
        }),
        SigTy::Inst { value, coded, args } => Ok(SigTy::Inst {
            value: *value,
            coded: *coded,
            args: copied_types(alloc, args.as_slice())?,
        }),
        SigTy::Func(sig) => Ok(SigTy::Func(copied_signature(alloc, sig)?)),
        SigTy::SzArray(inner) => Ok(SigTy::SzArray(copied_boxed(alloc, inner)?)),
        SigTy::Modified {
            required,
            coded,
            inner,
        } => Ok(SigTy::Modified {
            required: *required,
            coded: *coded,
            inner: copied_boxed(alloc, inner)?,
        }),
        SigTy::Pinned(inner) => Ok(SigTy::Pinned(copied_boxed(alloc, inner)?)),
    }
}

/// Types equal to others.
#[cycle(copies)]
pub fn copied_types(alloc: Global, types: &[SigTy]) -> Result<SigTys, AllocError>
    ensures { IfOk result (λ copy. copy ≡ types.now) }
{
    let mut copies = SigTys::new(alloc);
    for ty in types {
        copies.push(copied(alloc, ty)?)?;
    }
    Ok(copies)
}
