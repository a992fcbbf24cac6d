// The types of signatures as a program has them (ECMA-335, II.23.2.12).
ghost use Rattle.std.specs.Prelude.{◌≡◌, ◌++◌, map, IfOk};
ghost use Rattle.cil_model.specs.declared.ty.Ty.{out-Ty};
ghost use Rattle.cli_sigs.specs.declared.types.SigTy.{out-SigTy};
ghost use Rattle.set_types.specs.CodedTypes.{coded_of};
ghost use Rattle.set_types.specs.SignatureTypes.{ty_within, layer_ty, coded_ty, instance_of, array_ty};

use crate::coded::CodedTypes;
use cil_base::Name;
use cil_model::{Ty, Tys};
use cli_sigs::SigTy;
use sqlite_items::Boxed;
use std::alloc::{AllocError, Global};

/// An instance of a type of the set with its arguments, where there are some; else the type itself.
fn instance_of(definition: Ty, args: Tys) -> Ty
    ensures { result ≡ instance_of args definition (out-Ty definition) }
{
    if args.len() == 0 {
        return definition;
    }
    match definition {
        Ty::Known(k) => Ty::Inst { ty: k, args },
        other => other,
    }
}

fn array_type(alloc: Global) -> Result<Ty, AllocError>
    ensures { IfOk result (λ t. t ≡ array_ty) }
{
    Ok(Ty::Outside {
        name: Name::from_slice(alloc, b"System.Array")?,
        value: false,
    })
}

/// The types of a list, each nested at most `depth` deep.
#[cycle(reader)]
pub fn types_at(
    alloc: Global,
    coded: &CodedTypes,
    depth: u32,
    tys: &[SigTy],
) -> Result<Tys, AllocError>
    ensures { IfOk result (λ ts. ts ≡ map (ty_within (coded_of coded.now) depth) tys.now) }
{
    let mut read = Tys::new(alloc);
    for ty in tys {
        read.push(type_at(alloc, coded, depth, ty)?)?;
    }
    Ok(read)
}

/// The type of a coded index; what stands in a TypeSpec row is nested at most `depth` deep.
#[cycle(reader)]
fn coded_at(alloc: Global, coded: &CodedTypes, depth: u32, index: u32) -> Result<Ty, AllocError>
    ensures { IfOk result (λ t. t ≡ coded_ty (coded_of coded.now) (ty_within (coded_of coded.now) depth) index) }
{
    if index % 4 == 2 {
        return match coded.spec(index / 4) {
            None => Ok(Ty::Opaque),
            Some(ty) => type_at(alloc, coded, depth, ty),
        };
    }
    match coded.named(index) {
        None => Ok(Ty::Opaque),
        Some(ty) => ty.copied(alloc),
    }
}

/// A type whose parts are nested at most `depth` deep.
#[cycle(reader)]
fn layer_at(alloc: Global, coded: &CodedTypes, depth: u32, ty: &SigTy) -> Result<Ty, AllocError>
    ensures { IfOk result (λ t. t ≡ layer_ty (coded_of coded.now) (ty_within (coded_of coded.now) depth) (out-SigTy ty.now)) }
{
    match ty {
        SigTy::Prim(b) => Ok(Ty::Prim(*b)),
        SigTy::Ptr(_) => Ok(Ty::Opaque),
        SigTy::ByRef(inner) => {
            let inner = type_at(alloc, coded, depth, inner.get())?;
            Ok(Ty::ByRef(Boxed::new(alloc, inner)?))
        }
        SigTy::Named {
            value: _,
            coded: index,
        } => coded_at(alloc, coded, depth, *index),
        SigTy::Var(n) => Ok(Ty::Var(*n)),
        SigTy::MVar(n) => Ok(Ty::MVar(*n)),
        SigTy::Array {
            item: _,
            rank: _,
            sizes: _,
            lows: _,
        } => array_type(alloc),
        SigTy::Inst {
            value: _,
            coded: index,
            args,
        } => {
            let args = types_at(alloc, coded, depth, args.as_slice())?;
            let definition = coded_at(alloc, coded, depth, *index)?;
            Ok(instance_of(definition, args))
        }
        SigTy::Func(_) => Ok(Ty::Opaque),
        SigTy::SzArray(inner) => {
            let inner = type_at(alloc, coded, depth, inner.get())?;
            Ok(Ty::Array(Boxed::new(alloc, inner)?))
        }
        SigTy::Modified {
            required: _,
            coded: _,
            inner,
        } => { type_at(alloc, coded, depth, inner.get()) }
        SigTy::Pinned(inner) => type_at(alloc, coded, depth, inner.get()),
    }
}

/// The type of a signature that is nested at most `depth` deep, TypeSpec rows included.
#[cycle(reader)]
#[tactic(auto, unfolding(crate::specs::SignatureTypes::ty_within))]
pub fn type_at(alloc: Global, coded: &CodedTypes, depth: u32, ty: &SigTy) -> Result<Ty, AllocError>
    ensures { IfOk result (λ t. t ≡ ty_within (coded_of coded.now) depth ty.now) }
{
    if depth == 0 {
        return Ok(Ty::Opaque);
    }
    layer_at(alloc, coded, depth - 1, ty)
}
