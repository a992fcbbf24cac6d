// The coded types that signatures say to be value types (ECMA-335, II.23.1.16, II.23.2.12).
ghost use Rattle.std.specs.Prelude.{◌≡◌, ◌++◌, ◌∷◌, [], flat_map, if◌then◌else◌, OnOk};
ghost use Rattle.cli_sigs.specs.declared.types.SigTy.{out-SigTy};
ghost use Rattle.set_types.specs.SignatureRules.{method_types, open_values, values_within};

use cil_base::U32s;
use cli_sigs::{MethodSig, SigTy};
use std::alloc::AllocError;

#[cycle(values)]
fn push_all(depth: u32, tys: &[SigTy], out: &mut U32s) -> Result<(), AllocError>
    ensures { OnOk result (out.new ≡ out.old ++ flat_map (values_within depth) tys.now) }
{
    for ty in tys {
        push_values(depth, ty, out)?;
    }
    Ok(())
}

#[cycle(values)]
fn push_method(depth: u32, sig: &MethodSig, out: &mut U32s) -> Result<(), AllocError>
    ensures { OnOk result (out.new ≡ out.old ++ flat_map (values_within depth) (method_types sig.now)) }
{
    push_values(depth, &sig.result, out)?;
    push_all(depth, sig.params.as_slice(), out)
}

fn push_named(value: bool, coded: u32, out: &mut U32s) -> Result<(), AllocError>
    ensures { OnOk result (out.new ≡ out.old ++ (if value then coded ∷ [] else [])) }
{
    if value {
        out.push(coded)?;
    }
    Ok(())
}

#[cycle(values)]
fn push_layer(depth: u32, ty: &SigTy, out: &mut U32s) -> Result<(), AllocError>
    ensures { OnOk result (out.new ≡ out.old ++ open_values (values_within depth) (out-SigTy ty.now)) }
{
    match ty {
        SigTy::Prim(_) => Ok(()),
        SigTy::Ptr(inner) => push_values(depth, inner.get(), out),
        SigTy::ByRef(inner) => push_values(depth, inner.get(), out),
        SigTy::Named { value, coded } => push_named(*value, *coded, out),
        SigTy::Var(_) => Ok(()),
        SigTy::MVar(_) => Ok(()),
        SigTy::Array {
            item,
            rank: _,
            sizes: _,
            lows: _,
        } => push_values(depth, item.get(), out),
        SigTy::Inst { value, coded, args } => {
            push_named(*value, *coded, out)?;
            push_all(depth, args.as_slice(), out)
        }
        SigTy::Func(sig) => push_method(depth, sig.get(), out),
        SigTy::SzArray(inner) => push_values(depth, inner.get(), out),
        SigTy::Modified {
            required: _,
            coded: _,
            inner,
        } => push_values(depth, inner.get(), out),
        SigTy::Pinned(inner) => push_values(depth, inner.get(), out),
    }
}

/// Appends the TypeDefOrRef indexes that stand behind VALUETYPE in a type that is nested at most
/// `depth` deep.
#[cycle(values)]
#[tactic(auto, unfolding(set_types::specs::SignatureRules::values_within))]
pub fn push_values(depth: u32, ty: &SigTy, out: &mut U32s) -> Result<(), AllocError>
    ensures { OnOk result (out.new ≡ out.old ++ values_within depth ty.now) }
{
    if depth == 0 {
        return Ok(());
    }
    push_layer(depth - 1, ty, out)
}
