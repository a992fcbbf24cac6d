// Whether arguments and parameters fit in a signature (ECMA-335, II.9.2, II.22.20).
ghost use Rattle.std.specs.Prelude.{◌≡◌, length};
ghost use Rattle.cli_sigs.specs.declared.types.SigTy.{out-SigTy};
ghost use Rattle.set_types.specs.CodedTypes.{coded_of};
ghost use Rattle.set_types.specs.SignatureRules.{any, method_types, isnt_count, miscounts, miscounts_within, strays, strays_within, through};
ghost use Rattle.signature_rules.specs.ParameterCounts.{count_of};

use crate::parameter_counts::ParameterCounts;
use cli_sigs::{MethodSig, SigTy};
use set_types::CodedTypes;

/// Whether an instance of a type of the set with a wrong number of arguments stands in one of the
/// types, each nested at most `depth` deep.
#[cycle(counter)]
pub fn any_miscounts(parameters: &ParameterCounts, depth: u32, tys: &[SigTy]) -> bool
    ensures { result ≡ any (miscounts_within (count_of parameters.now) depth) tys.now }
{
    for ty in tys {
        if is_miscount(parameters, depth, ty) {
            return true;
        }
    }
    false
}

#[cycle(counter)]
fn method_miscounts(parameters: &ParameterCounts, depth: u32, sig: &MethodSig) -> bool
    ensures { result ≡ any (miscounts_within (count_of parameters.now) depth) (method_types sig.now) }
{
    is_miscount(parameters, depth, &sig.result)
        || any_miscounts(parameters, depth, sig.params.as_slice())
}

fn isnt_count(arguments: usize, count: Option<u32>) -> bool
    ensures { result ≡ isnt_count arguments count }
{
    match count {
        None => false,
        Some(count) => arguments != count as usize,
    }
}

#[cycle(counter)]
fn layer_miscounts(parameters: &ParameterCounts, depth: u32, ty: &SigTy) -> bool
    ensures { result ≡ miscounts (count_of parameters.now) (miscounts_within (count_of parameters.now) depth) (out-SigTy ty.now) }
{
    match ty {
        SigTy::Prim(_) => false,
        SigTy::Ptr(inner) => is_miscount(parameters, depth, inner.get()),
        SigTy::ByRef(inner) => is_miscount(parameters, depth, inner.get()),
        SigTy::Named { value: _, coded: _ } => false,
        SigTy::Var(_) => false,
        SigTy::MVar(_) => false,
        SigTy::Array {
            item,
            rank: _,
            sizes: _,
            lows: _,
        } => is_miscount(parameters, depth, item.get()),
        SigTy::Inst {
            value: _,
            coded,
            args,
        } => {
            isnt_count(args.len(), parameters.count(*coded))
                || any_miscounts(parameters, depth, args.as_slice())
        }
        SigTy::Func(sig) => method_miscounts(parameters, depth, sig.get()),
        SigTy::SzArray(inner) => is_miscount(parameters, depth, inner.get()),
        SigTy::Modified {
            required: _,
            coded: _,
            inner,
        } => is_miscount(parameters, depth, inner.get()),
        SigTy::Pinned(inner) => is_miscount(parameters, depth, inner.get()),
    }
}

#[cycle(counter)]
#[tactic(auto, unfolding(set_types::specs::SignatureRules::miscounts_within))]
fn is_miscount(parameters: &ParameterCounts, depth: u32, ty: &SigTy) -> bool
    ensures { result ≡ miscounts_within (count_of parameters.now) depth ty.now }
{
    if depth == 0 {
        return false;
    }
    layer_miscounts(parameters, depth - 1, ty)
}

/// Whether a parameter of the type that isn't among its `n`, or one of the method that isn't among
/// its `m`, stands in one of the types, each nested at most `depth` deep with TypeSpec rows read.
#[cycle(strayer)]
pub fn any_strays(coded: &CodedTypes, n: u32, m: u32, depth: u32, tys: &[SigTy]) -> bool
    ensures { result ≡ any (strays_within (coded_of coded.now) n m depth) tys.now }
{
    for ty in tys {
        if is_stray(coded, n, m, depth, ty) {
            return true;
        }
    }
    false
}

#[cycle(strayer)]
fn method_strays(coded: &CodedTypes, n: u32, m: u32, depth: u32, sig: &MethodSig) -> bool
    ensures { result ≡ any (strays_within (coded_of coded.now) n m depth) (method_types sig.now) }
{
    is_stray(coded, n, m, depth, &sig.result)
        || any_strays(coded, n, m, depth, sig.params.as_slice())
}

/// What stands in a TypeSpec row.
#[cycle(strayer)]
fn spec_strays(coded: &CodedTypes, n: u32, m: u32, depth: u32, index: u32) -> bool
    ensures { result ≡ through (coded_of coded.now) (strays_within (coded_of coded.now) n m depth) index }
{
    if index % 4 != 2 {
        return false;
    }
    match coded.spec(index / 4) {
        None => false,
        Some(ty) => is_stray(coded, n, m, depth, ty),
    }
}

#[cycle(strayer)]
fn layer_strays(coded: &CodedTypes, n: u32, m: u32, depth: u32, ty: &SigTy) -> bool
    ensures { result ≡ strays (coded_of coded.now) n m (strays_within (coded_of coded.now) n m depth) (out-SigTy ty.now) }
{
    match ty {
        SigTy::Prim(_) => false,
        SigTy::Ptr(inner) => is_stray(coded, n, m, depth, inner.get()),
        SigTy::ByRef(inner) => is_stray(coded, n, m, depth, inner.get()),
        SigTy::Named {
            value: _,
            coded: index,
        } => spec_strays(coded, n, m, depth, *index),
        SigTy::Var(k) => *k >= n,
        SigTy::MVar(k) => *k >= m,
        SigTy::Array {
            item,
            rank: _,
            sizes: _,
            lows: _,
        } => is_stray(coded, n, m, depth, item.get()),
        SigTy::Inst {
            value: _,
            coded: index,
            args,
        } => {
            spec_strays(coded, n, m, depth, *index)
                || any_strays(coded, n, m, depth, args.as_slice())
        }
        SigTy::Func(sig) => method_strays(coded, n, m, depth, sig.get()),
        SigTy::SzArray(inner) => is_stray(coded, n, m, depth, inner.get()),
        SigTy::Modified {
            required: _,
            coded: index,
            inner,
        } => {
            spec_strays(coded, n, m, depth, *index) || is_stray(coded, n, m, depth, inner.get())
        }
        SigTy::Pinned(inner) => is_stray(coded, n, m, depth, inner.get()),
    }
}

#[cycle(strayer)]
#[tactic(auto, unfolding(set_types::specs::SignatureRules::strays_within))]
fn is_stray(coded: &CodedTypes, n: u32, m: u32, depth: u32, ty: &SigTy) -> bool
    ensures { result ≡ strays_within (coded_of coded.now) n m depth ty.now }
{
    if depth == 0 {
        return false;
    }
    layer_strays(coded, n, m, depth - 1, ty)
}
