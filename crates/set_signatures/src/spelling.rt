// Signatures as numbers, by which they are compared.
ghost use Rattle.std.specs.Prelude.{◌≡◌, ◌++◌, ◌∷◌, [], IfOk, OnOk};
ghost use Rattle.cli_sigs.specs.declared.types.SigTy.{out-SigTy};
ghost use Rattle.cli_sigs.specs.declared.types.MethodSig.{out-MethodSig};
ghost use Rattle.cli_sigs.specs.Grammar.{named_byte, modifier_byte};
ghost use Rattle.set_types.specs.CodedTypes.{coded_of, named_row, number_row};
ghost use Rattle.set_signatures.specs.Spelling.{behind, followed, mark, parameter, spelled_named, spelled_coded, spelled_sizes, spelled_lows, spelled_all, spelled_open, spelled_layer, spelled_within, said};

use cil_base::U32s;
use cil_model::Ty;
use cli_sigs::{MethodSig, SigTy};
use set_types::CodedTypes;
use sqlite_items::at;
use std::alloc::AllocError;

fn spell_sizes(sizes: &[u32], out: &mut U32s) -> Result<(), AllocError>
    ensures { OnOk result (out.new ≡ out.old ++ spelled_sizes sizes.now) }
{
    for size in sizes {
        out.push(1)?;
        out.push(*size)?;
    }
    out.push(0)
}

fn spell_lows(lows: &[i32], out: &mut U32s) -> Result<(), AllocError>
    ensures { OnOk result (out.new ≡ out.old ++ spelled_lows lows.now) }
{
    for low in lows {
        out.push(if *low < 0 { 2 } else { 1 })?;
        out.push(low.unsigned_abs())?;
    }
    out.push(0)
}

fn spell_mark(sentinel: Option<u32>, out: &mut U32s) -> Result<(), AllocError>
    ensures { OnOk result (out.new ≡ out.old ++ mark sentinel) }
{
    match sentinel {
        None => out.push(0),
        Some(k) => {
            out.push(1)?;
            out.push(k)
        }
    }
}

/// The argument that stands for a parameter of a generic type, else the parameter itself.
fn spell_parameter(args: &[U32s], n: u32, out: &mut U32s) -> Result<(), AllocError>
    ensures { OnOk result (out.new ≡ out.old ++ parameter args.now n) }
{
    match at(args, n as usize) {
        None => {
            out.push(0x13)?;
            out.push(n)
        }
        Some(argument) => push_numbers(argument.as_slice(), out),
    }
}

fn push_numbers(numbers: &[u32], out: &mut U32s) -> Result<(), AllocError>
    ensures { OnOk result (out.new ≡ out.old ++ numbers.now) }
{
    for n in numbers {
        out.push(*n)?;
    }
    Ok(())
}

/// One byte for a type that has one, else the first byte and the number.
fn spell_named(
    coded: &CodedTypes,
    first: u8,
    index: u32,
    out: &mut U32s,
) -> Result<bool, AllocError>
    ensures { IfOk result (λ b. behind out.old (spelled_named first (number_row coded.now index) (named_row coded.now index)) ≡ said b out.new) }
{
    match coded.named(index) {
        None => Ok(false),
        Some(Ty::Prim(b)) => {
            out.push(*b as u32)?;
            Ok(true)
        }
        Some(_) => {
            match coded.number(index) {
                None => Ok(false),
                Some(k) => {
                    out.push(first as u32)?;
                    out.push(k)?;
                    Ok(true)
                }
            }
        }
    }
}

#[cycle(speller)]
fn spell_coded(
    coded: &CodedTypes,
    args: &[U32s],
    depth: u32,
    first: u8,
    index: u32,
    out: &mut U32s,
) -> Result<bool, AllocError>
    ensures { IfOk result (λ b. behind out.old (spelled_coded (coded_of coded.now) (spelled_within (coded_of coded.now) args.now depth) first index) ≡ said b out.new) }
{
    if index % 4 == 2 {
        return match coded.spec(index / 4) {
            None => Ok(false),
            Some(ty) => spell_type(coded, args, depth, ty, out),
        };
    }
    spell_named(coded, first, index, out)
}

/// The types of a list, and 0.
#[cycle(speller)]
fn spell_all(
    coded: &CodedTypes,
    args: &[U32s],
    depth: u32,
    tys: &[SigTy],
    out: &mut U32s,
) -> Result<bool, AllocError>
    ensures { IfOk result (λ b. behind out.old (spelled_all (spelled_within (coded_of coded.now) args.now depth) tys.now) ≡ said b out.new) }
{
    for ty in tys {
        if !spell_type(coded, args, depth, ty, out)? {
            return Ok(false);
        }
    }
    out.push(0)?;
    Ok(true)
}

#[cycle(speller)]
fn spell_open(
    coded: &CodedTypes,
    args: &[U32s],
    depth: u32,
    sig: &MethodSig,
    out: &mut U32s,
) -> Result<bool, AllocError>
    ensures { IfOk result (λ b. behind out.old (spelled_open (spelled_within (coded_of coded.now) args.now depth) (out-MethodSig sig.now)) ≡ said b out.new) }
{
    out.push(sig.flags as u32)?;
    out.push(sig.generics)?;
    spell_mark(sig.sentinel, out)?;
    if !spell_type(coded, args, depth, &sig.result, out)? {
        return Ok(false);
    }
    spell_all(coded, args, depth, sig.params.as_slice(), out)
}

/// A byte, and a type.
#[cycle(speller)]
fn spell_behind(
    coded: &CodedTypes,
    args: &[U32s],
    depth: u32,
    byte: u8,
    ty: &SigTy,
    out: &mut U32s,
) -> Result<bool, AllocError>
    ensures { IfOk result (λ b. behind out.old (behind (byte ∷ []) (spelled_within (coded_of coded.now) args.now depth ty.now)) ≡ said b out.new) }
{
    out.push(byte as u32)?;
    spell_type(coded, args, depth, ty, out)
}

#[cycle(speller)]
fn spell_instance(
    coded: &CodedTypes,
    args: &[U32s],
    depth: u32,
    byte: u8,
    index: u32,
    more: &[SigTy],
    out: &mut U32s,
) -> Result<bool, AllocError>
    ensures { IfOk result (λ b. behind out.old (behind (0x15 ∷ []) (followed (spelled_coded (coded_of coded.now) (spelled_within (coded_of coded.now) args.now depth) byte index) (spelled_all (spelled_within (coded_of coded.now) args.now depth) more.now))) ≡ said b out.new) }
{
    out.push(0x15)?;
    if !spell_coded(coded, args, depth, byte, index, out)? {
        return Ok(false);
    }
    spell_all(coded, args, depth, more, out)
}

#[cycle(speller)]
fn spell_function(
    coded: &CodedTypes,
    args: &[U32s],
    depth: u32,
    sig: &MethodSig,
    out: &mut U32s,
) -> Result<bool, AllocError>
    ensures { IfOk result (λ b. behind out.old (behind (0x1B ∷ []) (spelled_open (spelled_within (coded_of coded.now) args.now depth) (out-MethodSig sig.now))) ≡ said b out.new) }
{
    out.push(0x1B)?;
    spell_open(coded, args, depth, sig, out)
}

#[cycle(speller)]
fn spell_modified(
    coded: &CodedTypes,
    args: &[U32s],
    depth: u32,
    byte: u8,
    index: u32,
    inner: &SigTy,
    out: &mut U32s,
) -> Result<bool, AllocError>
    ensures { IfOk result (λ b. behind out.old (behind (byte ∷ []) (followed (spelled_coded (coded_of coded.now) (spelled_within (coded_of coded.now) args.now depth) 0x12 index) (spelled_within (coded_of coded.now) args.now depth inner.now))) ≡ said b out.new) }
{
    out.push(byte as u32)?;
    if !spell_coded(coded, args, depth, 0x12, index, out)? {
        return Ok(false);
    }
    spell_type(coded, args, depth, inner, out)
}

#[cycle(speller)]
fn spell_layer(
    coded: &CodedTypes,
    args: &[U32s],
    depth: u32,
    ty: &SigTy,
    out: &mut U32s,
) -> Result<bool, AllocError>
    ensures { IfOk result (λ b. behind out.old (spelled_layer (coded_of coded.now) args.now (spelled_within (coded_of coded.now) args.now depth) (out-SigTy ty.now)) ≡ said b out.new) }
{
    match ty {
        SigTy::Prim(b) => {
            out.push(*b as u32)?;
            Ok(true)
        }
        SigTy::Ptr(inner) => spell_behind(coded, args, depth, 0x0F, inner.get(), out),
        SigTy::ByRef(inner) => spell_behind(coded, args, depth, 0x10, inner.get(), out),
        SigTy::Named {
            value,
            coded: index,
        } => {
            spell_coded(
                coded,
                args,
                depth,
                if *value { 0x11 } else { 0x12 },
                *index,
                out,
            )
        }
        SigTy::Var(n) => {
            spell_parameter(args, *n, out)?;
            Ok(true)
        }
        SigTy::MVar(n) => {
            out.push(0x1E)?;
            out.push(*n)?;
            Ok(true)
        }
        SigTy::Array {
            item,
            rank,
            sizes,
            lows,
        } => {
            out.push(0x14)?;
            out.push(*rank)?;
            spell_sizes(sizes.as_slice(), out)?;
            spell_lows(lows.as_slice(), out)?;
            spell_type(coded, args, depth, item.get(), out)
        }
        SigTy::Inst {
            value,
            coded: index,
            args: more,
        } => {
            let byte = if *value { 0x11 } else { 0x12 };
            spell_instance(coded, args, depth, byte, *index, more.as_slice(), out)
        }
        SigTy::Func(sig) => spell_function(coded, args, depth, sig.get(), out),
        SigTy::SzArray(inner) => spell_behind(coded, args, depth, 0x1D, inner.get(), out),
        SigTy::Modified {
            required,
            coded: index,
            inner,
        } => {
            let byte = if *required { 0x1F } else { 0x20 };
            spell_modified(coded, args, depth, byte, *index, inner.get(), out)
        }
        SigTy::Pinned(inner) => spell_behind(coded, args, depth, 0x45, inner.get(), out),
    }
}

/// Appends the numbers of a type that is nested at most `depth` deep, TypeSpec rows included; false
/// where a coded type names no row or it is nested deeper.
#[cycle(speller)]
#[tactic(auto, unfolding(crate::specs::Spelling::spelled_within))]
pub fn spell_type(
    coded: &CodedTypes,
    args: &[U32s],
    depth: u32,
    ty: &SigTy,
    out: &mut U32s,
) -> Result<bool, AllocError>
    ensures { IfOk result (λ b. behind out.old (spelled_within (coded_of coded.now) args.now depth ty.now) ≡ said b out.new) }
{
    if depth == 0 {
        return Ok(false);
    }
    spell_layer(coded, args, depth - 1, ty, out)
}

/// Appends the numbers of the signature of a method or property.
pub fn spell_method(
    coded: &CodedTypes,
    args: &[U32s],
    sig: &MethodSig,
    out: &mut U32s,
) -> Result<bool, AllocError>
    ensures { IfOk result (λ b. behind out.old (spelled_open (spelled_within (coded_of coded.now) args.now 1000) (out-MethodSig sig.now)) ≡ said b out.new) }
{
    spell_open(coded, args, 1000, sig, out)
}
