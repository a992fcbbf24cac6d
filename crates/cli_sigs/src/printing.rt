// Printers of types and methods (ECMA-335, II.23.2): the shortest spelling of each number.
ghost use Rattle.std.specs.Prelude.{◌≡◌, ◌+◌, ◌*◌, ◌/◌, ◌%◌, ◌<◌, ◌≤◌, pos, neg_ℤ, ◌≤ℤ◌, ◌<ℤ◌, ℕ, [], ◌∷◌, ◌++◌, length, List, true, OnOk, IfOk};
ghost use Rattle.std.specs.List.{All};
ghost use Rattle.cli_sigs.specs.declared.types.SigTy.{SigTy, out-SigTy};
ghost use Rattle.cli_sigs.specs.declared.types.MethodSig.{MethodSig};
ghost use Rattle.cli_sigs.specs.Methods.{is_generic};
ghost use Rattle.cli_sigs.specs.Numbers.{Shortest, IsNumber, IsSignedNumber, IsCodedBy, unrotated};
ghost use Rattle.cli_sigs.specs.Grammar.{Adds, Behind, CountedBy, Each, IsGenericsBy, IsParams, IsMethodBy, IsTypeBy, LayerBy, IsMethodSig, IsLocals, IsTypeSpec, IsMethodSpec, IsMethodSigBy, IsLocalsBy, IsTypeSpecBy, IsMethodSpecBy, named_byte, modifier_byte};
ghost use Rattle.cli_sigs.specs.Valid.{IsShort, IsShortCoded, IsShortSigned, Reaches, AllCounted, AreGenerics, StandsBefore, IsValidMethod, IsValidForm, IsValidType, IsValidMethodSig, AreValidLocals, IsValidTypeSpec, IsValidMethodSpec};

use crate::elements::{MethodKind, Slot};
use crate::reading::{SENTINEL, is_generic};
use crate::types::{MethodSig, SigTy, SigTys};
use cil_base::{Bytes, push_packed};
use std::alloc::{AllocError, Global};

/// How deep types may nest.
const MOST_NESTED: u32 = 1000;

/// VALUETYPE or CLASS.
fn named_byte(value: bool) -> u8
    ensures { result ≡ named_byte value }
{
    if value { 0x11 } else { 0x12 }
}

/// CMOD_REQD or CMOD_OPT.
fn modifier_byte(required: bool) -> u8
    ensures { result ≡ modifier_byte required }
{
    if required { 0x1F } else { 0x20 }
}

fn push_byte(out: &mut Vec<u8>, b: u8) -> Result<(), AllocError>
    ensures { OnOk result (out.new.items ≡ out.old.items ++ b ∷ []) }
{
    out.extend_from_slice(&[b])?;
    Ok(())
}

// ---- numbers

fn push_number(out: &mut Vec<u8>, n: u32) -> Result<(), AllocError>
    requires { IsShort n }
    ensures { OnOk result (Adds (IsNumber Shortest) out.old.items out.new.items n) }
{
    push_packed(out, n)
}

/// A byte and a number.
fn push_numbered(out: &mut Vec<u8>, first: u8, n: u32) -> Result<(), AllocError>
    requires { IsShort n }
    ensures { OnOk result (Adds (Behind first (IsNumber Shortest)) out.old.items out.new.items n) }
{
    push_byte(out, first)?;
    push_number(out, n)
}

/// A byte and a coded index.
fn push_coded(out: &mut Vec<u8>, first: u8, coded: u32) -> Result<(), AllocError>
    requires { IsShortCoded coded }
    ensures { OnOk result (Adds (Behind first (IsCodedBy Shortest)) out.old.items out.new.items coded) }
{
    push_byte(out, first)?;
    push_number(out, coded)
}

/// The unsigned number that is read as `z` where signed ones reach from -half to half - 1.
fn rotated(half: u32, z: i32) -> u32
    requires small { half ≤ 0x10000000 }
    requires within { Reaches half z }
    ensures below { result < 2 * half }
    ensures back { z ≡ unrotated half result }
{
    if z < 0 {
        2 * (z + half as i32) as u32 + 1
    } else {
        2 * z as u32
    }
}

/// What a half must be larger than so that `z` is in its reach.
fn reach(z: i32) -> u32
    requires { IsShortSigned z }
    ensures below { result < 0x10000000 }
    ensures within { (half : ℕ) → result < half → Reaches half z }
    ensures past { (half : ℕ) → Reaches half z → result < half }
{
    if z < 0 { (-1 - z) as u32 } else { z as u32 }
}

fn push_two(out: &mut Vec<u8>, n: u32) -> Result<(), AllocError>
    requires { n < 0x4000 }
    ensures { OnOk result (out.new.items ≡ out.old.items ++ (0x80 + n / 0x100) ∷ (n % 0x100) ∷ []) }
{
    out.extend_from_slice(&[(0x80 + n / 0x100) as u8, (n % 0x100) as u8])?;
    Ok(())
}

fn push_four(out: &mut Vec<u8>, n: u32) -> Result<(), AllocError>
    requires { n < 0x20000000 }
    ensures { OnOk result (out.new.items ≡ out.old.items ++ (0xC0 + n / 0x1000000) ∷ (n / 0x10000 % 0x100) ∷ (n / 0x100 % 0x100) ∷ (n % 0x100) ∷ []) }
{
    out.extend_from_slice(&[
        (0xC0 + n / 0x100_0000) as u8,
        (n / 0x1_0000 % 0x100) as u8,
        (n / 0x100 % 0x100) as u8,
        (n % 0x100) as u8,
    ])?;
    Ok(())
}

/// The shortest spelling that reaches so far.
fn push_signed(out: &mut Vec<u8>, z: i32) -> Result<(), AllocError>
    requires { IsShortSigned z }
    ensures { OnOk result (Adds (IsSignedNumber Shortest) out.old.items out.new.items z) }
{
    let reach = reach(z);
    if reach < 0x40 {
        return push_byte(out, rotated(0x40, z) as u8);
    }
    if reach < 0x2000 {
        return push_two(out, rotated(0x2000, z));
    }
    push_four(out, rotated(0x1000_0000, z))
}

/// A count and the numbers.
fn push_numbers(out: &mut Vec<u8>, numbers: &[u32]) -> Result<(), AllocError>
    requires { AllCounted IsShort numbers.now }
    ensures { OnOk result (Adds (CountedBy Shortest (IsNumber Shortest)) out.old.items out.new.items numbers.now) }
{
    push_number(out, numbers.len() as u32)?;
    push_each_number(out, numbers)
}

fn push_each_number(out: &mut Vec<u8>, numbers: &[u32]) -> Result<(), AllocError>
    requires { All IsShort numbers.now }
    ensures { OnOk result (Adds (Each (IsNumber Shortest)) out.old.items out.new.items numbers.now) }
{
    for n in numbers {
        push_number(out, *n)?;
    }
    Ok(())
}

/// A count and the lower bounds.
fn push_bounds(out: &mut Vec<u8>, bounds: &[i32]) -> Result<(), AllocError>
    requires { AllCounted IsShortSigned bounds.now }
    ensures { OnOk result (Adds (CountedBy Shortest (IsSignedNumber Shortest)) out.old.items out.new.items bounds.now) }
{
    push_number(out, bounds.len() as u32)?;
    push_each_bound(out, bounds)
}

fn push_each_bound(out: &mut Vec<u8>, bounds: &[i32]) -> Result<(), AllocError>
    requires { All IsShortSigned bounds.now }
    ensures { OnOk result (Adds (Each (IsSignedNumber Shortest)) out.old.items out.new.items bounds.now) }
{
    for bound in bounds {
        push_signed(out, *bound)?;
    }
    Ok(())
}

/// The number of generic parameters, where the flags have GENERIC.
fn push_generics(out: &mut Vec<u8>, generic: bool, n: u32) -> Result<(), AllocError>
    requires { AreGenerics generic n }
    ensures { OnOk result (Adds (IsGenericsBy Shortest generic) out.old.items out.new.items n) }
{
    if generic { push_number(out, n) } else { Ok(()) }
}

// ---- types and methods

#[cycle(printer)]
fn push_each_type(
    out: &mut Vec<u8>,
    depth: u32,
    slot: Slot,
    types: &[SigTy],
) -> Result<(), AllocError>
    requires { All (IsValidType depth slot) types.now }
    ensures { OnOk result (Adds (Each (IsTypeBy Shortest depth slot)) out.old.items out.new.items types.now) }
{
    for ty in types {
        push_type(out, depth, slot, ty)?;
    }
    Ok(())
}

/// A count and the types.
#[cycle(printer)]
fn push_types(out: &mut Vec<u8>, depth: u32, slot: Slot, types: &[SigTy]) -> Result<(), AllocError>
    requires { AllCounted (IsValidType depth slot) types.now }
    ensures { OnOk result (Adds (CountedBy Shortest (IsTypeBy Shortest depth slot)) out.old.items out.new.items types.now) }
{
    push_number(out, types.len() as u32)?;
    push_each_type(out, depth, slot, types)
}

/// The parameters, with SENTINEL where the signature has one.
#[cycle(printer)]
fn push_params(
    out: &mut Vec<u8>,
    depth: u32,
    params: &[SigTy],
    sentinel: Option<u32>,
) -> Result<(), AllocError>
    requires valid { All (IsValidType depth Slot.Param) params.now }
    requires marked { StandsBefore true (length params.now) sentinel }
    ensures { OnOk result (Adds (λ bytes ts. IsParams (IsTypeBy Shortest depth Slot.Param) true bytes ts sentinel) out.old.items out.new.items params.now) }
{
    match sentinel {
        None => push_each_type(out, depth, Slot::Param, params),
        Some(k) => {
            let (fixed, extra) = params.split_at(k as usize);
            push_each_type(out, depth, Slot::Param, fixed)?;
            push_byte(out, SENTINEL)?;
            push_each_type(out, depth, Slot::Param, extra)
        }
    }
}

/// A method whose types are nested at most `depth` deep.
#[cycle(printer)]
fn push_method(
    out: &mut Vec<u8>,
    depth: u32,
    kind: MethodKind,
    sig: &MethodSig,
) -> Result<(), AllocError>
    requires { IsValidMethod (IsValidType depth) kind sig.now }
    ensures { OnOk result (Adds (IsMethodBy Shortest (IsTypeBy Shortest depth) kind) out.old.items out.new.items sig.now) }
{
    push_byte(out, sig.flags)?;
    push_generics(out, is_generic(sig.flags), sig.generics)?;
    push_number(out, sig.params.len() as u32)?;
    push_type(out, depth, kind.result_slot(), &sig.result)?;
    push_params(out, depth, sig.params.as_slice(), sig.sentinel)
}

/// A byte, and behind it a type that is nested at most `depth` deep.
#[cycle(printer)]
fn push_behind(
    out: &mut Vec<u8>,
    first: u8,
    depth: u32,
    slot: Slot,
    ty: &SigTy,
) -> Result<(), AllocError>
    requires { IsValidType depth slot ty.now }
    ensures { OnOk result (Adds (Behind first (IsTypeBy Shortest depth slot)) out.old.items out.new.items ty.now) }
{
    push_byte(out, first)?;
    push_type(out, depth, slot, ty)
}

/// A type whose parts are nested at most `depth` deep.
#[cycle(printer)]
fn push_form(out: &mut Vec<u8>, depth: u32, slot: Slot, ty: &SigTy) -> Result<(), AllocError>
    requires { IsValidForm (IsValidType depth) slot (out-SigTy ty.now) }
    ensures { OnOk result (Adds (LayerBy Shortest (IsTypeBy Shortest depth) slot) out.old.items out.new.items ty.now) }
{
    match ty {
        SigTy::Prim(b) => push_byte(out, *b),
        SigTy::Ptr(inner) => push_behind(out, 0x0F, depth, Slot::Pointed, inner.get()),
        SigTy::ByRef(inner) => push_behind(out, 0x10, depth, Slot::Plain, inner.get()),
        SigTy::Named { value, coded } => push_coded(out, named_byte(*value), *coded),
        SigTy::Var(n) => push_numbered(out, 0x13, *n),
        SigTy::MVar(n) => push_numbered(out, 0x1E, *n),
        SigTy::Array {
            item,
            rank,
            sizes,
            lows,
        } => {
            push_behind(out, 0x14, depth, Slot::Plain, item.get())?;
            push_number(out, *rank)?;
            push_numbers(out, sizes.as_slice())?;
            push_bounds(out, lows.as_slice())
        }
        SigTy::Inst { value, coded, args } => {
            push_byte(out, 0x15)?;
            push_coded(out, named_byte(*value), *coded)?;
            push_types(out, depth, Slot::Plain, args.as_slice())
        }
        SigTy::Func(method) => {
            push_byte(out, 0x1B)?;
            push_method(out, depth, MethodKind::Pointer, method.get())
        }
        SigTy::SzArray(inner) => push_behind(out, 0x1D, depth, Slot::Plain, inner.get()),
        SigTy::Modified {
            required,
            coded,
            inner,
        } => {
            push_coded(out, modifier_byte(*required), *coded)?;
            push_type(out, depth, slot.slot_behind(), inner.get())
        }
        SigTy::Pinned(inner) => push_behind(out, 0x45, depth, slot.slot_behind(), inner.get()),
    }
}

/// A type that is nested at most `depth` deep.
#[cycle(printer)]
fn push_type(out: &mut Vec<u8>, depth: u32, slot: Slot, ty: &SigTy) -> Result<(), AllocError>
    requires { IsValidType depth slot ty.now }
    ensures { OnOk result (Adds (IsTypeBy Shortest depth slot) out.old.items out.new.items ty.now) }
{
    push_form(out, depth - 1, slot, ty)
}

// ---- blobs

/// A blob of the signature of a method or of a reference to one (II.23.2.1, II.23.2.2), which is
/// read back as `sig`.
pub fn print_method_sig(alloc: Global, sig: &MethodSig) -> Result<Bytes, AllocError>
    requires { IsValidMethodSig sig.now }
    ensures spelled { IfOk result (λ blob. IsMethodSig blob sig.now) }
    ensures shortest { IfOk result (λ blob. IsMethodSigBy Shortest blob sig.now) }
    ensures reads_back { IfOk result (λ blob. (read : MethodSig) → IsMethodSig blob read → read ≡ sig.now) }
{
    let mut out = Vec::new(alloc);
    push_method(&mut out, MOST_NESTED, MethodKind::Method, sig)?;
    Ok(Bytes::from_vec(out))
}

/// A blob of the types of a method's locals (II.23.2.6), which is read back as `types`.
pub fn print_locals(alloc: Global, types: &SigTys) -> Result<Bytes, AllocError>
    requires { AreValidLocals types.now }
    ensures spelled { IfOk result (λ blob. IsLocals blob types.now) }
    ensures shortest { IfOk result (λ blob. IsLocalsBy Shortest blob types.now) }
    ensures reads_back { IfOk result (λ blob. (read : List SigTy) → IsLocals blob read → read ≡ types.now) }
{
    let mut out = Vec::new(alloc);
    push_byte(&mut out, 0x07)?;
    push_types(&mut out, MOST_NESTED, Slot::Local, types.as_slice())?;
    Ok(Bytes::from_vec(out))
}

/// A blob of the type of a TypeSpec row (II.23.2.14), which is read back as `ty`.
pub fn print_type(alloc: Global, ty: &SigTy) -> Result<Bytes, AllocError>
    requires { IsValidTypeSpec ty.now }
    ensures spelled { IfOk result (λ blob. IsTypeSpec blob ty.now) }
    ensures shortest { IfOk result (λ blob. IsTypeSpecBy Shortest blob ty.now) }
    ensures reads_back { IfOk result (λ blob. (read : SigTy) → IsTypeSpec blob read → read ≡ ty.now) }
{
    let mut out = Vec::new(alloc);
    push_type(&mut out, MOST_NESTED, Slot::Plain, ty)?;
    Ok(Bytes::from_vec(out))
}

/// A blob of the arguments of a MethodSpec row (II.23.2.15), which is read back as `args`.
pub fn print_method_spec(alloc: Global, args: &SigTys) -> Result<Bytes, AllocError>
    requires { IsValidMethodSpec args.now }
    ensures spelled { IfOk result (λ blob. IsMethodSpec blob args.now) }
    ensures shortest { IfOk result (λ blob. IsMethodSpecBy Shortest blob args.now) }
    ensures reads_back { IfOk result (λ blob. (read : List SigTy) → IsMethodSpec blob read → read ≡ args.now) }
{
    let mut out = Vec::new(alloc);
    push_byte(&mut out, 0x0A)?;
    push_types(&mut out, MOST_NESTED, Slot::Plain, args.as_slice())?;
    Ok(Bytes::from_vec(out))
}
