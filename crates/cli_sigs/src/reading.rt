// Readers of types and methods (ECMA-335, II.23.2), from a slice to a value and what is left.
ghost use Rattle.std.specs.Prelude.{◌≡◌};
ghost use Rattle.std.specs.Option.{option_map};
ghost use Rattle.cli_sigs.specs.Read.{many, byte_where, with_front, behind};
ghost use Rattle.cli_sigs.specs.Methods.{may_begin, result_slot, is_generic, is_vararg};
ghost use Rattle.cli_sigs.specs.Reading.{Gives, type_at, type_after, leaf_after, bare_inst, array_of, inst_of, modified_of, counted, generics_after, open_params, params_after, method_at};

use crate::elements::{Element, MethodKind, Slot};
use crate::numbers::{
    Stop, coded_index, element, leaf_element, named_value, no_items, packed, packed_list,
    signed_list,
};
use crate::types::{MethodSig, SigTy, SigTys};
use sqlite_items::{Boxed, Items};
use std::alloc::Global;

/// The parameters of a method, and how many stand before SENTINEL.
#[derive(Drop)]
pub struct Params {
    pub types: SigTys,
    pub sentinel: Option<u32>,
}

/// SENTINEL.
pub const SENTINEL: u8 = 0x41;

pub fn is_generic(flags: u8) -> bool
    ensures { result ≡ is_generic flags }
{
    flags & 0x10 != 0
}

fn is_vararg(flags: u8) -> bool
    ensures { result ≡ is_vararg flags }
{
    flags & 0x0F == 0x05
}

/// What stands behind SENTINEL, where the bytes begin with it.
fn after_sentinel(bytes: &[u8]) -> Option<&[u8]>
    ensures { option_map (λ x. x.now) result ≡ behind 0x41 bytes.now }
{
    match bytes {
        [] => None,
        [b, rest @ ..] => { if *b == SENTINEL { Some(rest) } else { None } }
    }
}

fn first_byte(kind: MethodKind, bytes: &[u8]) -> Result<(u8, &[u8]), Stop>
    ensures { Gives (λ x. (x.0, x.1.now)) result (byte_where (may_begin kind) bytes.now) }
{
    match bytes {
        [] => Err(Stop::At(0)),
        [b, rest @ ..] => {
            if kind.may_begin(*b) {
                Ok((*b, rest))
            } else {
                Err(Stop::At(bytes.len()))
            }
        }
    }
}

#[tactic(auto, unfolding(crate::specs::Reading::generics_after))]
fn generics(generic: bool, bytes: &[u8]) -> Result<(u32, &[u8]), Stop>
    ensures { Gives (λ x. (x.0, x.1.now)) result (generics_after generic bytes.now) }
{
    if generic {
        packed(bytes)
    } else {
        Ok((0, bytes))
    }
}

#[tactic(auto, unfolding(crate::specs::Reading::bare_inst))]
fn bare_inst(alloc: Global, bytes: &[u8]) -> Result<(SigTy, &[u8]), Stop>
    ensures { Gives (λ x. (x.0, x.1.now)) result (bare_inst bytes.now) }
{
    let (value, bytes) = named_value(bytes)?;
    let (coded, bytes) = coded_index(bytes)?;
    let (_, bytes) = no_items(bytes)?;
    let args = Items::new(alloc);
    Ok((SigTy::Inst { value, coded, args }, bytes))
}

/// A type with none inside.
#[tactic(auto, unfolding(crate::specs::Reading::leaf_after))]
fn leaf_after(alloc: Global, element: Element, bytes: &[u8]) -> Result<(SigTy, &[u8]), Stop>
    ensures { Gives (λ x. (x.0, x.1.now)) result (leaf_after element bytes.now) }
{
    match element {
        Element::Prim(b) => Ok((SigTy::Prim(b), bytes)),
        Element::Named(value) => {
            let (coded, bytes) = coded_index(bytes)?;
            Ok((SigTy::Named { value, coded }, bytes))
        }
        Element::Var => {
            let (n, bytes) = packed(bytes)?;
            Ok((SigTy::Var(n), bytes))
        }
        Element::MVar => {
            let (n, bytes) = packed(bytes)?;
            Ok((SigTy::MVar(n), bytes))
        }
        _ => bare_inst(alloc, bytes),
    }
}

/// `count` types more, behind those in `types`.
#[cycle(reader)]
fn more_types(
    alloc: Global,
    depth: u32,
    slot: Slot,
    types: SigTys,
    count: u32,
    bytes: &[u8],
) -> Result<(SigTys, &[u8]), Stop>
    ensures { Gives (λ x. (x.0, x.1.now)) result (with_front types (many count (type_at depth slot) bytes.now)) }
{
    let mut types = types;
    let mut rest = bytes;
    for _ in 0..count {
        let (one, after) = type_of(alloc, depth, slot, rest)?;
        types.push(one)?;
        rest = after;
    }
    Ok((types, rest))
}

/// A count and so many types.
#[cycle(reader)]
#[tactic(auto, unfolding(crate::specs::Reading::counted))]
pub fn types_of(
    alloc: Global,
    depth: u32,
    slot: Slot,
    bytes: &[u8],
) -> Result<(SigTys, &[u8]), Stop>
    ensures { Gives (λ x. (x.0, x.1.now)) result (counted (type_at depth slot) bytes.now) }
{
    let (len, bytes) = packed(bytes)?;
    more_types(alloc, depth, slot, Items::new(alloc), len, bytes)
}

#[cycle(reader)]
fn boxed(alloc: Global, depth: u32, slot: Slot, bytes: &[u8]) -> Result<(Boxed<SigTy>, &[u8]), Stop>
    ensures { Gives (λ x. (x.0, x.1.now)) result (type_at depth slot bytes.now) }
{
    let (inner, bytes) = type_of(alloc, depth, slot, bytes)?;
    Ok((Boxed::new(alloc, inner)?, bytes))
}

#[cycle(reader)]
#[tactic(auto, unfolding(crate::specs::Reading::array_of))]
fn array_of(alloc: Global, depth: u32, bytes: &[u8]) -> Result<(SigTy, &[u8]), Stop>
    ensures { Gives (λ x. (x.0, x.1.now)) result (array_of (type_at depth) bytes.now) }
{
    let (item, bytes) = boxed(alloc, depth, Slot::Plain, bytes)?;
    let (rank, bytes) = packed(bytes)?;
    let (sizes, bytes) = packed_list(alloc, bytes)?;
    let (lows, bytes) = signed_list(alloc, bytes)?;
    Ok((
        SigTy::Array {
            item,
            rank,
            sizes,
            lows,
        },
        bytes,
    ))
}

#[cycle(reader)]
#[tactic(auto, unfolding(crate::specs::Reading::inst_of))]
fn inst_of(alloc: Global, depth: u32, bytes: &[u8]) -> Result<(SigTy, &[u8]), Stop>
    ensures { Gives (λ x. (x.0, x.1.now)) result (inst_of (type_at depth) bytes.now) }
{
    let (value, bytes) = named_value(bytes)?;
    let (coded, bytes) = coded_index(bytes)?;
    let (args, bytes) = types_of(alloc, depth, Slot::Plain, bytes)?;
    Ok((SigTy::Inst { value, coded, args }, bytes))
}

/// `count` parameters, of which the last ones may stand behind SENTINEL.
#[cycle(reader)]
fn open_params(alloc: Global, depth: u32, count: u32, bytes: &[u8]) -> Result<(Params, &[u8]), Stop>
    ensures { Gives (λ x. ((x.0.types, x.0.sentinel), x.1.now)) result (open_params (type_at depth Slot.Param) 0 count bytes.now) }
{
    let mut types = Items::new(alloc);
    let mut rest = bytes;
    for k in 0..count {
        if let Some(after) = after_sentinel(rest) {
            let (types, rest) = more_types(alloc, depth, Slot::Param, types, count - k, after)?;
            let sentinel = Some(k);
            return Ok((Params { types, sentinel }, rest));
        }
        let (one, after) = type_of(alloc, depth, Slot::Param, rest)?;
        types.push(one)?;
        rest = after;
    }
    let sentinel = None;
    Ok((Params { types, sentinel }, rest))
}

#[cycle(reader)]
#[tactic(auto, unfolding(crate::specs::Reading::params_after))]
fn read_params(
    alloc: Global,
    depth: u32,
    vararg: bool,
    count: u32,
    bytes: &[u8],
) -> Result<(Params, &[u8]), Stop>
    ensures { Gives (λ x. ((x.0.types, x.0.sentinel), x.1.now)) result (params_after vararg (type_at depth Slot.Param) count bytes.now) }
{
    if vararg {
        return open_params(alloc, depth, count, bytes);
    }
    let (types, bytes) = more_types(alloc, depth, Slot::Param, Items::new(alloc), count, bytes)?;
    let sentinel = None;
    Ok((Params { types, sentinel }, bytes))
}

/// A method or a property whose types have at most `depth` further ones inside.
#[cycle(reader)]
#[tactic(auto, unfolding(crate::specs::Reading::method_at))]
pub fn method_of(
    alloc: Global,
    depth: u32,
    kind: MethodKind,
    bytes: &[u8],
) -> Result<(MethodSig, &[u8]), Stop>
    ensures { Gives (λ x. (x.0, x.1.now)) result (method_at kind (type_at depth) bytes.now) }
{
    let (flags, bytes) = first_byte(kind, bytes)?;
    let (generics, bytes) = generics(is_generic(flags), bytes)?;
    let (count, bytes) = packed(bytes)?;
    let (result, bytes) = type_of(alloc, depth, kind.result_slot(), bytes)?;
    let (
        Params {
            types: params,
            sentinel,
        },
        bytes,
    ) = read_params(alloc, depth, is_vararg(flags), count, bytes)?;
    Ok((
        MethodSig {
            flags,
            generics,
            result,
            params,
            sentinel,
        },
        bytes,
    ))
}

/// What stands behind the first byte of a type.
#[cycle(reader)]
#[tactic(auto, unfolding(crate::specs::Reading::type_after, crate::specs::Reading::modified_of))]
fn after(
    alloc: Global,
    depth: u32,
    slot: Slot,
    element: Element,
    bytes: &[u8],
) -> Result<(SigTy, &[u8]), Stop>
    ensures { Gives (λ x. (x.0, x.1.now)) result (type_after (type_at depth) slot element bytes.now) }
{
    match element {
        Element::Prim(b) => Ok((SigTy::Prim(b), bytes)),
        Element::Ptr => {
            let (inner, bytes) = boxed(alloc, depth, Slot::Pointed, bytes)?;
            Ok((SigTy::Ptr(inner), bytes))
        }
        Element::ByRef => {
            let (inner, bytes) = boxed(alloc, depth, Slot::Plain, bytes)?;
            Ok((SigTy::ByRef(inner), bytes))
        }
        Element::Named(value) => {
            let (coded, bytes) = coded_index(bytes)?;
            Ok((SigTy::Named { value, coded }, bytes))
        }
        Element::Var => {
            let (n, bytes) = packed(bytes)?;
            Ok((SigTy::Var(n), bytes))
        }
        Element::MVar => {
            let (n, bytes) = packed(bytes)?;
            Ok((SigTy::MVar(n), bytes))
        }
        Element::Array => array_of(alloc, depth, bytes),
        Element::Inst => inst_of(alloc, depth, bytes),
        Element::Func => {
            let (method, bytes) = method_of(alloc, depth, MethodKind::Pointer, bytes)?;
            Ok((SigTy::Func(Boxed::new(alloc, method)?), bytes))
        }
        Element::SzArray => {
            let (inner, bytes) = boxed(alloc, depth, Slot::Plain, bytes)?;
            Ok((SigTy::SzArray(inner), bytes))
        }
        Element::Modified(required) => {
            let (modifier, bytes) = coded_index(bytes)?;
            let (inner, bytes) = boxed(alloc, depth, slot.slot_behind(), bytes)?;
            Ok((
                SigTy::Modified {
                    required,
                    coded: modifier,
                    inner,
                },
                bytes,
            ))
        }
        Element::Pinned => {
            let (inner, bytes) = boxed(alloc, depth, slot.slot_behind(), bytes)?;
            Ok((SigTy::Pinned(inner), bytes))
        }
    }
}

/// A type with at most `depth` further ones inside, one in another.
#[cycle(reader)]
#[tactic(auto, unfolding(crate::specs::Reading::type_at))]
pub fn type_of(alloc: Global, depth: u32, slot: Slot, bytes: &[u8]) -> Result<(SigTy, &[u8]), Stop>
    ensures { Gives (λ x. (x.0, x.1.now)) result (type_at depth slot bytes.now) }
{
    if depth == 0 {
        let (first, bytes) = leaf_element(slot, bytes)?;
        return leaf_after(alloc, first, bytes);
    }
    let (first, bytes) = element(slot, bytes)?;
    after(alloc, depth - 1, slot, first, bytes)
}
