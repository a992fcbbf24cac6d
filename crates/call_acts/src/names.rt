// Names and functions (ECMA-335, III.4.17, 4.25 and 3.41).

ghost use Rattle.std.specs.Prelude.{ℕ, ◌≡◌, ◌==◌, ◌∷◌, [], List, None, nat_lt, if◌then◌else◌, find, map, option_and_then, pos, IfOk};
ghost use Rattle.std.specs.Option.{option_copied};
ghost use Rattle.cil_model.specs.declared.ty.Ty.{out-Ty};
ghost use Rattle.cil_model.specs.declared.value.Value.{I4 as four_bytes, Func as function, Opaque as carried};
ghost use Rattle.cil_semantics.specs.Acts as acts;
ghost use Rattle.cil_semantics.specs.Core.{name_or_none, prim_name, prim_names};
ghost use Rattle.cil_semantics.specs.Instructions.{push_function};
ghost use Rattle.cil_semantics.specs.Lookups.{args_of, field_of, method_of, type_of};
ghost use Rattle.frame_acts.specs.Meant.{meant};

use cil_base::Bytes;
use cil_model::{Meaning, Program, Ty, TypeArgs, Tys, Value};
use cil_semantics::Local;
use frame_acts::{Wanted, push};
use look_ups::args_of;
use sqlite_items::Boxed;
use std::alloc::{AllocError, Global};

/// The types that are one byte in signatures, by name (ECMA-335, II.23.1.16).
static PRIM_NAMES: [(u8, &str); 18] = [
    (0x01, "System.Void"),
    (0x02, "System.Boolean"),
    (0x03, "System.Char"),
    (0x04, "System.SByte"),
    (0x05, "System.Byte"),
    (0x06, "System.Int16"),
    (0x07, "System.UInt16"),
    (0x08, "System.Int32"),
    (0x09, "System.UInt32"),
    (0x0A, "System.Int64"),
    (0x0B, "System.UInt64"),
    (0x0C, "System.Single"),
    (0x0D, "System.Double"),
    (0x0E, "System.String"),
    (0x16, "System.TypedReference"),
    (0x18, "System.IntPtr"),
    (0x19, "System.UIntPtr"),
    (0x1C, "System.Object"),
];

#[tactic(auto, unfolding(cil_semantics::specs::Core::prim_names))]
fn prim_rows() -> &'static [(u8, &'static str)]
    ensures { map (λ row. (row.0, row.1.now)) result.now ≡ prim_names }
{
    &PRIM_NAMES
}

fn name_among(rows: &[(u8, &'static str)], b: u8) -> &'static [u8]
    ensures { result.now ≡ name_or_none (find (λ (row : ℕ × List ℕ). row.0 == b) (map (λ row. (row.0, row.1.now)) rows.now)) }
{
    for row in rows {
        if row.0 == b {
            return row.1.as_bytes();
        }
    }
    &[]
}

#[tactic(auto, unfolding(cil_semantics::specs::Core::prim_name))]
fn name_of_prim(b: u8) -> &'static [u8]
    ensures { result.now ≡ prim_name b }
{
    name_among(prim_rows(), b)
}

#[tactic(auto, unfolding(cil_semantics::specs::Lookups::contract_exception))]
fn name_of_known(program: &Program, k: u32) -> &[u8]
    ensures { result.now ≡ (type_of program.now k).name }
{
    match program.types.get(k as usize) {
        Some(desc) => desc.name.as_slice(),
        None => b"__ContractsRuntime/ContractException",
    }
}

/// The full name of a type, without arguments; none for a type that has none.
pub fn name_of_type<'a>(program: &'a Program, ty: &'a Ty) -> &'a [u8]
    ensures { result.now ≡ acts.ty_name program.now ty.now }
{
    match ty {
        Ty::Prim(b) => name_of_prim(*b),
        Ty::Known(k) => name_of_known(program, *k),
        Ty::Outside { name, .. } => name.as_slice(),
        Ty::Inst { ty, .. } => name_of_known(program, *ty),
        _ => &[],
    }
}

#[tactic(auto, unfolding(cil_semantics::specs::Lookups::no_field))]
fn name_of_field(program: &Program, field: u32) -> &[u8]
    ensures { result.now ≡ (field_of program.now field).name }
{
    match program.fields.get(field as usize) {
        Some(desc) => desc.name.as_slice(),
        None => &[],
    }
}

/// The name of a method, without its type's.
#[tactic(auto, unfolding(cil_semantics::specs::Lookups::no_method))]
pub fn name_of_method(program: &Program, method: u32) -> &[u8]
    ensures { result.now ≡ (method_of program.now method).name }
{
    match program.methods.get(method as usize) {
        Some(desc) => desc.name.as_slice(),
        None => &[],
    }
}

/// How a member is told of: its type's name, then its own.
pub fn member_name(alloc: Global, owner: &[u8], name: &[u8]) -> Result<Bytes, AllocError>
    ensures { IfOk result (λ it. it ≡ acts.member_name owner.now name.now) }
{
    let mut it = Bytes::from_slice(alloc, owner)?;
    it.append(Bytes::from_slice(alloc, b"::")?)?;
    it.append(Bytes::from_slice(alloc, name)?)?;
    Ok(it)
}

/// What `ldtoken` pushes for a type, a field or a method: its name.
fn handle_of(
    alloc: Global,
    program: &Program,
    meaning: &Meaning,
) -> Result<Option<Bytes>, AllocError>
    ensures { IfOk result (λ name. name ≡ acts.handle_of program.now meaning.now) }
{
    match meaning {
        Meaning::OfType(ty) => Ok(Some(Bytes::from_slice(alloc, name_of_type(program, ty))?)),
        Meaning::OfField { owner, field } => {
            let name = name_of_field(program, *field);
            Ok(Some(member_name(alloc, name_of_type(program, owner), name)?))
        }
        Meaning::OfMethod { owner, method, .. } => {
            let name = name_of_method(program, *method);
            Ok(Some(member_name(alloc, name_of_type(program, owner), name)?))
        }
        _ => Ok(None),
    }
}

fn push_name(name: Option<Bytes>, local: &mut Local) -> Result<Wanted, AllocError>
    ensures { IfOk result (λ a. meant a local.new ≡ acts.if_some name (λ it. acts.goes_with local.old (carried it) local.old.stack)) }
{
    match name {
        None => Ok(Wanted::Stuck),
        Some(it) => {
            let answer = push(Value::Opaque(it), local)?;
            Ok(answer)
        }
    }
}

/// `ldtoken`
pub fn load_token(
    alloc: Global,
    program: &Program,
    meaning: Option<&Meaning>,
    local: &mut Local,
) -> Result<Wanted, AllocError>
    ensures { IfOk result (λ a. meant a local.new ≡ acts.if_some (option_and_then (acts.handle_of program.now) (option_copied meaning.entry)) (λ name. acts.goes_with local.old (carried name) local.old.stack)) }
{
    let Some(named) = meaning else {
        return Ok(Wanted::Stuck);
    };
    let name = handle_of(alloc, program, named)?;
    let answer = push_name(name, local)?;
    Ok(answer)
}

/// The sizes of the types from bool to uint64 (ECMA-335, III.4.25).
fn sizes() -> &'static [u8]
    ensures { result.now ≡ 1 ∷ 2 ∷ 1 ∷ 1 ∷ 2 ∷ 2 ∷ 4 ∷ 4 ∷ 8 ∷ 8 ∷ [] }
{
    &[1, 2, 1, 1, 2, 2, 4, 4, 8, 8]
}

fn size_of_prim(b: u8) -> Option<u8>
    ensures { result ≡ (if nat_lt b 2 then None else acts.prim_size b) }
{
    if b < 2 {
        return None;
    }
    sizes().get((b - 2) as usize).copied()
}

fn size_of(ty: &Ty) -> Option<u8>
    ensures { result ≡ acts.size_at (out-Ty ty.now) }
{
    match ty {
        Ty::Prim(b) => size_of_prim(*b),
        _ => None,
    }
}

/// `sizeof`
pub fn load_size(meaning: Option<&Meaning>, local: &mut Local) -> Result<Wanted, AllocError>
    ensures { IfOk result (λ a. meant a local.new ≡ acts.on_type (option_copied meaning.entry) (λ t. acts.if_some (acts.size_at (out-Ty t)) (λ n. acts.goes_with local.old (four_bytes (pos n)) local.old.stack))) }
{
    let Some(Meaning::OfType(ty)) = meaning else {
        return Ok(Wanted::Stuck);
    };
    match size_of(ty) {
        None => Ok(Wanted::Stuck),
        Some(count) => {
            let answer = push(Value::I4(count as i32), local)?;
            Ok(answer)
        }
    }
}

/// An equal list of its own.
pub fn copied_tys(alloc: Global, tys: &[Ty]) -> Result<Tys, AllocError>
    ensures { IfOk result (λ copy. copy ≡ tys.now) }
{
    let mut copies = Tys::new(alloc);
    for ty in tys {
        copies.push(ty.copied(alloc)?)?;
    }
    Ok(copies)
}

fn push_function_of(
    alloc: Global,
    owner: &Ty,
    method: u32,
    args: &Tys,
    local: &mut Local,
) -> Result<Wanted, AllocError>
    ensures { IfOk result (λ a. meant a local.new ≡ acts.goes_with local.old (function method (record { type_args = args_of owner.now; method_args = args.now })) local.old.stack) }
{
    let under = TypeArgs {
        type_args: copied_tys(alloc, args_of(owner))?,
        method_args: copied_tys(alloc, args.as_slice())?,
    };
    let answer = push(
        Value::Func {
            method,
            under: Boxed::new(alloc, under)?,
        },
        local,
    )?;
    Ok(answer)
}

/// `ldftn`
pub fn load_function(
    alloc: Global,
    meaning: Option<&Meaning>,
    local: &mut Local,
) -> Result<Wanted, AllocError>
    ensures { IfOk result (λ a. meant a local.new ≡ push_function (option_copied meaning.entry) local.old) }
{
    match meaning {
        Some(
            Meaning::OfMethod {
                owner,
                method,
                args,
            },
        ) => {
            let answer = push_function_of(alloc, owner, *method, args, local)?;
            Ok(answer)
        }
        _ => Ok(Wanted::Stuck),
    }
}
