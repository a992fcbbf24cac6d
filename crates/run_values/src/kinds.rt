// What places of types hold (ECMA-335, I.12.1 and II.14.3).

ghost use Rattle.std.specs.Prelude.{◌≡◌, filter, length};
ghost use Rattle.cil_semantics.specs.Lookups.{type_of};
ghost use Rattle.cil_semantics.specs.Places.{kind_storage, prim_storage, storage};
ghost use Rattle.run_values.specs.Kinds.{enumeration_storage, is_instance_field, outside_storage};

use cil_base::{Bytes, U32s};
use cil_model::{Kind, Program, Ty};
use il_opcodes::{Bits, Storage};

/// What a type that is one byte in signatures holds.
#[tactic(auto, unfolding(cil_semantics::specs::Places::prim_storage))]
fn of_prim(b: u8) -> Storage
    ensures { result ≡ prim_storage b }
{
    if b == 0x01 {
        Storage::Void
    } else if b == 0x02 {
        Storage::Truncated(Bits::B8, false)
    } else if b == 0x03 {
        Storage::Truncated(Bits::B16, false)
    } else if b == 0x04 {
        Storage::Truncated(Bits::B8, true)
    } else if b == 0x05 {
        Storage::Truncated(Bits::B8, false)
    } else if b == 0x06 {
        Storage::Truncated(Bits::B16, true)
    } else if b == 0x07 {
        Storage::Truncated(Bits::B16, false)
    } else if b == 0x08 || b == 0x09 {
        Storage::Truncated(Bits::B32, true)
    } else if b == 0x0A || b == 0x0B {
        Storage::Long
    } else if b == 0x0E || b == 0x1C {
        Storage::Reference
    } else if b == 0x18 || b == 0x19 {
        Storage::NativeInt
    } else {
        Storage::Opaque
    }
}

#[tactic(auto, unfolding(cil_semantics::specs::Lookups::no_field))]
pub(crate) fn is_instance(program: &Program, field: u32) -> bool
    ensures { result ≡ is_instance_field program.now field }
{
    match program.fields.get(field as usize) {
        Some(desc) => !desc.is_static,
        None => true,
    }
}

// How many instance fields a type has itself.
pub(crate) fn count_own(program: &Program, fields: &[u32]) -> usize
    ensures { result ≡ length (filter (is_instance_field program.now) fields.now) }
{
    let mut count: usize = 0;
    for field in fields {
        if is_instance(program, *field) {
            count += 1;
        }
    }
    count
}

// An enumeration holds what its first instance field does.
#[tactic(auto, unfolding(cil_semantics::specs::Lookups::no_field))]
fn of_enumeration(program: &Program, fields: &U32s) -> Storage
    ensures { result ≡ enumeration_storage program.now (filter (is_instance_field program.now) fields.now) }
{
    for field in fields.as_slice() {
        if is_instance(program, *field) {
            return match program.fields.get(*field as usize) {
                Some(desc) => match &desc.ty {
                    Ty::Prim(b) => of_prim(*b),
                    _ => Storage::Opaque,
                },
                None => Storage::Opaque,
            };
        }
    }
    Storage::Opaque
}

// What a type of the set holds.
#[tactic(auto, unfolding(cil_semantics::specs::Lookups::contract_exception))]
fn of_known(program: &Program, k: u32) -> Storage
    ensures { result ≡ kind_storage program.now (type_of program.now k) (type_of program.now k).kind }
{
    let Some(desc) = program.types.get(k as usize) else {
        return Storage::Reference;
    };
    match desc.kind {
        Kind::Class => Storage::Reference,
        Kind::Interface => Storage::Reference,
        Kind::Struct => Storage::Fields(count_own(program, desc.fields.as_slice())),
        Kind::Enumeration => of_enumeration(program, &desc.fields),
        Kind::Delegate => Storage::Reference,
    }
}

fn of_outside(name: &Bytes, value: bool) -> Storage
    ensures { result ≡ outside_storage name.now value }
{
    if name.as_slice() == b"System.Diagnostics.Contracts.ContractFailureKind".as_slice() {
        Storage::Truncated(Bits::B32, true)
    } else if value {
        Storage::Opaque
    } else {
        Storage::Reference
    }
}

/// What a place of a type holds.
#[tactic(auto, unfolding(cil_semantics::specs::Places::storage))]
pub fn storage_of(program: &Program, ty: &Ty) -> Storage
    ensures { result ≡ storage program.now ty.now }
{
    match ty {
        Ty::Prim(b) => of_prim(*b),
        Ty::Known(k) => of_known(program, *k),
        Ty::Outside { name, value } => of_outside(name, *value),
        Ty::Array(_) => Storage::Reference,
        Ty::ByRef(_) => Storage::Address,
        Ty::Var(_) => Storage::Anything,
        Ty::MVar(_) => Storage::Anything,
        Ty::Opaque => Storage::Opaque,
        Ty::Inst { ty, .. } => of_known(program, *ty),
    }
}
