// What a store leaves in a place, and what a load that names a kind sees there (ECMA-335, III.1.1 and III.1.6).

ghost use Rattle.std.specs.Prelude.{◌≡◌};
ghost use Rattle.il_opcodes.specs.declared.class.Bits.{Bits};
ghost use Rattle.il_opcodes.specs.declared.class.Storage.{Storage};
ghost use Rattle.cil_semantics.specs.Places.{seen_as, stored};

use cil_model::Value;
use il_opcodes::{Bits, Storage};
use run_numbers::truncated_to;

/// What a store of a value leaves in a place of a kind; `None` where the value is of another kind.
pub fn stored_as(storage: Storage, v: Value) -> Option<Value>
    ensures { result ≡ stored storage v }
{
    match storage {
        Storage::Truncated(bits, signed) => truncated_number(bits, signed, v),
        Storage::Long => long_number(v),
        Storage::NativeInt => native_number(v),
        Storage::Reference => reference(v),
        Storage::Address => address(v),
        Storage::Fields(count) => structure(count, v),
        Storage::Opaque => opaque(v),
        Storage::Anything => Some(v),
        Storage::Void => None,
    }
}

/// What an instruction that names a kind reads of a place; `None` where another kind stands there.
pub fn seen(storage: Storage, v: Value) -> Option<Value>
    ensures { result ≡ seen_as storage v }
{
    match storage {
        Storage::NativeInt => seen_native(v),
        _ => stored_as(storage, v),
    }
}

fn seen_native(v: Value) -> Option<Value>
    ensures { result ≡ seen_as Storage.NativeInt v }
{
    match v {
        Value::Native(z) => Some(Value::Native(z)),
        _ => None,
    }
}

fn truncated_number(bits: Bits, signed: bool, v: Value) -> Option<Value>
    ensures { result ≡ stored (Storage.Truncated bits signed) v }
{
    match v {
        Value::I4(z) => Some(Value::I4(truncated_to(bits, signed, z as i128))),
        _ => None,
    }
}

fn long_number(v: Value) -> Option<Value>
    ensures { result ≡ stored Storage.Long v }
{
    match v {
        Value::I8(z) => Some(Value::I8(z)),
        _ => None,
    }
}

fn native_number(v: Value) -> Option<Value>
    ensures { result ≡ stored Storage.NativeInt v }
{
    match v {
        Value::Native(z) => Some(Value::Native(z)),
        Value::I4(z) => Some(Value::Native(z as i64)),
        _ => None,
    }
}

fn reference(v: Value) -> Option<Value>
    ensures { result ≡ stored Storage.Reference v }
{
    match &v {
        Value::Null => Some(v),
        Value::Obj(_) => Some(v),
        Value::Text(_) => Some(v),
        _ => None,
    }
}

fn address(v: Value) -> Option<Value>
    ensures { result ≡ stored Storage.Address v }
{
    match &v {
        Value::Null => Some(v),
        Value::Ptr(_) => Some(v),
        _ => None,
    }
}

fn structure(count: usize, v: Value) -> Option<Value>
    ensures { result ≡ stored (Storage.Fields count) v }
{
    match &v {
        Value::Struct(parts) => { if parts.len() == count { Some(v) } else { None } }
        _ => None,
    }
}

fn opaque(v: Value) -> Option<Value>
    ensures { result ≡ stored Storage.Opaque v }
{
    match &v {
        Value::Opaque(_) => Some(v),
        _ => None,
    }
}
