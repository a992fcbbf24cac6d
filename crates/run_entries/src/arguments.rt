// Arguments from outside that a run begins with (ECMA-335, I.12.1).

ghost use Rattle.std.specs.Prelude.{◌≡◌};
ghost use Rattle.cil_model.specs.declared.ty.Ty.{out-Ty};
ghost use Rattle.cil_model.specs.declared.value.Value.{out-Value};
ghost use Rattle.cil_semantics.specs.Outside.{all_fit, is_i4, is_i8, is_native};
ghost use Rattle.cil_semantics.specs.Types.{is_prim};
ghost use Rattle.run_entries.specs.Entries.{takes, takes_by_kind, takes_reference};

use cil_model::{Program, Ty, Value};
use il_opcodes::Storage;
use run_values::storage_of;

fn is_i4(v: &Value) -> bool
    ensures { result ≡ is_i4 (out-Value v.now) }
{
    matches!(v, Value::I4(_))
}

fn is_i8(v: &Value) -> bool
    ensures { result ≡ is_i8 (out-Value v.now) }
{
    matches!(v, Value::I8(_))
}

fn is_native(v: &Value) -> bool
    ensures { result ≡ is_native (out-Value v.now) }
{
    matches!(v, Value::Native(_))
}

fn is_string(ty: &Ty) -> bool
    ensures { result ≡ is_prim 0x0E (out-Ty ty.now) }
{
    match ty {
        Ty::Prim(code) => *code == 0x0E,
        _ => false,
    }
}

fn takes_reference(ty: &Ty, v: &Value) -> bool
    ensures { result ≡ takes_reference (out-Ty ty.now) (out-Value v.now) }
{
    match v {
        Value::Null => true,
        Value::Text(_) => is_string(ty),
        _ => false,
    }
}

fn takes_by_kind(storage: Storage, ty: &Ty, v: &Value) -> bool
    ensures { result ≡ takes_by_kind storage (out-Ty ty.now) (out-Value v.now) }
{
    match storage {
        Storage::Truncated(_, _) => is_i4(v),
        Storage::Long => is_i8(v),
        Storage::NativeInt => is_native(v),
        Storage::Reference => takes_reference(ty, v),
        Storage::Address => false,
        Storage::Fields(_) => false,
        Storage::Opaque => false,
        Storage::Anything => false,
        Storage::Void => false,
    }
}

/// Whether a parameter of a type takes a value from outside: a number of its kind, null for a reference, a text for a string.
pub fn takes(program: &Program, ty: &Ty, v: &Value) -> bool
    ensures { result ≡ takes program.now ty.now v.now }
{
    takes_by_kind(storage_of(program, ty), ty, v)
}

/// Whether parameters of these types take these values, each one and no more.
#[tactic(auto, using(crate::proofs::EntryLaws::other_lengths))]
pub fn takes_all(program: &Program, tys: &[Ty], values: &[Value]) -> bool
    ensures { result ≡ all_fit (takes program.now) tys.now values.now }
{
    if tys.len() != values.len() {
        return false;
    }
    for k in 0..tys.len() {
        if !takes(program, &tys[k], &values[k]) {
            return false;
        }
    }
    true
}
