// The bases of types that aren't of the set, by name.
ghost use Rattle.std.specs.Prelude.{◌≡◌, ◌==◌, bytes_eq, find, map, option_map, IfOk};
ghost use Rattle.std.specs.Prelude.{List, ℕ};
ghost use Rattle.cil_model.specs.declared.ty.Ty.{Ty, out-Ty};
ghost use Rattle.cil_semantics.specs.Core.{class_named, core_classes, ends_with, failure_kind, leaf_base, outside_base};
ghost use Rattle.cil_semantics.specs.Lookups.{built_in_base};
ghost use Rattle.look_ups.specs.CoreBases.{base_named};

use cil_base::Bytes;
use cil_model::Ty;
use std::alloc::{AllocError, Global};

/// The core classes, each with its base.
static CORE_BASES: [(&str, &str); 23] = [
    ("System.ValueType", "System.Object"),
    ("System.Enum", "System.ValueType"),
    ("System.Array", "System.Object"),
    ("System.Delegate", "System.Object"),
    ("System.MulticastDelegate", "System.Delegate"),
    ("System.Exception", "System.Object"),
    ("System.SystemException", "System.Exception"),
    ("System.ArgumentException", "System.SystemException"),
    ("System.ArgumentNullException", "System.ArgumentException"),
    (
        "System.ArgumentOutOfRangeException",
        "System.ArgumentException",
    ),
    ("System.ArithmeticException", "System.SystemException"),
    ("System.DivideByZeroException", "System.ArithmeticException"),
    ("System.OverflowException", "System.ArithmeticException"),
    (
        "System.ArrayTypeMismatchException",
        "System.SystemException",
    ),
    ("System.FormatException", "System.SystemException"),
    ("System.IndexOutOfRangeException", "System.SystemException"),
    ("System.InvalidCastException", "System.SystemException"),
    ("System.InvalidOperationException", "System.SystemException"),
    (
        "System.ObjectDisposedException",
        "System.InvalidOperationException",
    ),
    ("System.NotImplementedException", "System.SystemException"),
    ("System.NotSupportedException", "System.SystemException"),
    ("System.NullReferenceException", "System.SystemException"),
    (
        "System.TypeInitializationException",
        "System.SystemException",
    ),
];

#[tactic(auto, unfolding(cil_semantics::specs::Core::core_classes))]
fn core_bases() -> &'static [(&'static str, &'static str)]
    ensures { map (λ row. (row.0.now, base_named row.1.now)) result.now ≡ core_classes }
{
    &CORE_BASES
}

fn base_among(rows: &[(&'static str, &'static str)], name: &[u8]) -> Option<&'static str>
    ensures { option_map (λ s. s.now) result ≡ option_map (λ row. row.1.now) (find (λ row. bytes_eq row.0.now name.now) rows.now) }
{
    for row in rows {
        if row.0.as_bytes() == name {
            return Some(row.1);
        }
    }
    None
}

/// The name of a core class's base.
fn core_base(name: &[u8]) -> Option<&'static str>
    ensures { option_map (λ s. base_named s.now) result ≡ option_map (λ (row : List ℕ × Ty). row.1) (find (λ (row : List ℕ × Ty). bytes_eq row.0 name.now) core_classes) }
{
    base_among(core_bases(), name)
}

/// A class outside the set.
pub(crate) fn class_named(alloc: Global, name: &[u8]) -> Result<Ty, AllocError>
    ensures { IfOk result (λ ty. ty ≡ class_named name.now) }
{
    Ok(Ty::Outside {
        name: Bytes::from_slice(alloc, name)?,
        value: false,
    })
}

fn base_named(alloc: Global, name: &str) -> Result<Ty, AllocError>
    ensures { IfOk result (λ ty. ty ≡ base_named name.now) }
{
    if name.as_bytes() == b"System.Object".as_slice() {
        return Ok(Ty::Prim(0x1C));
    }
    class_named(alloc, name.as_bytes())
}

fn ends_with(name: &[u8], end: &[u8]) -> bool
    ensures { result ≡ ends_with name.now end.now }
{
    &name[name.len().saturating_sub(end.len())..] == end
}

fn is_failure_kind(name: &[u8]) -> bool
    ensures { result ≡ bytes_eq name.now failure_kind }
{
    name == b"System.Diagnostics.Contracts.ContractFailureKind".as_slice()
}

/// The base of an outside type that is no core class.
#[tactic(auto, unfolding(cil_semantics::specs::Core::leaf_base))]
fn leaf_base(alloc: Global, name: &[u8], value: bool) -> Result<Ty, AllocError>
    ensures { IfOk result (λ ty. ty ≡ leaf_base name.now value) }
{
    if ends_with(name, b"Exception") {
        return class_named(alloc, b"System.Exception");
    }
    if value || is_failure_kind(name) {
        return class_named(alloc, b"System.ValueType");
    }
    Ok(Ty::Prim(0x1C))
}

/// The base of an outside type.
#[tactic(auto, unfolding(cil_semantics::specs::Core::outside_base))]
fn outside_base(alloc: Global, name: &[u8], value: bool) -> Result<Ty, AllocError>
    ensures { IfOk result (λ ty. ty ≡ outside_base name.now value) }
{
    match core_base(name) {
        Some(base) => base_named(alloc, base),
        None => leaf_base(alloc, name, value),
    }
}

/// The base of a type that isn't of the set; System.Object has none.
pub(crate) fn built_in_base(alloc: Global, ty: &Ty) -> Result<Option<Ty>, AllocError>
    ensures { IfOk result (λ base. base ≡ built_in_base (out-Ty ty.now)) }
{
    match ty {
        Ty::Prim(0x1C) => Ok(None),
        Ty::Prim(0x0E) => Ok(Some(Ty::Prim(0x1C))),
        Ty::Prim(_) => Ok(Some(class_named(alloc, b"System.ValueType")?)),
        Ty::Outside { name, value } => Ok(Some(outside_base(alloc, name.as_slice(), *value)?)),
        Ty::Array(_) => Ok(Some(class_named(alloc, b"System.Array")?)),
        _ => Ok(Some(Ty::Prim(0x1C))),
    }
}
