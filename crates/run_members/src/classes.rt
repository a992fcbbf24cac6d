// The core classes by name (ECMA-335, Partition IV).

ghost use Rattle.std.specs.Prelude.{ℕ, ◌≡◌, List, bytes_eq, map, codes, IfOk};
ghost use Rattle.cil_model.specs.declared.ty.Ty.{Ty as TyOf};
ghost use Rattle.cil_semantics.specs.Calls as calls;
ghost use Rattle.cil_semantics.specs.Calls.{is_named};
ghost use Rattle.cil_semantics.specs.Core.{class_named, core_classes};
ghost use Rattle.cil_semantics.specs.Lookups.{is_sub};
ghost use Rattle.cil_semantics.specs.Words.{any};
ghost use Rattle.run_members.specs.Told.{class_names};

use crate::events::outside_class;
use call_acts::name_of_type;
use cil_model::{Program, Ty};
use look_ups::is_subtype;
use std::alloc::{AllocError, Global};

static CLASSES: [&[u8]; 23] = [
    b"System.ValueType",
    b"System.Enum",
    b"System.Array",
    b"System.Delegate",
    b"System.MulticastDelegate",
    b"System.Exception",
    b"System.SystemException",
    b"System.ArgumentException",
    b"System.ArgumentNullException",
    b"System.ArgumentOutOfRangeException",
    b"System.ArithmeticException",
    b"System.DivideByZeroException",
    b"System.OverflowException",
    b"System.ArrayTypeMismatchException",
    b"System.FormatException",
    b"System.IndexOutOfRangeException",
    b"System.InvalidCastException",
    b"System.InvalidOperationException",
    b"System.ObjectDisposedException",
    b"System.NotImplementedException",
    b"System.NotSupportedException",
    b"System.NullReferenceException",
    b"System.TypeInitializationException",
];

#[tactic(auto, unfolding(crate::specs::Told::class_names, cil_semantics::specs::Core::core_classes))]
fn class_names() -> &'static [&'static [u8]]
    ensures { map (λ name. name.now) result.now ≡ class_names }
{
    &CLASSES
}

fn is_among(names: &[&[u8]], name: &[u8]) -> bool
    ensures { result ≡ any (λ it. bytes_eq it name.now) (map (λ n. n.now) names.now) }
{
    for other in names {
        if *other == name {
            return true;
        }
    }
    false
}

fn is_core_class(name: &[u8]) -> bool
    ensures { result ≡ any (λ (row : List ℕ × TyOf). is_named row.0 name.now) core_classes }
{
    is_among(class_names(), name)
}

fn exception_type(alloc: Global) -> Result<Ty, AllocError>
    ensures { IfOk result (λ ty. ty ≡ class_named (codes "System.Exception")) }
{
    outside_class(alloc, b"System.Exception")
}

fn is_exception(alloc: Global, program: &Program, ty: &Ty) -> Result<bool, AllocError>
    ensures { IfOk result (λ is. is ≡ is_sub program.now ty.now (class_named (codes "System.Exception"))) }
{
    let exception = exception_type(alloc)?;
    let is = is_subtype(alloc, program, ty, &exception)?;
    Ok(is)
}

/// Whether a type is a core class under System.Exception.
pub fn is_core_exception(alloc: Global, program: &Program, ty: &Ty) -> Result<bool, AllocError>
    ensures { IfOk result (λ is. is ≡ calls.is_core_exception program.now ty.now) }
{
    if !is_core_class(name_of_type(program, ty)) {
        return Ok(false);
    }
    let is = is_exception(alloc, program, ty)?;
    Ok(is)
}
