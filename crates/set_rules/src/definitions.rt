// The types of a set (ECMA-335, II.10.3, II.22.37).
ghost use Rattle.std.specs.Prelude.{◌≡◌, ℕ, ◌<◌, ◌≤◌, ◌^◌, length, map, bytes_eq, option_to_list};
ghost use Rattle.std.specs.List.{range_with_len};
ghost use Rattle.std.specs.Option.{option_copied};
ghost use Rattle.cil_base.specs.Refusals.{first_of};
ghost use Rattle.cil_model.specs.declared.ty.Ty.{Ty};
ghost use Rattle.cil_semantics.specs.Core.{core_classes, prim_names};
ghost use Rattle.set_names.specs.Cycles.{any};
ghost use Rattle.set_names.specs.Names.{Name};
ghost use Rattle.set_rows.specs.Sets.{assembly_at, count_in};
ghost use Rattle.set_program.specs.declared.identity.TypeId.TheVariants.{Row};
ghost use Rattle.set_program.specs.Environment.{types_of, number_of};
ghost use Rattle.set_program.specs.TypeNames.{full_name};
ghost use Rattle.set_program.specs.TypeRules.{is_core_name, is_entangled, name_is_taken, type_tests};
ghost use Rattle.set_rules.specs.TableTests.{table_tests};
ghost use Rattle.set_rules.specs.CoreNames.{class_names, byte_names, is_before};

use cil_base::tables::TYPE_DEF;
use cil_base::{Place, Refusal, Rule};
use set_program::Part;
use type_table::TypeTable;

static CLASSES: [&[u8]; 23] = [
    b"System.ValueType",
    b"System.Enum",
    b"System.Array",
    b"System.Delegate",
    b"System.MulticastDelegate",
    b"System.Exception",
    b"System.SystemException",
    b"System.ArgumentException",
    b"System.ArgumentNullException",
    b"System.ArgumentOutOfRangeException",
    b"System.ArithmeticException",
    b"System.DivideByZeroException",
    b"System.OverflowException",
    b"System.ArrayTypeMismatchException",
    b"System.FormatException",
    b"System.IndexOutOfRangeException",
    b"System.InvalidCastException",
    b"System.InvalidOperationException",
    b"System.ObjectDisposedException",
    b"System.NotImplementedException",
    b"System.NotSupportedException",
    b"System.NullReferenceException",
    b"System.TypeInitializationException",
];

static BYTES: [&[u8]; 18] = [
    b"System.Void",
    b"System.Boolean",
    b"System.Char",
    b"System.SByte",
    b"System.Byte",
    b"System.Int16",
    b"System.UInt16",
    b"System.Int32",
    b"System.UInt32",
    b"System.Int64",
    b"System.UInt64",
    b"System.Single",
    b"System.Double",
    b"System.String",
    b"System.TypedReference",
    b"System.IntPtr",
    b"System.UIntPtr",
    b"System.Object",
];

#[tactic(auto, unfolding(crate::specs::CoreNames::class_names, cil_semantics::specs::Core::core_classes))]
fn class_names() -> &'static [&'static [u8]]
    ensures { map (λ name. name.now) result.now ≡ class_names }
{
    &CLASSES
}

#[tactic(auto, unfolding(crate::specs::CoreNames::byte_names, cil_semantics::specs::Core::prim_names))]
fn byte_names() -> &'static [&'static [u8]]
    ensures { map (λ name. name.now) result.now ≡ byte_names }
{
    &BYTES
}

fn is_among(name: &[u8], names: &[&[u8]]) -> bool
    ensures { result ≡ any (bytes_eq name.now) (map (λ n. n.now) names.now) }
{
    for other in names {
        if name == *other {
            return true;
        }
    }
    false
}

#[tactic(auto, using(crate::proofs::NameLaws::among_classes))]
fn is_class(name: &[u8]) -> bool
    ensures { result ≡ any (λ (c : Name × Ty). bytes_eq name.now c.0) core_classes }
{
    is_among(name, class_names())
}

#[tactic(auto, using(crate::proofs::NameLaws::among_bytes))]
fn is_byte_type(name: &[u8]) -> bool
    ensures { result ≡ any (λ (p : ℕ × Name). bytes_eq name.now p.1) prim_names }
{
    is_among(name, byte_names())
}

/// Whether it is a name of the core table.
fn is_core_name(name: &[u8]) -> bool
    ensures { result ≡ is_core_name name.now }
{
    if name == b"System.IDisposable".as_slice() {
        return true;
    }
    if name == b"System.Diagnostics.Contracts.Contract".as_slice() {
        return true;
    }
    is_class(name) || is_byte_type(name)
}

/// Whether a type of the assembly before has this name, or the core table.
#[tactic(auto, using(crate::proofs::NameLaws::taken_before))]
fn name_is_taken(part: &Part<'_>, row: u32) -> bool
    requires some { 0 < row }
    requires row { row ≤ count_in part.now TYPE_DEF }
    ensures { result ≡ name_is_taken part.now (full_name part.now row) row }
{
    match part.full_name(row) {
        None => false,
        Some(name) => is_core_name(name) || is_before(part.type_named(name), row),
    }
}

fn is_before(found: Option<u32>, row: u32) -> bool
    ensures { result ≡ is_before found row }
{
    match found {
        None => false,
        Some(k) => k < row,
    }
}

/// Whether a row is on a circle, or its structs nest too deep, where it is said so by number.
fn is_entangled(types: &TypeTable<'_>, entangled: &[bool], a: u32, row: u32) -> bool
    requires { entangled.now ≡ map (is_entangled types.now) (range_with_len 0 (length (types_of types.now))) }
    ensures { result ≡ any (is_entangled types.now) (option_to_list (number_of types.now (Row a row))) }
{
    match types.row_number(a, row) {
        None => false,
        Some(k) => entangled[k as usize],
    }
}

fn definition_row_fault(
    set: &[Part<'_>],
    types: &TypeTable<'_>,
    entangled: &[bool],
    a: u32,
    row: u32,
) -> Option<Refusal>
    requires there { a < length set.now }
    requires same { types.now ≡ set.now }
    requires entangled { entangled.now ≡ map (is_entangled set.now) (range_with_len 0 (length (types_of set.now))) }
    requires some { 0 < row }
    requires row { row ≤ count_in (assembly_at set.now a) TYPE_DEF }
    ensures { result ≡ first_of (type_tests set.now a TYPE_DEF row) }
{
    let place = Place {
        assembly: a,
        table: TYPE_DEF,
        row,
    };
    if is_entangled(types, entangled, a, row) {
        return Some(place.refusal(Rule::N3, 0));
    }
    if name_is_taken(&set[a as usize], row) {
        return Some(place.refusal(Rule::N4, 0));
    }
    None
}

/// The first refusal at a TypeDef row; `entangled` says by number which types are on a circle, or
/// hold structs too deep.
pub fn definition_fault(
    set: &[Part<'_>],
    types: &TypeTable<'_>,
    entangled: &[bool],
    a: u32,
) -> Option<Refusal>
    requires there { a < length set.now }
    requires same { types.now ≡ set.now }
    requires entangled { entangled.now ≡ map (is_entangled set.now) (range_with_len 0 (length (types_of set.now))) }
    ensures { result ≡ first_of (table_tests set.now a TYPE_DEF) }
{
    let count = set[a as usize].count(TYPE_DEF);
    for k in 0..count {
        let found = definition_row_fault(set, types, entangled, a, k + 1);
        if found.is_some() {
            return found;
        }
    }
    None
}
