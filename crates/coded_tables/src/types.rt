// Types of a program by their identity (ECMA-335, II.23.1.16).
ghost use Rattle.std.specs.Prelude.{◌≡◌, List, ℕ, bytes_eq, find, map, option_map, IfOk};
ghost use Rattle.cil_semantics.specs.Core.{prim_names};
ghost use Rattle.set_rows.specs.Sets.{Assemblies};
ghost use Rattle.set_program.specs.Environment.{number_or, outside_ty, prim_byte, ty_by_id};
ghost use Rattle.value_types.specs.ValueNames.{value_names};

use cil_base::Name;
use cil_model::Ty;
use set_names::DistinctNames;
use set_program::TypeId;
use std::alloc::{AllocError, Global};
use type_table::TypeTable;
use value_types::is_value;

/// The types that are one byte in signatures, each by its name.
static PRIM_NAMES: [(u8, &str); 18] = [
    (0x01, "System.Void"),
    (0x02, "System.Boolean"),
    (0x03, "System.Char"),
    (0x04, "System.SByte"),
    (0x05, "System.Byte"),
    (0x06, "System.Int16"),
    (0x07, "System.UInt16"),
    (0x08, "System.Int32"),
    (0x09, "System.UInt32"),
    (0x0A, "System.Int64"),
    (0x0B, "System.UInt64"),
    (0x0C, "System.Single"),
    (0x0D, "System.Double"),
    (0x0E, "System.String"),
    (0x16, "System.TypedReference"),
    (0x18, "System.IntPtr"),
    (0x19, "System.UIntPtr"),
    (0x1C, "System.Object"),
];

#[tactic(auto, unfolding(cil_semantics::specs::Core::prim_names))]
fn prim_names() -> &'static [(u8, &'static str)]
    ensures { map (λ row. (row.0, row.1.now)) result.now ≡ prim_names }
{
    &PRIM_NAMES
}

fn byte_among(rows: &[(u8, &'static str)], name: &[u8]) -> Option<u8>
    ensures { result ≡ option_map (λ row. row.0) (find (λ row. bytes_eq name.now row.1.now) rows.now) }
{
    for row in rows {
        if name == row.1.as_bytes() {
            return Some(row.0);
        }
    }
    None
}

/// The byte of a type that is one byte in signatures.
fn prim_byte(name: &[u8]) -> Option<u8>
    ensures { result ≡ prim_byte name.now }
{
    byte_among(prim_names(), name)
}

pub(crate) fn number_or_zero(number: Option<u32>) -> u32
    ensures { result ≡ number_or 0 number }
{
    match number {
        Some(k) => k,
        None => 0,
    }
}

/// A type that isn't of the set.
fn outside_type(alloc: Global, values: &DistinctNames, name: &[u8]) -> Result<Ty, AllocError>
    ensures { IfOk result (λ t. (s : Assemblies) → values.now ≡ value_names s → t ≡ outside_ty s name.now (prim_byte name.now)) }
{
    match prim_byte(name) {
        Some(b) => Ok(Ty::Prim(b)),
        None => Ok(Ty::Outside {
            name: Name::from_slice(alloc, name)?,
            value: is_value(values, name),
        }),
    }
}

/// The type of a program that an identity names; `values` has the names of the set's value types.
pub fn type_by_id(
    alloc: Global,
    table: &TypeTable<'_>,
    values: &DistinctNames,
    id: &TypeId,
) -> Result<Ty, AllocError>
    requires { values.now ≡ value_names table.now }
    ensures { IfOk result (λ t. t ≡ ty_by_id table.now id.now) }
{
    match id {
        TypeId::Row { assembly, row } => {
            Ok(Ty::Known(number_or_zero(table.row_number(*assembly, *row))))
        }
        TypeId::Outside(name) => outside_type(alloc, values, name.as_slice()),
    }
}
