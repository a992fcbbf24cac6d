// The names of the types of outside members (ECMA-335, II.23.1.16).
ghost use Rattle.std.specs.Prelude.{◌≡◌, IfOk};
ghost use Rattle.cil_model.specs.declared.ty.Ty.{out-Ty};
ghost use Rattle.cil_semantics.specs.Core.{prim_name};
ghost use Rattle.member_table.specs.Members.{layer_name};

use cil_base::Name;
use cil_model::Ty;
use std::alloc::{AllocError, Global};

/// The name of a type that is one byte in signatures; empty where it has none.
fn prim_name(b: u8) -> &'static [u8]
    ensures { result.now ≡ prim_name b }
{
    match b {
        0x01 => b"System.Void",
        0x02 => b"System.Boolean",
        0x03 => b"System.Char",
        0x04 => b"System.SByte",
        0x05 => b"System.Byte",
        0x06 => b"System.Int16",
        0x07 => b"System.UInt16",
        0x08 => b"System.Int32",
        0x09 => b"System.UInt32",
        0x0A => b"System.Int64",
        0x0B => b"System.UInt64",
        0x0C => b"System.Single",
        0x0D => b"System.Double",
        0x0E => b"System.String",
        0x16 => b"System.TypedReference",
        0x18 => b"System.IntPtr",
        0x19 => b"System.UIntPtr",
        0x1C => b"System.Object",
        _ => &[],
    }
}

/// The name of the type that an outside member is of.
pub fn layer_name(alloc: Global, ty: &Ty) -> Result<Name, AllocError>
    ensures { IfOk result (λ name. name ≡ layer_name (out-Ty ty.now)) }
{
    match ty {
        Ty::Outside { name, value: _ } => Name::from_slice(alloc, name.as_slice()),
        Ty::Prim(b) => Name::from_slice(alloc, prim_name(*b)),
        Ty::Array(_) => Name::from_slice(alloc, b"System.Array"),
        _ => Name::from_slice(alloc, b"<Module>"),
    }
}
