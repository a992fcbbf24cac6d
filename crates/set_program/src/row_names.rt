// Names as rows spell them (ECMA-335, II.6.1.3, II.22.14, II.22.37).
ghost use Rattle.std.specs.Prelude.{◌≡◌, IfOk};
ghost use Rattle.set_program.specs.TypeNames.{joined, own_name, inner_name};
ghost use Rattle.set_program.specs.References.{exported_name};

use cil_base::Name;
use cil_base::tables::{EXPORTED_TYPE, TYPE_DEF};
use set_rows::Rows;
use std::alloc::{AllocError, Global};

/// A name in its namespace.
pub fn joined(alloc: Global, namespace: &[u8], name: &[u8]) -> Result<Name, AllocError>
    ensures { IfOk result (λ full. full ≡ joined namespace.now name.now) }
{
    match namespace {
        [] => Name::from_slice(alloc, name),
        [_, ..] => {
            let mut full = Vec::from_slice(alloc, namespace)?;
            full.push(b'.')?;
            full.extend_from_slice(name)?;
            Ok(Name::from_vec(full))
        }
    }
}

/// The name of a type inside one of another name.
pub fn inner_name(alloc: Global, outer: &[u8], name: &[u8]) -> Result<Name, AllocError>
    ensures { IfOk result (λ full. full ≡ inner_name outer.now name.now) }
{
    let mut full = Vec::from_slice(alloc, outer)?;
    full.push(b'/')?;
    full.extend_from_slice(name)?;
    Ok(Name::from_vec(full))
}

/// The name of a TypeDef row, without the types around it.
pub fn own_type_name(alloc: Global, rows: &Rows<'_>, row: u32) -> Result<Name, AllocError>
    ensures { IfOk result (λ name. name ≡ own_name rows.now TYPE_DEF row) }
{
    joined(
        alloc,
        rows.text(TYPE_DEF, row, 2),
        rows.text(TYPE_DEF, row, 1),
    )
}

/// The name of an ExportedType row, without the types around it.
pub fn exported_name(alloc: Global, rows: &Rows<'_>, row: u32) -> Result<Name, AllocError>
    ensures { IfOk result (λ name. name ≡ exported_name rows.now row) }
{
    joined(
        alloc,
        rows.text(EXPORTED_TYPE, row, 3),
        rows.text(EXPORTED_TYPE, row, 2),
    )
}
