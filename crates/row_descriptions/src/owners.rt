// The types that own rows, and the rows of each (ECMA-335, II.22.37).
ghost use Rattle.std.specs.Prelude.{◌≡◌, ◌*◌, IfOk};
ghost use Rattle.set_rows.specs.Owners.{AreOwners, row_in};
ghost use Rattle.set_types.specs.CodedTypes.{coded_of};
ghost use Rattle.row_descriptions.specs.RowDescriptions.{owner_number_in};
ghost use Rattle.row_descriptions.specs.RowLists.{AreOwned};

use crate::row_lists::lists_by_number;
use cil_base::U32s;
use cil_base::tables::TYPE_DEF;
use set_rows::Rows;
use set_types::CodedTypes;
use std::alloc::{AllocError, Global};

/// The owner of a row, where `owners` has them by row from 0.
pub fn owner_at(owners: &[u32], row: u32) -> Option<u32>
    ensures { result ≡ row_in owners.now row }
{
    if row == 0 || row as usize > owners.len() || owners[row as usize - 1] == 0 {
        return None;
    }
    Some(owners[row as usize - 1])
}

/// The number of the type of a TypeDef row.
pub fn type_number(coded: &CodedTypes, row: u32) -> Option<u32>
    ensures { result ≡ (coded_of coded.now).number (row * 4) }
{
    if row == 0 {
        return None;
    }
    coded.def_numbers.get(row as usize - 1).copied()
}

/// The number of the type that owns a row, or 0 where none does.
pub fn owner_number(coded: &CodedTypes, owners: &[u32], row: u32) -> u32
    ensures { result ≡ owner_number_in (coded_of coded.now) owners.now row }
{
    match owner_at(owners, row) {
        Some(owner) => type_number(coded, owner).unwrap_or(0),
        None => 0,
    }
}

/// By TypeDef row: the rows of Field or MethodDef that it owns, where `owners` has the owners by
/// row from 0. One pass over them.
pub fn owned_rows(
    alloc: Global,
    rows: &Rows<'_>,
    column: u8,
    table: u8,
    owners: &[u32],
) -> Result<Vec<U32s>, AllocError>
    requires { AreOwners rows.now column table owners.now }
    ensures { IfOk result (λ v. AreOwned rows.now column table v.items) }
{
    let _count = rows.count(table);
    let types = rows.count(TYPE_DEF) as usize;
    lists_by_number(alloc, owners, types + 1)
}
