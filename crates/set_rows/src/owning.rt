// The types that own rows of Field and MethodDef (ECMA-335, II.22.37).
ghost use Rattle.std.specs.Prelude.{◌≡◌, ◌+◌, ◌-◌, ◌<◌, ◌≤◌, ◌^◌, min, length, IfOk};
ghost use Rattle.set_rows.specs.Sets.{cell, count_in};
ghost use Rattle.set_rows.specs.Owners.{owned_end};
ghost use Rattle.set_rows.specs.Owners.{AreOwners, IsFilled};

use crate::rows::Rows;
use std::alloc::{AllocError, Global};

/// Writes a row from one place up to another.
fn fill(owners: &mut Vec<u32>, from: usize, to: usize, row: u32)
    requires { to ≤ length owners.old.items }
    ensures { IsFilled owners.old.items owners.new.items from to row }
{
    if to <= from {
        return;
    }
    for i in from..to {
        owners[i] = row;
    }
}

/// One past the place of the last row that a TypeDef row owns.
fn end_place(rows: &Rows<'_>, column: u8, table: u8, row: u32) -> u32
    ensures { result ≡ min (owned_end rows.now column table row - 1) (count_in rows.now table) }
{
    if row < rows.count(0x02) {
        return rows
            .cell(0x02, row + 1, column)
            .saturating_sub(1)
            .min(rows.count(table));
    }
    rows.count(table)
}

/// By row of Field (column 4) or MethodDef (column 5) from 0: the row of the type that owns it, or 0.
pub fn owners(alloc: Global, rows: &Rows<'_>, column: u8, table: u8) -> Result<Vec<u32>, AllocError>
    ensures { IfOk result (λ v. AreOwners rows.now column table v.items) }
{
    let count = rows.count(table);
    let types = rows.count(0x02);
    let mut owners = Vec::new(alloc);
    for _k in 0..count {
        owners.push(0)?;
    }
    for k in 0..types {
        // The first type counts, so they are gone through from the last on.
        let row = types - k;
        let from = rows.cell(0x02, row, column).saturating_sub(1);
        let to = end_place(rows, column, table, row);
        fill(&mut owners, from as usize, to as usize, row);
    }
    Ok(owners)
}
