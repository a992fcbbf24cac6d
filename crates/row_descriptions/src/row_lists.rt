// The rows of a table by a number in each (ECMA-335, II.22).
ghost use Rattle.std.specs.Prelude.{◌≡◌, ◌<◌, ◌^◌, [], length, map, replicate, IfOk, OnOk};
ghost use Rattle.set_rows.specs.Sets.{cell, rows_in};
ghost use Rattle.row_descriptions.specs.RowLists.{AreListed, rows_under, rows_with, with_row};

use cil_base::U32s;
use set_rows::Rows;
use std::alloc::{AllocError, Global};

/// So many empty lists.
fn empty_lists(alloc: Global, bound: usize) -> Result<Vec<U32s>, AllocError>
    ensures { IfOk result (λ v. v.items ≡ replicate bound []) }
{
    let mut lists = Vec::new(alloc);
    for _k in 0..bound {
        lists.push(U32s::new(alloc))?;
    }
    Ok(lists)
}

/// Appends a row to the list of a number, where there is one.
fn push_row(lists: &mut Vec<U32s>, n: usize, row: u32) -> Result<(), AllocError>
    ensures { OnOk result (lists.new.items ≡ with_row lists.old.items n row) }
{
    if n >= lists.len() {
        return Ok(());
    }
    lists[n].push(row)
}

/// By number below `bound`: the rows that have it, where `numbers` has the numbers by row from 0.
/// One pass.
pub fn lists_by_number(
    alloc: Global,
    numbers: &[u32],
    bound: usize,
) -> Result<Vec<U32s>, AllocError>
    requires { length numbers.now < 2 ^ 32 }
    ensures { IfOk result (λ v. AreListed (rows_under numbers.now) bound v.items) }
{
    let mut lists = empty_lists(alloc, bound)?;
    for k in 0..numbers.len() {
        push_row(&mut lists, numbers[k] as usize, k as u32 + 1)?;
    }
    Ok(lists)
}

/// The numbers in a column, by row from 0.
pub fn column(alloc: Global, rows: &Rows<'_>, table: u8, column: u8) -> Result<Vec<u32>, AllocError>
    ensures numbers { IfOk result (λ v. v.items ≡ map (λ row. cell rows.now table row column) (rows_in rows.now table)) }
    ensures short { IfOk result (λ v. length v.items < 2 ^ 32) }
{
    let count = rows.count(table);
    let mut numbers = Vec::new(alloc);
    for k in 0..count {
        numbers.push(rows.cell(table, k + 1, column))?;
    }
    Ok(numbers)
}

/// By number below `bound`: the rows of a table that have it in a column. One pass over the table.
pub fn rows_by_cell(
    alloc: Global,
    rows: &Rows<'_>,
    table: u8,
    at: u8,
    bound: usize,
) -> Result<Vec<U32s>, AllocError>
    ensures { IfOk result (λ v. AreListed (rows_with rows.now table at) bound v.items) }
{
    let numbers = column(alloc, rows, table, at)?;
    lists_by_number(alloc, numbers.as_slice(), bound)
}
