// One table, as its columns.
ghost use Rattle.std.specs.Prelude.{◌≡◌, ◌+◌, ◌*◌, ◌<◌, ◌≤◌, ◌^◌, length, IsTrue, IfOk, OnOk, OnErr, ℕ, [], get_or, slice_set};
ghost use Rattle.cil_base.specs.Numbers.{num};
ghost use Rattle.cli_tables.specs.Schema.{columns_of};
ghost use Rattle.cli_tables.specs.Stream.{is_width, strided, row_width, width_of, offset_of};
ghost use Rattle.cli_tables.specs.Layout.{table_in};
ghost use Rattle.cli_tables.specs.Growth.{IsPushed, IsPopped};
ghost use Rattle.cli_tables.specs.Tables.{blank_table};

use crate::schema::columns;
use crate::sizes::Sizes;
use cil_base::{U32s, read_u16_at, read_u32_at};
use std::alloc::{AllocError, Global};
use std::marker::Model;

/// A table's columns, each with one number a row.
#[derive(Drop)]
pub struct Table {
    columns: Vec<U32s>,
}

impl Model for Table {
    ghost use Rattle.std.specs.Prelude.{ℕ, List};

    ghost Value = { List (List ℕ) };

    ghost view = { λ table. table.columns.items };
}

/// Takes the last number of each of the first columns away.
fn pop_row(columns: &mut Vec<U32s>, count: usize)
    requires { count ≤ length columns.old.items }
    ensures { IsPopped columns.old.items count columns.new.items }
{
    for k in 0..count {
        let _last = columns[k].pop();
    }
}

/// Appends a number to each column; a refusal leaves them as they were.
fn push_row(columns: &mut Vec<U32s>, cells: &[u32]) -> Result<(), AllocError>
    requires { length cells.now ≡ length columns.old.items }
    ensures ok { OnOk result (IsPushed columns.old.items cells.now (length cells.now) columns.new.items) }
    ensures err { OnErr result (columns.new.items ≡ columns.old.items) }
{
    for k in 0..cells.len() {
        if let Err(e) = columns[k].push(cells[k]) {
            pop_row(columns, k);
            return Err(e);
        }
    }
    Ok(())
}

/// The number of one, two or four bytes at a place.
fn number(bytes: &[u8], at: usize, width: u8) -> u32
    requires known { IsTrue (is_width width) }
    requires within { at + width ≤ length bytes.now }
    ensures { result ≡ num bytes.now at width }
{
    match width {
        1 => u32::from(bytes[at]),
        2 => u32::from(read_u16_at(bytes, at).unwrap()),
        _ => read_u32_at(bytes, at).unwrap(),
    }
}

/// The numbers that stand a stride apart.
fn read_column(
    alloc: Global,
    bytes: &[u8],
    start: usize,
    stride: usize,
    width: u8,
    rows: u32,
) -> Result<U32s, AllocError>
    requires known { IsTrue (is_width width) }
    requires small { stride < 2 ^ 16 }
    requires near { start < 2 ^ 33 }
    requires within { (k : ℕ) → k < rows → start + k * stride + width ≤ length bytes.now }
    ensures { IfOk result (λ column. column ≡ strided bytes.now start stride width rows) }
{
    let mut cells = Vec::with_capacity(alloc, rows as usize)?;
    for row in 0..rows {
        let at = start + row as usize * stride;
        cells.push(number(bytes, at, width))?;
    }
    Ok(U32s::from_vec(cells))
}

impl Table {
    /// A table with columns and without rows.
    pub fn blank(alloc: Global, table: u8) -> Result<Table, AllocError>
        ensures { IfOk result (λ t. t ≡ blank_table table) }
    {
        let mut blank = Vec::new(alloc);
        for _column in 0..columns(table).len() {
            blank.push(U32s::new(alloc))?;
        }
        Ok(Table { columns: blank })
    }

    /// Reads so many rows that stand one after another.
    pub fn read(
        alloc: Global,
        bytes: &[u8],
        sizes: &Sizes,
        table: u8,
        start: usize,
        rows: u32,
    ) -> Result<Table, AllocError>
        requires near { start < 2 ^ 32 }
        requires within { start + rows * row_width sizes.now table ≤ length bytes.now }
        ensures { IfOk result (λ t. t ≡ table_in bytes.now sizes.now start table rows) }
    {
        let stride = sizes.row_width(table);
        let mut read = Vec::new(alloc);
        let mut at = start;
        for column in columns(table) {
            let width = sizes.width(*column);
            read.push(read_column(alloc, bytes, at, stride, width, rows)?)?;
            at += usize::from(width);
        }
        Ok(Table { columns: read })
    }

    /// The cells of a column; none where there is no such column.
    pub fn column(&self, column: usize) -> &[u32]
        ensures { result.now ≡ get_or self.now column [] }
    {
        match self.columns.get(column) {
            None => &[],
            Some(cells) => cells.as_slice(),
        }
    }

    /// Appends a row; a refusal leaves the table as it was.
    pub fn push(&mut self, cells: &[u32]) -> Result<(), AllocError>
        requires { length cells.now ≡ length self.old }
        ensures ok { OnOk result (IsPushed self.old cells.now (length cells.now) self.new) }
        ensures err { OnErr result (self.new ≡ self.old) }
    {
        push_row(&mut self.columns, cells)
    }

    /// Writes one cell; rows count from 0 here.
    pub fn set(&mut self, column: usize, row: usize, value: u32)
        requires column { column < length self.old }
        requires row { row < length (get_or self.old column []) }
        ensures { self.new ≡ slice_set self.old column (slice_set (get_or self.old column []) row value) }
    {
        self.columns[column].set(row, value);
    }
}
