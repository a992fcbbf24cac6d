// The `#~` stream that tables are written to (ECMA-335, II.24.2.6).
ghost use Rattle.std.specs.Prelude.{◌≡◌, ℕ, ◌+◌, ◌-◌, ◌%◌, ◌<◌, ◌≤◌, ◌++◌, [], length, replicate, get_or, slice_index, nat_lt, IsTrue, ◌^◌, IfOk, OnOk, if◌then◌else◌};
ghost use Rattle.std.specs.List.{list_all};
ghost use Rattle.cli_tables.specs.Schema.{columns_of};
ghost use Rattle.cli_tables.specs.Stream.{count_of, is_width};
ghost use Rattle.cli_tables.specs.Tables.{IsShaped, rows_of};
ghost use Rattle.cli_tables.specs.Written.{pieces, has_rows, bits_of, heap_bits, header_bytes, count_bytes, row_bytes, table_bytes, stream_to, size_to, Fit, Holds, is_index};
ghost use Rattle.cil_base.specs.Bytes.{padding, padded};

use crate::schema::{Column, TABLE_COUNT, columns};
use crate::sizes::Sizes;
use crate::table::Table;
use cil_base::{padding, push_number, push_padding, push_u64};
use lane_cols::all_at_most;
use std::alloc::{AllocError, Global};

/// Whether the column holds indexes.
pub fn is_index(column: Column) -> bool
    ensures { result ≡ is_index column }
{
    !matches!(column, Column::U8 | Column::U16 | Column::U32)
}

/// Whether each number fits so many bytes.
pub fn fits_width(cells: &[u32], width: u8) -> bool
    requires { IsTrue (is_width width) }
    ensures { result ≡ list_all (λ value. nat_lt value (256 ^ width)) cells.now }
{
    match width {
        1 => all_at_most(cells, 0xFF),
        2 => all_at_most(cells, 0xFFFF),
        _ => true,
    }
}

/// The bits of Valid: the tables that have rows.
fn valid_bits(sizes: &Sizes) -> u64
    ensures { result ≡ bits_of (has_rows sizes.now) 64 }
{
    let mut bits = 0u64;
    for table in 0..64u8 {
        if sizes.count(table) > 0 {
            bits += 1 << table;
        }
    }
    bits
}

/// HeapSizes: the heaps that are large.
fn heap_bits(sizes: &Sizes) -> u8
    ensures { result ≡ heap_bits sizes.now }
{
    u8::from(sizes.wide_strings) + 2 * u8::from(sizes.wide_guids) + 4 * u8::from(sizes.wide_blobs)
}

/// The header up to the counts, with the versions and the sorted tables of an old stream.
#[tactic(auto, unfolding(crate::specs::Written::header_bytes))]
fn header(alloc: Global, old: &[u8], sizes: &Sizes) -> Result<Vec<u8>, AllocError>
    requires { 24 ≤ length old.now }
    ensures { IfOk result (λ v. v.items ≡ header_bytes old.now sizes.now) }
{
    let mut out = Vec::from_slice(alloc, &old[..6])?;
    out.push(heap_bits(sizes))?;
    out.push(old[7])?;
    push_u64(&mut out, valid_bits(sizes))?;
    out.extend_from_slice(&old[16..24])?;
    Ok(out)
}

/// Appends a count for each table that has rows.
fn push_counts(out: &mut Vec<u8>, sizes: &Sizes) -> Result<(), AllocError>
    ensures { OnOk result (out.new.items ≡ out.old.items ++ pieces (count_bytes sizes.now) 64) }
{
    for table in 0..64u8 {
        let count = sizes.count(table);
        if count > 0 {
            push_number(out, 4, count)?;
        }
    }
    Ok(())
}

/// Appends a row; rows count from 0 here.
fn push_row(
    out: &mut Vec<u8>,
    sizes: &Sizes,
    table: u8,
    cells: &Table,
    row: usize,
) -> Result<(), AllocError>
    requires { (column : ℕ) → column < length (columns_of table) → row < length (get_or cells.now column []) }
    ensures { OnOk result (out.new.items ≡ out.old.items ++ row_bytes sizes.now table cells.now row) }
{
    let kinds = columns(table);
    for column in 0..kinds.len() {
        let width = sizes.width(kinds[column]);
        push_number(out, width, cells.column(column)[row])?;
    }
    Ok(())
}

/// Appends the rows of a table.
fn push_table(out: &mut Vec<u8>, sizes: &Sizes, table: u8, cells: &Table) -> Result<(), AllocError>
    requires { (column : ℕ) → column < length (columns_of table) → length (get_or cells.now column []) ≡ count_of sizes.now table }
    ensures { OnOk result (out.new.items ≡ out.old.items ++ pieces (row_bytes sizes.now table cells.now) (count_of sizes.now table)) }
{
    for row in 0..sizes.count(table) {
        push_row(out, sizes, table, cells, row as usize)?;
    }
    Ok(())
}

/// Appends the rows of all tables.
fn push_tables(out: &mut Vec<u8>, sizes: &Sizes, tables: &[Table]) -> Result<(), AllocError>
    requires shaped { IsShaped tables.now }
    requires fit { Fit sizes.now tables.now }
    ensures { OnOk result (out.new.items ≡ out.old.items ++ pieces (table_bytes sizes.now tables.now) 45) }
{
    for table in 0..TABLE_COUNT as u8 {
        push_table(out, sizes, table, &tables[table as usize])?;
    }
    Ok(())
}

/// How many bytes the stream of tables of these sizes has.
pub fn stream_size(sizes: &Sizes) -> usize
    ensures { result ≡ size_to sizes.now }
{
    let mut size = 24 + 4 * valid_bits(sizes).count_ones() as usize;
    for table in 0..TABLE_COUNT as u8 {
        size += sizes.table_bytes(table);
    }
    size + padding(4, size)
}

/// The stream `#~` of these tables, in columns as wide as the sizes make them. What its header
/// tells beside the sizes is that of an old stream.
#[tactic(auto, unfolding(crate::specs::Written::stream_to))]
pub fn write_stream(
    alloc: Global,
    old: &[u8],
    sizes: &Sizes,
    tables: &[Table],
) -> Result<Vec<u8>, AllocError>
    requires whole { 24 ≤ length old.now }
    requires shaped { IsShaped tables.now }
    requires fit { Fit sizes.now tables.now }
    ensures bytes { IfOk result (λ v. v.items ≡ stream_to old.now sizes.now tables.now) }
    ensures holds { IfOk result (λ v. Holds old.now sizes.now tables.now v.items) }
{
    let mut out = header(alloc, old, sizes)?;
    push_counts(&mut out, sizes)?;
    push_tables(&mut out, sizes, tables)?;
    push_padding(&mut out, 4)?;
    Ok(out)
}
