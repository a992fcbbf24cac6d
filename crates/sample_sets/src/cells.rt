// Cells of rows, and the numbers and bytes in them.
ghost use Rattle.std.specs.Prelude.{◌≡◌, true};
ghost use Rattle.std.specs.List.{list_any};
ghost use Rattle.cli_heaps.specs.Root.{is_zero};
ghost use Rattle.cli_tables.specs.Tables.{fits_column, fits_row, IsRow};

use asm_gen::Builder;
use cil_base::{Bytes, Fault, Refusal, Rule, U32s};
use cli_tables::{Column, columns};
use std::alloc::Global;

/// By what a text that is no sample is refused: a rule that no command tries first.
pub(crate) fn no_sample() -> Fault {
    Fault::Refused(Refusal::limit(Rule::L6, 0))
}

fn fits_column(column: Column, value: u32) -> bool
    ensures { result ≡ fits_column column value }
{
    match column {
        Column::U8 => value < 256,
        Column::U16 => value < 65536,
        _ => true,
    }
}

/// Whether there is a number for each column, and each fits.
fn fits_row(columns: &[Column], cells: &[u32]) -> bool
    ensures { result ≡ fits_row columns.now cells.now }
{
    match columns.split_first() {
        None => cells.is_empty(),
        Some((column, columns)) => match cells.split_first() {
            None => false,
            Some((value, values)) => fits_column(*column, *value) && fits_row(columns, values),
        },
    }
}

pub(crate) fn is_row(table: u8, cells: &[u32]) -> bool
    ensures { result ≡ true → IsRow table cells.now }
{
    let columns = columns(table);
    !columns.is_empty() && fits_row(columns, cells)
}

fn has_zero(text: &[u8]) -> bool
    ensures { result ≡ list_any is_zero text.now }
{
    text.iter().any(|byte| *byte == 0)
}

fn number(word: &str) -> Result<u32, Fault> {
    let parsed = match word.strip_prefix("0x") {
        Some(digits) => u32::from_str_radix(digits, 16),
        None => word.parse::<u32>(),
    };
    match parsed {
        Ok(number) => Ok(number),
        Err(_) => Err(no_sample()),
    }
}

fn byte(word: &str) -> Result<u8, Fault> {
    match u8::from_str_radix(word, 16) {
        Ok(byte) => Ok(byte),
        Err(_) => Err(no_sample()),
    }
}

/// One byte, or so many of it.
fn push_word(bytes: &mut Bytes, word: &str) -> Result<(), Fault> {
    let (word, count) = match word.split_once('*') {
        Some((word, count)) => (word, number(count)?),
        None => (word, 1),
    };
    let byte = byte(word)?;
    for _ in 0..count {
        bytes.push(byte)?;
    }
    Ok(())
}

fn bytes_of(alloc: Global, text: &str) -> Result<Bytes, Fault> {
    let mut bytes = Bytes::new(alloc);
    for word in text.split_whitespace() {
        push_word(&mut bytes, word)?;
    }
    Ok(bytes)
}

fn place_of_text(builder: &mut Builder, cell: &str) -> Result<u32, Fault> {
    let text = cell.as_bytes();
    if has_zero(text) {
        return Err(no_sample());
    }
    builder.string(text)
}

fn place_of_blob(builder: &mut Builder, alloc: Global, cell: &str) -> Result<u32, Fault> {
    let blob = bytes_of(alloc, cell)?;
    builder.blob(blob.as_slice())
}

fn place_of_code(builder: &mut Builder, alloc: Global, cell: &str) -> Result<u32, Fault> {
    let code = bytes_of(alloc, cell)?;
    builder.code(code.as_slice())
}

/// The number of a cell, whose text, blob or code is appended to the assembly.
fn cell_number(
    builder: &mut Builder,
    alloc: Global,
    column: Column,
    cell: &str,
) -> Result<u32, Fault> {
    if cell == "-" {
        return Ok(0);
    }
    if let Some(code) = cell.strip_prefix(":") {
        return place_of_code(builder, alloc, code);
    }
    match column {
        Column::StringIndex => place_of_text(builder, cell),
        Column::BlobIndex => place_of_blob(builder, alloc, cell),
        _ => number(cell),
    }
}

/// The numbers of the cells of a row.
fn cell_numbers(
    builder: &mut Builder,
    alloc: Global,
    columns: &[Column],
    mut cells: &str,
) -> Result<U32s, Fault> {
    let mut numbers = U32s::new(alloc);
    for column in columns {
        let (cell, rest) = cells.split_once(", ").unwrap_or((cells, ""));
        numbers.push(cell_number(builder, alloc, *column, cell)?)?;
        cells = rest;
    }
    Ok(numbers)
}

/// Appends a row.
pub(crate) fn add_row(
    builder: &mut Builder,
    alloc: Global,
    table: u8,
    cells: &str,
) -> Result<(), Fault> {
    let numbers = cell_numbers(builder, alloc, columns(table), cells)?;
    if !is_row(table, numbers.as_slice()) {
        return Err(no_sample());
    }
    builder.row(table, numbers.as_slice())?;
    Ok(())
}
