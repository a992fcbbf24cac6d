// The rows of two libraries that Mono's tools made, against what Mono's own reader says of them.

use crate::assembled::{ASSEMBLED, ASSEMBLED_ROWS};
use crate::compiled::{COMPILED, COMPILED_ROWS};
use cil_base::Fault;
use cli_heaps::Heaps;
use cli_tables::{Column, TABLE_COUNT, Tables, columns};
use pe_image::Image;
use std::alloc::{AllocError, Global};

/// How many bytes of a blob a row shows.
const SHOWN: usize = 16;

fn push_hex(alloc: Global, text: &mut String, bytes: &[u8]) -> Result<(), AllocError> {
    for byte in bytes {
        text.push_str(format!(in alloc; "{byte:02X}")?.as_str())?;
    }
    Ok(())
}

fn push_string(text: &mut String, string: Option<&[u8]>) -> Result<(), AllocError> {
    text.push('\'')?;
    for byte in string.unwrap_or(b"?") {
        text.push(char::from(*byte))?;
    }
    text.push('\'')
}

fn push_blob(alloc: Global, text: &mut String, blob: Option<&[u8]>) -> Result<(), AllocError> {
    let bytes = blob.unwrap_or(b"?");
    let shown = bytes.len().min(SHOWN);
    text.push('[')?;
    push_hex(alloc, text, &bytes[..shown])?;
    if bytes.len() > shown {
        text.push_str(format!(in alloc; "+{}", bytes.len() - shown)?.as_str())?;
    }
    text.push(']')
}

fn push_guid(alloc: Global, text: &mut String, guid: Option<&[u8]>) -> Result<(), AllocError> {
    text.push('{')?;
    push_hex(alloc, text, guid.unwrap_or(b""))?;
    text.push('}')
}

fn push_place(
    alloc: Global,
    text: &mut String,
    table: Option<u8>,
    row: u32,
) -> Result<(), AllocError> {
    match table {
        Some(table) => text.push_str(format!(in alloc; "{table:02X}:{row}")?.as_str()),
        None => text.push_str("?"),
    }
}

/// Appends what a cell of this kind says.
fn push_cell(
    alloc: Global,
    text: &mut String,
    heaps: &Heaps<'_>,
    kind: Column,
    value: u32,
) -> Result<(), AllocError> {
    match kind {
        Column::U8 | Column::U16 | Column::U32 => {
            text.push_str(format!(in alloc; "{value}")?.as_str())
        }
        Column::StringIndex => push_string(text, heaps.string(value)),
        Column::BlobIndex => push_blob(alloc, text, heaps.blob(value)),
        Column::GuidIndex => push_guid(alloc, text, heaps.guid(value)),
        Column::Row(table) | Column::FirstRow(table) => push_place(alloc, text, Some(table), value),
        Column::Coded(coded) => {
            let tags = 1 << coded.bits();
            push_place(alloc, text, coded.table_of(value % tags), value / tags)
        }
    }
}

fn row_text(
    alloc: Global,
    heaps: &Heaps<'_>,
    tables: &Tables,
    table: u8,
    row: u32,
) -> Result<String, AllocError> {
    let mut text = format!(in alloc; "{table:02X} {row}:")?;
    let mut column = 0;
    for kind in columns(table) {
        text.push(' ')?;
        match tables.cell(table, row, column) {
            Some(value) => push_cell(alloc, &mut text, heaps, *kind, value)?,
            None => text.push('?')?,
        }
        column = u8::saturating_add(column, 1);
    }
    Ok(text)
}

fn is_row(
    alloc: Global,
    heaps: &Heaps<'_>,
    tables: &Tables,
    place: (u8, u32),
    wanted: Option<&&'static str>,
) -> Result<bool, AllocError> {
    match wanted {
        None => Ok(false),
        Some(wanted) => {
            let text = row_text(alloc, heaps, tables, place.0, place.1)?;
            Ok(text.as_str() == *wanted)
        }
    }
}

/// The first of the rows that reads otherwise, or stands on one side alone.
fn other_in_tables(
    alloc: Global,
    heaps: &Heaps<'_>,
    tables: &Tables,
    wanted: &[&'static str],
) -> Result<Option<usize>, AllocError> {
    let mut index: usize = 0;
    for table in 0..TABLE_COUNT as u8 {
        for row in 0..tables.rows(table) {
            let place = (table, row.saturating_add(1));
            if !is_row(alloc, heaps, tables, place, wanted.get(index))? {
                return Ok(Some(index));
            }
            index = index.saturating_add(1);
        }
    }
    Ok(if index == wanted.len() {
        None
    } else {
        Some(index)
    })
}

/// The same for an assembly; a refusal where it isn't read.
fn other_row(alloc: Global, bytes: &[u8], wanted: &[&'static str]) -> Result<Option<usize>, Fault> {
    if bytes.len() > 10_000 {
        return Ok(Some(0));
    }
    let image = match Image::read(bytes, 0) {
        Ok(image) => image,
        Err(refusal) => return Err(Fault::Refused(refusal)),
    };
    let metadata = image.metadata();
    if metadata.len() > 10_000 {
        return Ok(Some(0));
    }
    let heaps = match Heaps::read(metadata, 0) {
        Ok(heaps) => heaps,
        Err(refusal) => return Err(Fault::Refused(refusal)),
    };
    let tables = Tables::read(alloc, &heaps, 0)?;
    Ok(other_in_tables(alloc, &heaps, &tables, wanted)?)
}

#[test]
fn an_assembled_library_is_read_as_mono_reads_it(rt: HostRuntime) -> Result<(), Fault> {
    assert_eq!(rt; other_row(rt.alloc(), ASSEMBLED, &ASSEMBLED_ROWS)?, None);
    Ok(())
}

#[test]
fn a_compiled_library_is_read_as_mono_reads_it(rt: HostRuntime) -> Result<(), Fault> {
    assert_eq!(rt; other_row(rt.alloc(), COMPILED, &COMPILED_ROWS)?, None);
    Ok(())
}
