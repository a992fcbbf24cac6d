// Tables that are read, or refused at a place, and written.
use crate::sample::changed;
use cil_base::{Bytes, Fault, Rule};
use cli_heaps::Heaps;
use cli_tables::Tables;
use heap_writer::HeapBuilder;
use std::alloc::{AllocError, Global};

// The root with its stream headers, the heaps at 72 and 80, and `#~` at 84: one Module, two
// TypeDef, one MethodDef and one Assembly row, whose rows begin at 124.
static META: [u8; 198] = *b"BSJB\x01\0\x01\0\0\0\0\0\x04\0\0\0v1\0\0\0\0\x03\0\
    \x54\0\0\0\x72\0\0\0#~\0\0\
    \x48\0\0\0\x08\0\0\0#Strings\0\0\0\0\
    \x50\0\0\0\x04\0\0\0#Blob\0\0\0\
    \0ab\0cde\0\0\x01\x08\0\
    \0\0\0\0\x02\0\0\x01\x45\0\0\0\x01\0\0\0\0\0\0\0\0\0\0\0\
    \x01\0\0\0\x02\0\0\0\x01\0\0\0\x01\0\0\0\
    \0\0\x01\0\0\0\0\0\0\0\
    \0\0\0\0\x01\0\0\0\0\0\x01\0\x01\0\
    \x01\0\0\0\x04\0\0\0\0\0\x01\0\x01\0\
    \x50\x20\0\0\0\0\x06\0\x05\0\x01\0\x01\0\
    \x04\x80\0\0\x01\0\x02\0\x03\0\x04\0\0\0\0\0\0\0\x01\0\0\0";

/// A refusal by its rule, table, row and column or offset.
type Answer = Option<(Rule, u8, u32, u32)>;

fn answer(alloc: Global, meta: &[u8]) -> Result<Answer, AllocError> {
    if meta.len() > 1000 {
        return Ok(None);
    }
    let Ok(heaps) = Heaps::read(meta, 3) else {
        return Ok(None);
    };
    match Tables::read(alloc, &heaps, 3) {
        Ok(_) => Ok(None),
        Err(Fault::Refused(r)) => Ok(Some((r.rule, r.table, r.row, r.at))),
        Err(Fault::Memory(e)) => Err(e),
    }
}

/// Whether the sample with one byte changed is refused so, or not at all.
fn change_is_refused(
    alloc: Global,
    place: usize,
    byte: u8,
    want: Answer,
) -> Result<bool, AllocError> {
    let meta = changed(alloc, &META, place, &[byte])?;
    Ok(answer(alloc, &meta)? == want)
}

#[test]
fn each_rule_is_named_at_its_place(rt: HostRuntime) -> Result<(), AllocError> {
    for (place, byte, want) in [
        (0, b'B', None),
        // HeapSizes, an unread table in Valid, two Assembly rows
        (90, 8, Some((Rule::M3, 0, 0, 90))),
        (92, 0x4D, Some((Rule::M3, 0, 0, 92))),
        (120, 2, Some((Rule::M3, 0, 0, 92))),
        // `#~` is one byte too short
        (28, 113, Some((Rule::M4, 0x20, 1, 0))),
        // Module.Name, MethodDef.Signature
        (126, 9, Some((Rule::M7, 0, 1, 1))),
        (172, 2, Some((Rule::M7, 6, 1, 4))),
        // TypeDef.Extends names no TypeRef row, and has an unused tag
        (142, 37, Some((Rule::M5, 2, 1, 3))),
        (142, 3, Some((Rule::M5, 2, 1, 3))),
        // FieldList may be one past the last row
        (144, 2, Some((Rule::M5, 2, 1, 4))),
        // MethodList falls from 2 to 1
        (146, 2, Some((Rule::M6, 2, 2, 5))),
    ] {
        assert!(rt;
            change_is_refused(rt.alloc(), place, byte, want)?,
            "at {place}"
        );
    }
    Ok(())
}

fn sample() -> Result<Heaps<'static>, Fault> {
    match Heaps::read(&META, 0) {
        Ok(heaps) => Ok(heaps),
        Err(refusal) => Err(Fault::Refused(refusal)),
    }
}

fn read(alloc: Global) -> Result<Tables, Fault> {
    let heaps = sample()?;
    Tables::read(alloc, &heaps, 0)
}

/// Whether each cell by table, row and column holds its number, or isn't there.
fn cells_are(alloc: Global, wanted: &[(u8, u32, u8, Option<u32>)]) -> Result<bool, Fault> {
    let tables = read(alloc)?;
    Ok(
        wanted.iter().all(|(table, row, column, value)| tables.cell(*table, *row, *column)
            == *value),
    )
}

#[test]
fn cells_are_read(rt: HostRuntime) -> Result<(), Fault> {
    let wanted = [
        (0x02, 2, 1, Some(4)),
        (0x06, 1, 0, Some(0x2050)),
        (0x20, 1, 0, Some(0x8004)),
        (0x20, 1, 4, Some(4)),
        (0x00, 1, 0, Some(0)),
        (0x00, 2, 0, None),
        (0x02, 0, 0, None),
        (0x02, 3, 0, None),
        (0x02, 1, 6, None),
        (0x01, 1, 0, None),
        (0x03, 1, 0, None),
    ];
    assert!(rt; cells_are(rt.alloc(), &wanted)?);
    Ok(())
}

/// Whether these rows of TypeDef hold the number in a column.
#[tactic(auto, unfolding(cli_tables::specs::Schema::the_tables))]
fn rows_are(alloc: Global, column: u8, value: u32, wanted: &[u32]) -> Result<bool, Fault> {
    if column > 5 {
        return Ok(false);
    }
    let tables = read(alloc)?;
    let rows = tables.rows_where(alloc, 0x02, column, value)?;
    Ok(rows.as_slice() == wanted)
}

#[test]
fn rows_are_found_by_a_cell(rt: HostRuntime) -> Result<(), Fault> {
    assert!(rt; rows_are(rt.alloc(), 4, 1, &[1, 2])?);
    assert!(rt; rows_are(rt.alloc(), 1, 4, &[2])?);
    assert!(rt; rows_are(rt.alloc(), 1, 9, &[])?);
    Ok(())
}

/// Whether two rows are appended and a cell is written, and all else stays.
#[tactic(auto, unfolding(cli_tables::specs::Schema::the_tables))]
fn append_and_set(tables: &mut Tables) -> Result<bool, Fault> {
    let first = tables.append(0x1A, &[4])?;
    let second = tables.append(0x1A, &[1])?;
    if tables.cell(0x02, 1, 0).is_some() {
        tables.set(0x02, 1, 0, 7);
    }
    Ok(
        first == 1
            && second == 2
            && tables.rows(0x1A) == 2
            && tables.rows(0x02) == 2
            && tables.cell(0x1A, 1, 0) == Some(4)
            && tables.cell(0x1A, 2, 0) == Some(1)
            && tables.cell(0x02, 1, 0) == Some(7)
            && tables.cell(0x02, 2, 0) == Some(1),
    )
}

fn rows_grow(alloc: Global) -> Result<bool, Fault> {
    let mut tables = read(alloc)?;
    append_and_set(&mut tables)
}

#[test]
fn rows_are_appended_and_cells_written(rt: HostRuntime) -> Result<(), Fault> {
    assert!(rt; rows_grow(rt.alloc())?);
    Ok(())
}

/// Appends so many TypeRef rows, the last of which they and a TypeDef row name.
#[tactic(auto, unfolding(cli_tables::specs::Schema::the_tables))]
fn add_rows(tables: &mut Tables, rows: u32) -> Result<(), Fault> {
    let index = 4 * (rows % 0x10_0000);
    for _row in 0..rows {
        tables.append(0x01, &[index + 3, 1, 4])?;
    }
    if tables.cell(0x02, 2, 3).is_some() {
        tables.set(0x02, 2, 3, index + 1);
    }
    Ok(())
}

/// The tables, written; no bytes where an index doesn't fit.
fn write(alloc: Global, heaps: &Heaps<'_>, tables: &Tables) -> Result<Bytes, Fault> {
    let grown = HeapBuilder::new(alloc, heaps)?;
    if !tables.fits(heaps, &grown) {
        return Ok(Bytes::new(alloc));
    }
    tables.write(alloc, heaps, &grown)
}

fn write_rows(alloc: Global, rows: u32) -> Result<Bytes, Fault> {
    let heaps = sample()?;
    let mut tables = Tables::read(alloc, &heaps, 0)?;
    add_rows(&mut tables, rows)?;
    write(alloc, &heaps, &tables)
}

/// Whether the metadata has a stream of tables of this length, and the rows read back.
fn reads_back(alloc: Global, meta: &[u8], rows: u32, len: usize) -> Result<bool, Fault> {
    if meta.len() > 1 << 20 {
        return Ok(false);
    }
    let heaps = match Heaps::read(meta, 0) {
        Ok(heaps) => heaps,
        Err(refusal) => return Err(Fault::Refused(refusal)),
    };
    let index = 4 * (rows % 0x10_0000);
    let tables = Tables::read(alloc, &heaps, 0)?;
    Ok(
        heaps.tables().len() == len
            && tables.rows(0x01) == rows
            && tables.cell(0x01, rows, 0) == Some(index + 3)
            && tables.cell(0x02, 2, 3) == Some(index + 1)
            && tables.cell(0x20, 1, 0) == Some(0x8004),
    )
}

fn is_written(alloc: Global, rows: u32, len: usize) -> Result<bool, Fault> {
    let meta = write_rows(alloc, rows)?;
    reads_back(alloc, meta.as_slice(), rows, len)
}

#[test]
fn many_rows_widen_the_indexes_that_name_them(rt: HostRuntime) -> Result<(), Fault> {
    // rows of 6, 14, 10, 14 and 22 bytes behind a header of 44; then two coded indexes are wide
    for (rows, len) in [(16_383u32, 98_416usize), (16_384, 131_196)] {
        assert!(rt; is_written(rt.alloc(), rows, len)?, "with {rows}");
    }
    Ok(())
}

#[tactic(auto, unfolding(cli_tables::specs::Schema::the_tables))]
fn set_field(tables: &mut Tables, field: u32) {
    if tables.cell(0x02, 1, 4).is_some() {
        tables.set(0x02, 1, 4, field);
    }
}

fn fits(alloc: Global, heaps: &Heaps<'_>, tables: &Tables) -> Result<bool, Fault> {
    let grown = HeapBuilder::new(alloc, heaps)?;
    Ok(tables.fits(heaps, &grown))
}

/// Whether the tables fit their columns with this number as the first of the fields of a type.
fn fits_with(alloc: Global, field: u32) -> Result<bool, Fault> {
    let heaps = sample()?;
    let mut tables = Tables::read(alloc, &heaps, 0)?;
    set_field(&mut tables, field);
    fits(alloc, &heaps, &tables)
}

#[test]
fn an_index_past_its_width_is_told(rt: HostRuntime) -> Result<(), Fault> {
    assert!(rt; fits_with(rt.alloc(), 0xFFFF)?);
    assert!(rt; !fits_with(rt.alloc(), 0x1_0000)?);
    Ok(())
}
