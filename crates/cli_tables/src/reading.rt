// The tables of a `#~` stream, read and tested one after another (ECMA-335, II.24.2.6).
ghost use Rattle.std.specs.Prelude.{◌≡◌, ℕ, ◌+◌, ◌-◌, ◌*◌, ◌<◌, ◌≤◌, ◌^◌, length, IfOk, OnOk, MatchOption, map, ◌++◌, ◌∷◌, []};
ghost use Rattle.std.specs.List.{range_with_len};
ghost use Rattle.cil_base.specs.Refusals.{First, NoneBroken, OnRefused, first_of};
ghost use Rattle.cli_tables.specs.Stream.{sizes_of, rows_start};
ghost use Rattle.cli_tables.specs.Layout.{table_start, row_end, whole_table, tables_in};
ghost use Rattle.cli_tables.specs.Tables.{rows_in, blank_tables};
ghost use Rattle.cli_tables.specs.TableRules.{Broken, BrokenIn};

use crate::rules::first_in_table;
use crate::sizes::{Sizes, rows_start_of};
use crate::table::Table;
use cil_base::{Fault, Place, Rule};
use cli_heaps::Heaps;
use std::alloc::{AllocError, Global};

/// How many of some rows fit in a space.
fn whole_rows(space: usize, width: usize, count: u32) -> u32
    ensures few { result ≤ count }
    ensures fit { result * width ≤ space }
    ensures most { result < count → space < (result + 1) * width }
{
    if width == 0 {
        return count;
    }
    (count as usize).min(space / width) as u32
}

/// Reads and tests one table, whose rows begin at `start`.
fn read_table(
    alloc: Global,
    heaps: &Heaps<'_>,
    stream: &[u8],
    sizes: &Sizes,
    assembly: u32,
    table: u8,
    start: usize,
) -> Result<Table, Fault>
    requires sizes { sizes.now ≡ sizes_of stream.now }
    requires place { start ≡ table_start stream.now table }
    requires near { start ≤ length stream.now }
    requires short { length stream.now < 2 ^ 32 }
    ensures ok { IfOk result (λ t. t ≡ whole_table stream.now table) }
    ensures within { OnOk result (row_end stream.now table (rows_in stream.now table) ≤ length stream.now) }
    ensures clean { OnOk result (NoneBroken (BrokenIn heaps.now.bytes stream.now assembly table)) }
    ensures refused { OnRefused result (First (BrokenIn heaps.now.bytes stream.now assembly table)) }
{
    let count = sizes.count(table);
    let rows = whole_rows(stream.len() - start, sizes.row_width(table), count);
    let read = Table::read(alloc, stream, sizes, table, start, rows)?;
    if let Some(refusal) = first_in_table(heaps, sizes, assembly, table, &read, rows) {
        return Err(Fault::Refused(refusal));
    }
    if rows < count {
        let place = Place {
            assembly,
            table,
            row: rows + 1,
        };
        return Err(Fault::Refused(place.refusal(Rule::M4, 0)));
    }
    Ok(read)
}

fn push(tables: &mut Vec<Table>, table: Table) -> Result<(), AllocError>
    ensures { OnOk result (tables.new.items ≡ tables.old.items ++ table ∷ []) }
{
    tables.push(table)?;
    Ok(())
}

/// Reads and tests all tables of a stream.
pub fn read_tables(
    alloc: Global,
    heaps: &Heaps<'_>,
    stream: &[u8],
    sizes: &Sizes,
    assembly: u32,
) -> Result<Vec<Table>, Fault>
    requires sizes { sizes.now ≡ sizes_of stream.now }
    requires whole { rows_start stream.now ≤ length stream.now }
    requires short { length stream.now < 2 ^ 32 }
    ensures ok { IfOk result (λ ts. ts.items ≡ tables_in stream.now) }
    ensures clean { OnOk result (NoneBroken (Broken heaps.now.bytes stream.now assembly)) }
    ensures refused { OnRefused result (First (Broken heaps.now.bytes stream.now assembly)) }
{
    let mut tables = Vec::new(alloc);
    let mut start = rows_start_of(stream);
    for table in 0..45u8 {
        let read = match read_table(alloc, heaps, stream, sizes, assembly, table, start) {
            Ok(read) => read,
            Err(fault) => return Err(fault),
        };
        push(&mut tables, read)?;
        start += sizes.table_bytes(table);
    }
    Ok(tables)
}

/// All tables, without rows.
pub fn blank_tables(alloc: Global) -> Result<Vec<Table>, AllocError>
    ensures { IfOk result (λ ts. ts.items ≡ blank_tables) }
{
    let mut tables = Vec::new(alloc);
    for table in 0..45u8 {
        push(&mut tables, Table::blank(alloc, table)?)?;
    }
    Ok(tables)
}
