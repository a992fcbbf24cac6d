// The tables of an assembly (ECMA-335, II.22).
ghost use Rattle.std.specs.Prelude.{◌≡◌, ◌⊎◌, ℕ, ◌+◌, ◌-◌, ◌<◌, ◌≤◌, ◌^◌, ◌++◌, ◌↔◌, length, map, IsSome, MatchOption, IfOk, OnOk, OnErr, true};
ghost use Rattle.cil_base.specs.Refusals.{First, NoneBroken, InTurn, Fails, OnRefused, OnMemory};
ghost use Rattle.heap_writer.specs.Growth.{HeapGrowths};
ghost use Rattle.cli_heaps.specs.Root.{tables};
ghost use Rattle.cli_tables.specs.TableRules.{HeaderBroken, RowsBroken};
ghost use Rattle.lane_cols.specs.Places.{places};
ghost use Rattle.cli_tables.specs.Schema.{columns_of};
ghost use Rattle.cli_tables.specs.Tables.{column_of, rows_of, cell_of, HasCell, IsShaped, AreIn, IsRow, IsAppended, IsSet, fits_column, rows_with, blank_tables};
ghost use Rattle.cli_tables.specs.Stream.{kind_of};
ghost use Rattle.cli_tables.specs.Layout.{tables_in};
ghost use Rattle.cli_tables.specs.Growth.{table_full};
ghost use Rattle.cli_tables.specs.declared.sizes.Sizes.{Sizes};
ghost use Rattle.cli_tables.specs.Written.{counts_to, is_many, sizes_to, stream_in, column_fits, table_fits, indexes_fit, row_fits, Grows, NoneFull, IsOverfull, IsRefused, FitsLimits, AreOfOne, Holds};
ghost use Rattle.cil_base.specs.Bytes.{padded};
ghost use Rattle.heap_writer.specs.Written.{parts, written_root, GrewFrom, IsWritten, EntriesRead, limit_tests};

use crate::header::first_in_header;
use crate::reading::{blank_tables, read_tables};
use crate::schema::{TABLE_COUNT, columns};
use crate::sizes::{Sizes, read_sizes, rows_start_of};
use crate::table::Table;
use crate::written::{fits_width, is_index, stream_size, write_stream};
use cil_base::limits::ROW_LIMIT;
use cil_base::{Bytes, Fault, Place, Refusal, Rule, U32s};
use cli_heaps::Heaps;
use heap_writer::{HeapBuilder, first_limit, write_metadata};
use lane_cols::places_of;
use std::alloc::{AllocError, Global};
use std::marker::Model;

/// The tables, each as its columns. Rows count from 1, columns from 0, and a coded index is kept
/// as the number that is written.
#[derive(Drop)]
pub struct Tables {
    tables: Vec<Table>,
}

impl Model for Tables {
    ghost use Rattle.std.specs.Prelude.{ℕ, List};
    ghost use Rattle.cli_tables.specs.Tables.{IsShaped};

    ghost Value = { List (List (List ℕ)) };

    ghost view = { λ t. t.tables.items };

    ghost invariant = { λ t. IsShaped t.tables.items };
}

impl Tables {
    /// Reads the tables of the stream `#~` (II.24.2.6). A refusal names `assembly` and the first
    /// broken place: M3 on the header; else, by table, row and column, M4 to M7.
    pub fn read(alloc: Global, heaps: &Heaps<'_>, assembly: u32) -> Result<Tables, Fault>
        ensures cells { IfOk result (AreIn (tables heaps.now.bytes)) }
        ensures exact { IfOk result (λ t. t ≡ tables_in (tables heaps.now.bytes)) }
        ensures shaped { IfOk result IsShaped }
        // They can be written again, whatever is added to the heaps.
        ensures writable { IfOk result (λ ts. (grown : HeapGrowths) → indexes_fit (sizes_to heaps.now.bytes grown ts) ts ≡ true) }
        ensures header { OnOk result (NoneBroken (HeaderBroken heaps.now.bytes assembly)) }
        ensures accepted { OnOk result (NoneBroken (RowsBroken heaps.now.bytes assembly)) }
        ensures refused { OnRefused result (InTurn (HeaderBroken heaps.now.bytes assembly) (First (RowsBroken heaps.now.bytes assembly))) }
    {
        let stream = heaps.tables();
        let _whole = rows_start_of(stream);
        let _short = heaps.metadata();
        let sizes = read_sizes(stream);
        if let Some(refusal) = first_in_header(stream, &sizes, heaps.tables_offset(), assembly) {
            return Err(Fault::Refused(refusal));
        }
        match read_tables(alloc, heaps, stream, &sizes, assembly) {
            Ok(tables) => Ok(Tables { tables }),
            Err(fault) => Err(fault),
        }
    }

    /// Tables without rows, to be appended to.
    pub fn blank(alloc: Global) -> Result<Tables, AllocError>
        ensures blank { IfOk result (λ t. t ≡ blank_tables) }
        ensures rows { (table : ℕ) → IfOk result (λ t. rows_of t table ≡ 0) }
    {
        Ok(Tables {
            tables: blank_tables(alloc)?,
        })
    }

    /// How many rows a table has; none where it is not read.
    pub fn rows(&self, table: u8) -> u32
        ensures rows { result ≡ rows_of self.now table }
        ensures shaped { IsShaped self.now }
    {
        self.column(table, 0).len() as u32
    }

    /// The cells of a column, by rising row; none where there is no such column.
    pub fn column(&self, table: u8, column: u8) -> &[u32]
        ensures cells { result.now ≡ column_of self.now table column }
        ensures shaped { IsShaped self.now }
    {
        match self.tables.get(table as usize) {
            None => &[],
            Some(table) => table.column(column as usize),
        }
    }

    /// The number in a cell, or None where there is no such cell.
    pub fn cell(&self, table: u8, row: u32, column: u8) -> Option<u32>
        ensures value { result ≡ cell_of self.now table row column }
        ensures there { IsSome result ↔ HasCell self.now table row column }
    {
        if row == 0 {
            return None;
        }
        self.column(table, column).get(row as usize - 1).copied()
    }

    /// The rows that hold a number in a column, rising.
    pub fn rows_where(
        &self,
        alloc: Global,
        table: u8,
        column: u8,
        value: u32,
    ) -> Result<U32s, AllocError>
        requires { column < length (columns_of table) }
        ensures { IfOk result (λ rows. rows ≡ rows_with self.now table column value) }
    {
        let mut rows = Vec::new(alloc);
        let places = places_of(alloc, self.column(table, column), value)?;
        let found = places.as_slice();
        for place in found {
            rows.push(*place + 1)?;
        }
        Ok(U32s::from_vec(rows))
    }

    /// Appends a row and gives its number. L5, with the table and 2^24, exactly where it has
    /// 2^24 - 1 rows or more; a refusal leaves the tables as they were.
    pub fn append(&mut self, table: u8, cells: &[u32]) -> Result<u32, Fault>
        requires { IsRow table cells.now }
        ensures row { IfOk result (λ row. row ≡ rows_of self.old table + 1) }
        ensures appended { OnOk result (IsAppended self.old table cells.now self.new) }
        ensures room { OnOk result (rows_of self.old table < 2 ^ 24 - 1) }
        ensures writable { OnOk result ((old new : Sizes) → Grows old new → indexes_fit old self.old ≡ true → row_fits new table cells.now ≡ true → indexes_fit new self.new ≡ true) }
        ensures full { OnRefused result (λ r. (r ≡ table_full table) × (2 ^ 24 - 1 ≤ rows_of self.old table)) }
        ensures memory { OnMemory result (rows_of self.old table < 2 ^ 24 - 1) }
        ensures err { OnErr result (self.new ≡ self.old) }
    {
        let rows = self.rows(table);
        if rows >= ROW_LIMIT {
            return Err(Fault::Refused(table_full(table)));
        }
        match self.push(table, cells) {
            Ok(()) => Ok(rows + 1),
            Err(e) => Err(Fault::Memory(e)),
        }
    }

    /// Writes one cell; all else stays.
    pub fn set(&mut self, table: u8, row: u32, column: u8, value: u32)
        requires cell { HasCell self.old table row column }
        requires fits { fits_column (kind_of table column) value ≡ true }
        ensures { IsSet self.old table row column value self.new }
    {
        self.tables[table as usize].set(column as usize, row as usize - 1, value);
    }

    /// The whole metadata of these tables, with the heaps that have grown: columns are as wide as
    /// the rows and heaps that are written make them. The version text and unknown streams stay. L5
    /// where a table has over 2^24 - 1 rows (II.24.2.6), or L5 and L6 as `first_limit` says; the
    /// limits are tested before anything is allocated.
    pub fn write(
        &self,
        alloc: Global,
        heaps: &Heaps<'_>,
        grown: &HeapBuilder,
    ) -> Result<Bytes, Fault>
        requires grew { GrewFrom heaps.now.bytes grown.now }
        requires fit { indexes_fit (sizes_to heaps.now.bytes grown.now self.now) self.now ≡ true }
        ensures written { IfOk result (IsWritten heaps.now.bytes grown.now (stream_in heaps.now.bytes grown.now self.now)) }
        ensures bytes { IfOk result (λ new. new ≡ written_root heaps.now.bytes (parts heaps.now.bytes grown.now (stream_in heaps.now.bytes grown.now self.now))) }
        ensures entries { IfOk result (EntriesRead heaps.now.bytes grown.now) }
        ensures cells { IfOk result (λ new. AreIn (tables new) self.now) }
        ensures holds { IfOk result (λ new. Holds (tables heaps.now.bytes) (sizes_to heaps.now.bytes grown.now self.now) self.now (tables new)) }
        ensures header { IfOk result (λ new. AreOfOne self.now → (assembly : ℕ) → NoneBroken (HeaderBroken new assembly)) }
        ensures room { OnOk result (NoneFull self.now) }
        ensures limits { OnOk result (NoneBroken (Fails (limit_tests heaps.now.bytes grown.now (stream_in heaps.now.bytes grown.now self.now)))) }
        ensures short { OnOk result (length (written_root heaps.now.bytes (parts heaps.now.bytes grown.now (stream_in heaps.now.bytes grown.now self.now))) ≤ 2 ^ 27) }
        ensures refused { OnRefused result (IsRefused heaps.now.bytes grown.now self.now) }
        // A table that is too long is named before all else.
        ensures full { OnRefused result (λ r. IsOverfull self.now r ⊎ NoneFull self.now) }
        ensures memory { OnMemory result (FitsLimits heaps.now.bytes grown.now self.now) }
    {
        if let Some(table) = self.first_full() {
            return Err(Fault::Refused(table_full(table)));
        }
        let sizes = self.written_sizes(heaps, grown);
        let old = heaps.tables();
        let tables = self.tables.as_slice();
        if let Some(refusal) = first_limit(heaps, grown, stream_size(&sizes)) {
            return Err(Fault::Refused(refusal));
        }
        let stream = write_stream(alloc, old, &sizes, tables)?;
        write_metadata(alloc, heaps, grown, &stream)
    }

    /// Whether each index fits the width that its column has in what `write` makes.
    #[tactic(auto, unfolding(crate::specs::Written::indexes_fit))]
    pub fn fits(&self, heaps: &Heaps<'_>, grown: &HeapBuilder) -> bool
        ensures { result ≡ indexes_fit (sizes_to heaps.now.bytes grown.now self.now) self.now }
    {
        let sizes = self.written_sizes(heaps, grown);
        (0..TABLE_COUNT as u8).all(|table| self.table_fits(&sizes, table))
    }

    fn table_fits(&self, sizes: &Sizes, table: u8) -> bool
        ensures { result ≡ table_fits sizes.now self.now table }
    {
        (0..columns(table).len() as u8).all(|column| self.column_fits(sizes, table, column))
    }

    fn column_fits(&self, sizes: &Sizes, table: u8, column: u8) -> bool
        ensures { result ≡ column_fits sizes.now self.now table column }
    {
        match columns(table).get(column as usize) {
            None => true,
            Some(kind) => {
                !is_index(*kind) || fits_width(self.column(table, column), sizes.width(*kind))
            }
        }
    }

    /// A table that has more rows than a written one may have.
    fn first_full(&self) -> Option<u8>
        ensures { MatchOption result (NoneFull self.now) (λ table. 2 ^ 24 - 1 < rows_of self.now table) }
    {
        let _ = &self.tables;
        for table in 0..TABLE_COUNT as u8 {
            if self.rows(table) > ROW_LIMIT {
                return Some(table);
            }
        }
        None
    }

    /// How many rows each table has.
    fn counts(&self) -> [u32; 64]
        ensures { result ≡ counts_to self.now }
    {
        let mut counts = [0; 64];
        for table in 0..64u8 {
            counts[table as usize] = self.rows(table);
        }
        counts
    }

    /// The sizes of what is written.
    fn written_sizes(&self, heaps: &Heaps<'_>, grown: &HeapBuilder) -> Sizes
        ensures { result ≡ sizes_to heaps.now.bytes grown.now self.now }
    {
        let counts = self.counts();
        Sizes {
            counts,
            wide_strings: is_large(heaps.strings(), grown.strings_added()),
            wide_guids: heaps.guids().len() / 16 > SHORT_OFFSETS,
            wide_blobs: is_large(heaps.blobs(), grown.blobs_added()),
        }
    }

    fn push(&mut self, table: u8, cells: &[u32]) -> Result<(), AllocError>
        requires row { IsRow table cells.now }
        requires room { rows_of self.old table + 1 < 2 ^ 32 }
        ensures ok { OnOk result (IsAppended self.old table cells.now self.new) }
        ensures err { OnErr result (self.new ≡ self.old) }
    {
        self.tables[table as usize].push(cells)
    }
}

/// The most offsets that two bytes tell.
const SHORT_OFFSETS: usize = 0xFFFF;

/// Whether a heap has more places once it is padded 4 to a multiple of 4.
fn is_large(old: &[u8], added: &[u8]) -> bool
    ensures { result ≡ is_many (length (padded 4 (old.now ++ added.now))) }
{
    old.len() + added.len() > SHORT_OFFSETS - 3
}

fn table_full(table: u8) -> Refusal
    ensures { result ≡ table_full table }
{
    let place = Place {
        assembly: 0,
        table,
        row: 0,
    };
    place.refusal(Rule::L5, ROW_LIMIT + 1)
}
