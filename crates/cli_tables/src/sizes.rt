// How many rows the tables have, and how wide that makes their columns (ECMA-335, II.24.2.6).
ghost use Rattle.std.specs.Prelude.{◌≡◌, ◌+◌, ◌*◌, ◌<◌, ◌≤◌, ◌^◌, not, length, slice_index, IsTrue, true, count_ones, if◌then◌else◌, ℕ, get_or};
ghost use Rattle.cil_base.specs.Numbers.{num};
ghost use Rattle.std.specs.List.{list_all};
ghost use Rattle.cli_tables.specs.Schema.{coded_tables, tag_bits, columns_of};
ghost use Rattle.cli_tables.specs.Stream.{has_table, rows_start, counts_in, sizes_of, count_of, index_width, has_few, width_of, row_width, offset_of, is_width};

use crate::schema::{CodedIndex, Column, columns};
use byteorder::{ByteOrder, LittleEndian};
use cil_base::read_u32_at;

/// How many rows each table has, and which heaps have indexes of four bytes.
#[derive(Clone, Copy)]
pub struct Sizes {
    pub counts: [u32; 64],
    pub wide_strings: bool,
    pub wide_guids: bool,
    pub wide_blobs: bool,
}

/// The bits of Valid: the tables that have rows.
#[tactic(auto, unfolding(cil_base::specs::Numbers::num))]
pub fn valid_of(stream: &[u8]) -> u64
    requires { 24 ≤ length stream.now }
    ensures { result ≡ num stream.now 8 8 }
{
    LittleEndian::read_u64(&stream[8..])
}

fn number_if(stream: &[u8], at: usize, is_there: bool) -> u32
    requires { is_there ≡ true → at + 4 ≤ length stream.now }
    ensures { result ≡ (if is_there then num stream.now at 4 else 0) }
{
    if is_there {
        read_u32_at(stream, at).unwrap()
    } else {
        0
    }
}

fn counts(stream: &[u8]) -> [u32; 64]
    requires { rows_start stream.now ≤ length stream.now }
    ensures { result ≡ counts_in stream.now }
{
    let valid = valid_of(stream);
    let mut counts = [0; 64];
    let mut at = 24usize;
    for table in 0..64u32 {
        let is_there = (valid >> table) % 2 == 1;
        counts[table as usize] = number_if(stream, at, is_there);
        if is_there {
            at += 4;
        }
    }
    counts
}

/// The sizes that the header of a `#~` stream tells.
pub fn read_sizes(stream: &[u8]) -> Sizes
    requires { rows_start stream.now ≤ length stream.now }
    ensures { result ≡ sizes_of stream.now }
{
    let heap_sizes = heap_sizes_of(stream);
    Sizes {
        counts: counts(stream),
        wide_strings: heap_sizes % 2 == 1,
        wide_guids: (heap_sizes >> 1) % 2 == 1,
        wide_blobs: (heap_sizes >> 2) % 2 == 1,
    }
}

/// Where the rows begin: behind a count for each bit of Valid that is set.
pub fn rows_start_of(stream: &[u8]) -> usize
    requires { 24 ≤ length stream.now }
    ensures start { result ≡ rows_start stream.now }
    ensures bits { rows_start stream.now ≡ 24 + 4 * count_ones (num stream.now 8 8) }
    ensures bytes { (i : ℕ) → get_or stream.now i 0 < 2 ^ 8 }
{
    let valid = valid_of(stream);
    24 + 4 * valid.count_ones() as usize
}

/// The bits of HeapSizes: the heaps that are large.
pub fn heap_sizes_of(stream: &[u8]) -> u8
    requires { 24 ≤ length stream.now }
    ensures { result ≡ num stream.now 6 1 }
{
    stream[6]
}

fn index_bytes(is_short: bool) -> u8
    ensures value { result ≡ index_width is_short }
    ensures small { result ≤ 4 }
    ensures known { IsTrue (is_width result) }
{
    if is_short { 2 } else { 4 }
}

impl Sizes {
    ghost use Rattle.cli_tables.specs.Stream.{count_of, has_few, width_of, row_width, offset_of, is_width};

    /// How many rows a table has.
    pub fn count(&self, table: u8) -> u32
        ensures { result ≡ count_of self.now table }
    {
        match self.counts.get(table as usize) {
            None => 0,
            Some(count) => *count,
        }
    }

    fn has_few(&self, bits: u32, table: Option<u8>) -> bool
        requires { bits ≤ 5 }
        ensures { result ≡ has_few self.now bits table }
    {
        match table {
            None => true,
            Some(table) => self.count(table) < 1 << (16 - bits),
        }
    }

    fn is_short(&self, coded: CodedIndex) -> bool
        ensures { result ≡ list_all (has_few self.now (tag_bits coded)) (coded_tables coded) }
    {
        let bits = coded.bits();
        coded
            .tables()
            .iter()
            .all(|table| self.has_few(bits, *table))
    }

    /// How many bytes a column takes.
    pub fn width(&self, column: Column) -> u8
        ensures value { result ≡ width_of self.now column }
        ensures small { result ≤ 4 }
        ensures known { IsTrue (is_width result) }
    {
        match column {
            Column::U8 => 1,
            Column::U16 => 2,
            Column::U32 => 4,
            Column::StringIndex => index_bytes(!self.wide_strings),
            Column::GuidIndex => index_bytes(!self.wide_guids),
            Column::BlobIndex => index_bytes(!self.wide_blobs),
            Column::Row(table) => index_bytes(self.has_few(0, Some(table))),
            Column::FirstRow(table) => index_bytes(self.has_few(0, Some(table))),
            Column::Coded(coded) => index_bytes(self.is_short(coded)),
        }
    }

    /// How many bytes a row takes.
    pub fn row_width(&self, table: u8) -> usize
        ensures width { result ≡ row_width self.now table }
        ensures small { result ≤ 64 }
    {
        let mut total = 0usize;
        for column in columns(table) {
            total += usize::from(self.width(*column));
        }
        total
    }

    /// How many bytes all rows of a table take.
    pub fn table_bytes(&self, table: u8) -> usize
        ensures size { result ≡ count_of self.now table * row_width self.now table }
        ensures small { result ≤ 2 ^ 38 }
    {
        self.count(table) as usize * self.row_width(table)
    }
}
