// Which rule the rows of a table break first.
ghost use Rattle.std.specs.Prelude.{◌≡◌, ℕ, ◌+◌, ◌-◌, ◌*◌, ◌<◌, ◌≤◌, ◌^◌, length, true, None, Some, MatchOption, slice_index, get_or, []};
ghost use Rattle.cli_tables.specs.Schema.{columns_of};
ghost use Rattle.cli_tables.specs.TableRules.{names_nothing, naming_rule, is_list, is_past};
ghost use Rattle.cli_tables.specs.CellRules.{cell_rule, before, rule_at, IsCleanRow, AreClean, IsFirstIn};

use crate::schema::{Column, columns};
use crate::sizes::Sizes;
use crate::table::Table;
use cil_base::{Refusal, Rule};
use cli_heaps::Heaps;
use lane_cols::all_at_most;

fn is_past(sizes: &Sizes, table: Option<u8>, row: u32) -> bool
    ensures { result ≡ is_past sizes.now table row }
{
    match table {
        None => true,
        Some(table) => sizes.count(table) < row,
    }
}

/// Whether a number is no index of its column.
fn names_nothing(heaps: &Heaps<'_>, sizes: &Sizes, column: Column, value: u32) -> bool
    ensures { result ≡ names_nothing heaps.now.bytes sizes.now column value }
{
    match column {
        Column::StringIndex => !heaps.has_string(value),
        Column::GuidIndex => !heaps.has_guid(value),
        Column::BlobIndex => !heaps.has_blob(value),
        Column::Row(table) => sizes.count(table) < value,
        Column::FirstRow(table) => u64::from(sizes.count(table)) + 1 < u64::from(value),
        Column::Coded(coded) => {
            let tags = 1 << coded.bits();
            is_past(sizes, coded.table_of(value % tags), value / tags)
        }
        _ => false,
    }
}

/// The rule on the numbers of a column.
fn naming_rule(column: Column) -> Rule
    ensures { result ≡ naming_rule column }
{
    match column {
        Column::StringIndex | Column::GuidIndex | Column::BlobIndex => Rule::M7,
        _ => Rule::M5,
    }
}

fn is_list(column: Column) -> bool
    ensures { result ≡ is_list column }
{
    matches!(column, Column::FirstRow(_))
}

/// The first rule that a cell breaks, by its number and that of the row before.
fn cell_rule(
    heaps: &Heaps<'_>,
    sizes: &Sizes,
    column: Column,
    before: u32,
    value: u32,
) -> Option<Rule>
    ensures { result ≡ cell_rule heaps.now.bytes sizes.now column before value }
{
    if names_nothing(heaps, sizes, column, value) {
        Some(naming_rule(column))
    } else if is_list(column) && value < before {
        Some(Rule::M6)
    } else {
        None
    }
}

fn before(cells: &[u32], k: usize) -> u32
    requires { k < length cells.now }
    ensures { result ≡ before cells.now k }
{
    if k == 0 { 0 } else { cells[k - 1] }
}

fn scan(heaps: &Heaps<'_>, sizes: &Sizes, column: Column, cells: &[u32]) -> bool
    ensures { result ≡ true → (k : ℕ) → k < length cells.now → cell_rule heaps.now.bytes sizes.now column (before cells.now k) (slice_index cells.now k) ≡ None }
{
    for k in 0..cells.len() {
        if let Some(_rule) = cell_rule(heaps, sizes, column, before(cells, k), cells[k]) {
            return false;
        }
    }
    true
}

/// The first rule that a row breaks, with its column.
fn first_in_row(
    heaps: &Heaps<'_>,
    sizes: &Sizes,
    table: u8,
    rows: &Table,
    k: usize,
) -> Option<(u32, Rule)>
    requires { (c : ℕ) → c < length (columns_of table) → k < length (get_or rows.now c []) }
    ensures { MatchOption result (IsCleanRow heaps.now.bytes sizes.now table rows.now k (length (columns_of table))) (λ f. (f.0 < length (columns_of table)) × (rule_at heaps.now.bytes sizes.now table rows.now k f.0 ≡ Some f.1) × IsCleanRow heaps.now.bytes sizes.now table rows.now k f.0) }
{
    let columns = columns(table);
    for c in 0..columns.len() {
        let cells = rows.column(c);
        if let Some(rule) = cell_rule(heaps, sizes, columns[c], before(cells, k), cells[k]) {
            return Some((c as u32, rule));
        }
    }
    None
}

fn is_clean_column(heaps: &Heaps<'_>, sizes: &Sizes, column: Column, cells: &[u32]) -> bool
    ensures { result ≡ true → (k : ℕ) → k < length cells.now → cell_rule heaps.now.bytes sizes.now column (before cells.now k) (slice_index cells.now k) ≡ None }
{
    match column {
        Column::U8 | Column::U16 | Column::U32 => true,
        Column::Row(table) => all_at_most(cells, sizes.count(table)),
        _ => scan(heaps, sizes, column, cells),
    }
}

/// Whether each column was found to break no rule. It reads column by column.
fn is_clean(heaps: &Heaps<'_>, sizes: &Sizes, table: u8, rows: &Table, count: u32) -> bool
    requires { (c : ℕ) → c < length (columns_of table) → length (get_or rows.now c []) ≡ count }
    ensures { result ≡ true → AreClean heaps.now.bytes sizes.now table rows.now count }
{
    let columns = columns(table);
    for c in 0..columns.len() {
        if !is_clean_column(heaps, sizes, columns[c], rows.column(c)) {
            return false;
        }
    }
    true
}

/// The first rule that the rows of a table break.
pub fn first_in_table(
    heaps: &Heaps<'_>,
    sizes: &Sizes,
    assembly: u32,
    table: u8,
    rows: &Table,
    count: u32,
) -> Option<Refusal>
    requires { (c : ℕ) → c < length (columns_of table) → length (get_or rows.now c []) ≡ count }
    ensures { MatchOption result (AreClean heaps.now.bytes sizes.now table rows.now count) (IsFirstIn heaps.now.bytes sizes.now assembly table rows.now count) }
{
    if is_clean(heaps, sizes, table, rows, count) {
        return None;
    }
    for k in 0..count {
        if let Some((column, rule)) = first_in_row(heaps, sizes, table, rows, k as usize) {
            return Some(Refusal {
                rule,
                assembly,
                table,
                row: k + 1,
                at: column,
            });
        }
    }
    None
}
