// Rows that tell of Code Contracts.
ghost use Rattle.std.specs.Prelude.{◌≡◌, ℕ, ◌+◌, ◌<◌, drop, Some, true, IfSome, MatchOption};
ghost use Rattle.cil_base.specs.Refusals.{First, NoneBroken};
ghost use Rattle.pe_image.specs.Cli.{metadata_of};
ghost use Rattle.cli_heaps.specs.Root as root;
ghost use Rattle.cli_heaps.specs.Root.{strings};
ghost use Rattle.cli_heaps.specs.Entries.{string_at};
ghost use Rattle.cli_tables.specs.Tables.{AreIn};
ghost use Rattle.assembly_rewrite.specs.Rewrite.{IsContractRow, IsFirstRow, IsContract, contract_row, contracts_namespace};

use assembly::Assembly;
use cil_base::{Refusal, Rule};
use cli_heaps::Heaps;
use cli_tables::Tables;

/// The bytes from a place on.
fn bytes_from(bytes: &[u8], at: usize) -> &[u8]
    ensures { result.now ≡ drop at bytes.now }
{
    &bytes[at.min(bytes.len())..]
}

/// Whether the namespace of Code Contracts stands at a place of `#Strings`. It reads no further
/// than that name, however long the string there is.
fn is_contracts(heaps: &Heaps<'_>, at: u32) -> bool
    ensures yes { result ≡ true → string_at (strings heaps.now.bytes) at ≡ Some contracts_namespace }
    ensures all { string_at (strings heaps.now.bytes) at ≡ Some contracts_namespace → result ≡ true }
{
    at != 0
        && bytes_from(heaps.strings(), at as usize).starts_with(b"System.Diagnostics.Contracts\0")
}

/// The first row of a table whose third column names that namespace.
fn first_row(tables: &Tables, heaps: &Heaps<'_>, table: u8) -> Option<u32>
    requires { AreIn (root.tables heaps.now.bytes) tables.now }
    ensures { MatchOption result ((row : ℕ) → IsContractRow heaps.now.bytes table row → ⊥) (IsFirstRow heaps.now.bytes table) }
{
    let places = tables.column(table, 2);
    for k in 0..places.len() {
        if is_contracts(heaps, places[k]) {
            return Some(k as u32 + 1);
        }
    }
    None
}

fn contract_row(assembly: u32, table: u8, row: u32) -> Refusal
    ensures { result ≡ contract_row assembly table row }
{
    Refusal {
        rule: Rule::Z1,
        assembly,
        table,
        row,
        at: 0,
    }
}

/// Z1 at the first TypeRef row, or else the first TypeDef row, of that namespace.
fn first_of_tables(tables: &Tables, heaps: &Heaps<'_>) -> Option<Refusal>
    requires { AreIn (root.tables heaps.now.bytes) tables.now }
    ensures { MatchOption result (NoneBroken (IsContract heaps.now.bytes heaps.now.assembly)) (First (IsContract heaps.now.bytes heaps.now.assembly)) }
{
    if let Some(row) = first_row(tables, heaps, 1) {
        return Some(contract_row(heaps.assembly(), 1, row));
    }
    match first_row(tables, heaps, 2) {
        None => None,
        Some(row) => Some(contract_row(heaps.assembly(), 2, row)),
    }
}

/// Z1 at the first row of the assembly that tells of Code Contracts.
pub fn first_contract_row(assembly: &Assembly<'_>) -> Option<Refusal>
    ensures { MatchOption result (NoneBroken (IsContract (metadata_of assembly.now.bytes) assembly.now.assembly)) (First (IsContract (metadata_of assembly.now.bytes) assembly.now.assembly)) }
{
    first_of_tables(assembly.tables(), assembly.heaps())
}
