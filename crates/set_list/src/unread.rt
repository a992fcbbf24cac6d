// Rows of contract attributes that are not read yet.
ghost use Rattle.std.specs.Prelude.{◌≡◌, MatchOption};
ghost use Rattle.cil_base.specs.Refusals.{First, NoneBroken};
ghost use Rattle.set_rows.specs.Sets.{assembly_of};
ghost use Rattle.set_list.specs.Unread.{is_unread_name, is_unread_row, refusal_in, IsUnread, IsUnreadIn};

use assembly::Assembly;
use cil_base::tables::{TYPE_DEF, TYPE_REF};
use cil_base::{Refusal, Rule};
use set_rows::Rows;

/// Whether a name is that of an attribute by which contracts are made that are not own ones.
fn is_unread_name(name: &[u8]) -> bool
    ensures { result ≡ is_unread_name name.now }
{
    name == b"ContractAbbreviatorAttribute".as_slice()
        || name == b"ContractClassAttribute".as_slice()
        || name == b"ContractClassForAttribute".as_slice()
        || name == b"ContractInvariantMethodAttribute".as_slice()
}

fn is_unread_row(rows: &Rows<'_>, table: u8, row: u32) -> bool
    ensures { result ≡ is_unread_row rows.now table row }
{
    rows.text(table, row, 2) == b"System.Diagnostics.Contracts".as_slice()
        && is_unread_name(rows.text(table, row, 1))
}

fn refusal_in(table: u8, row: u32) -> Refusal
    ensures { result ≡ refusal_in table row }
{
    Refusal {
        rule: Rule::Z1,
        assembly: 0,
        table,
        row,
        at: 0,
    }
}

/// Z1 at the first such row of a table.
fn first_in_table(rows: &Rows<'_>, table: u8) -> Option<Refusal>
    ensures { MatchOption result (NoneBroken (IsUnreadIn rows.now table)) (First (IsUnreadIn rows.now table)) }
{
    for k in 0..rows.count(table) {
        if is_unread_row(rows, table, k + 1) {
            return Some(refusal_in(table, k + 1));
        }
    }
    None
}

fn first_in_rows(rows: &Rows<'_>) -> Option<Refusal>
    ensures { MatchOption result (NoneBroken (IsUnread rows.now)) (First (IsUnread rows.now)) }
{
    if let Some(refusal) = first_in_table(rows, TYPE_REF) {
        return Some(refusal);
    }
    first_in_table(rows, TYPE_DEF)
}

/// Z1 at the first TypeRef row, or else TypeDef row, with the name of such an attribute.
pub(crate) fn first_unread_row(assembly: &Assembly<'_>) -> Option<Refusal>
    ensures { MatchOption result (NoneBroken (IsUnread (assembly_of assembly.now.bytes))) (First (IsUnread (assembly_of assembly.now.bytes))) }
{
    first_in_rows(&Rows::new(assembly))
}
