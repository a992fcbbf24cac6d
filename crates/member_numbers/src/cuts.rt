// How many of TARGET's rows stand before its runtime class.
ghost use Rattle.std.specs.Prelude.{◌≡◌, ◌-◌, ◌<◌, length};
ghost use Rattle.set_rows.specs.Sets.{assembly_at};
ghost use Rattle.set_program.specs.Numbering.{type_cut, first_owned, cut};
ghost use Rattle.members.specs.MemberRows.{member_table};

use cil_base::tables::{FIELD, METHOD_DEF, TYPE_DEF};
use set_program::Part;

/// The assembly that is rewritten.
pub fn first<'s, 'a>(set: &'s [Part<'a>]) -> &'s Part<'a>
    requires { 0 < length set.now }
    ensures { result.now ≡ assembly_at set.now 0 }
{
    &set[0]
}

/// How many of its types.
pub fn types_before_class(target: &Part<'_>) -> u32
    ensures { result ≡ type_cut target.now - 1 }
{
    match target.type_named(b"__ContractsRuntime") {
        Some(row) => row.saturating_sub(1),
        None => target.count(TYPE_DEF),
    }
}

/// How many rows of a table stand before those that a type owns, where a column of TypeDef has the
/// first of them.
fn owned_before(target: &Part<'_>, row: u32, column: u8, table: u8) -> u32
    ensures { result ≡ first_owned target.now column table row - 1 }
{
    if target.count(TYPE_DEF) < row {
        return target.count(table);
    }
    target.cell(TYPE_DEF, row, column).saturating_sub(1)
}

fn owned_before_class(target: &Part<'_>, column: u8, table: u8) -> u32
    ensures { result ≡ first_owned target.now column table (type_cut target.now) - 1 }
{
    match target.type_named(b"__ContractsRuntime") {
        Some(row) => owned_before(target, row, column, table),
        None => target.count(table),
    }
}

/// How many of its fields, or methods.
pub fn members_before_class(target: &Part<'_>, is_field: bool) -> u32
    ensures { result ≡ cut target.now (member_table is_field) - 1 }
{
    if is_field {
        return owned_before_class(target, 4, FIELD);
    }
    owned_before_class(target, 5, METHOD_DEF)
}
