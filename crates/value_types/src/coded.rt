// The coded types behind VALUETYPE in the signatures of an assembly (ECMA-335, II.23.1.16).
ghost use Rattle.std.specs.Prelude.{◌≡◌, ◌++◌, IfOk, OnOk};
ghost use Rattle.value_types.specs.CodedValues.{table_values, coded_values};

use crate::signatures::push_row;
use cil_base::U32s;
use cil_base::tables::{
    FIELD, MEMBER_REF, METHOD_DEF, METHOD_SPEC, PROPERTY, STAND_ALONE_SIG, TYPE_SPEC,
};
use set_rows::Rows;
use std::alloc::{AllocError, Global};

/// Appends those of a table whose signatures stand in this column.
fn push_table(
    alloc: Global,
    rows: &Rows<'_>,
    table: u8,
    column: u8,
    out: &mut U32s,
) -> Result<(), AllocError>
    ensures { OnOk result (out.new ≡ out.old ++ table_values rows.now table column) }
{
    let count = rows.count(table);
    for k in 0..count {
        push_row(alloc, rows, table, column, k + 1, out)?;
    }
    Ok(())
}

#[tactic(auto, unfolding(crate::specs::CodedValues::coded_values))]
fn push_tables(alloc: Global, rows: &Rows<'_>, out: &mut U32s) -> Result<(), AllocError>
    ensures { OnOk result (out.new ≡ out.old ++ coded_values rows.now) }
{
    push_table(alloc, rows, FIELD, 2, out)?;
    push_table(alloc, rows, METHOD_DEF, 4, out)?;
    push_table(alloc, rows, MEMBER_REF, 2, out)?;
    push_table(alloc, rows, STAND_ALONE_SIG, 0, out)?;
    push_table(alloc, rows, PROPERTY, 2, out)?;
    push_table(alloc, rows, TYPE_SPEC, 0, out)?;
    push_table(alloc, rows, METHOD_SPEC, 1, out)
}

/// The coded types behind VALUETYPE in the signatures of an assembly, table by table.
pub fn coded_values(alloc: Global, rows: &Rows<'_>) -> Result<U32s, AllocError>
    ensures { IfOk result (λ coded. coded ≡ coded_values rows.now) }
{
    let mut coded = U32s::new(alloc);
    push_tables(alloc, rows, &mut coded)?;
    Ok(coded)
}
