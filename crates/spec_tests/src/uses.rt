// The rows that name TypeSpec rows (ECMA-335, II.22.21, II.22.23, II.22.27, II.22.37).
ghost use Rattle.std.specs.Prelude.{◌≡◌, ◌<◌, ◌≤◌, ◌^◌, ◌+◌, ℕ, [], length, get_or, map, IfOk};
ghost use Rattle.set_rows.specs.Sets.{cell, rows_in};
ghost use Rattle.spec_tests.specs.SpecTests.{AreUses, parent_rows, parent_spec};

use cil_base::U32s;
use cil_base::tables::{
    GENERIC_PARAM_CONSTRAINT, INTERFACE_IMPL, MEMBER_REF, METHOD_IMPL, TYPE_DEF, TYPE_SPEC,
};
use row_descriptions::{lists_by_number, rows_by_cell};
use set_rows::Rows;
use std::alloc::{AllocError, Global};

/// The rows that name the types of TypeSpec rows: by TypeDefOrRef index those of TypeDef,
/// InterfaceImpl and GenericParamConstraint, and by TypeSpec row those of MethodImpl, by the body
/// and by the declaration.
#[derive(Drop)]
pub struct SpecUses {
    pub types: Vec<U32s>,
    pub interfaces: Vec<U32s>,
    pub constraints: Vec<U32s>,
    pub firsts: Vec<U32s>,
    pub seconds: Vec<U32s>,
}

/// The TypeSpec row of the member that a MethodDefOrRef index names; 0 where there is none.
fn parent_spec(rows: &Rows<'_>, coded: u32) -> u32
    ensures { result ≡ parent_spec rows.now coded }
{
    let parent = rows.cell(MEMBER_REF, coded / 2, 0);
    if coded % 2 == 1 && parent % 8 == 4 {
        return parent / 8;
    }
    0
}

/// Those that a column of MethodImpl names, by row from 0.
fn parent_numbers(alloc: Global, rows: &Rows<'_>, column: u8) -> Result<Vec<u32>, AllocError>
    ensures numbers { IfOk result (λ v. v.items ≡ map (λ i. parent_spec rows.now (cell rows.now METHOD_IMPL i column)) (rows_in rows.now METHOD_IMPL)) }
    ensures short { IfOk result (λ v. length v.items < 2 ^ 32) }
{
    let count = rows.count(METHOD_IMPL);
    let mut numbers = Vec::new(alloc);
    for k in 0..count {
        let coded = rows.cell(METHOD_IMPL, k + 1, column);
        numbers.push(parent_spec(rows, coded))?;
    }
    Ok(numbers)
}

/// By TypeSpec row up to `count`: the MethodImpl rows that name a member of it by a column.
fn parent_lists(
    alloc: Global,
    rows: &Rows<'_>,
    column: u8,
    count: u32,
) -> Result<Vec<U32s>, AllocError>
    ensures { IfOk result (λ v. (row : ℕ) → 1 ≤ row → row < count + 1 → get_or v.items row [] ≡ parent_rows rows.now column row) }
{
    let numbers = parent_numbers(alloc, rows, column)?;
    lists_by_number(alloc, numbers.as_slice(), count as usize + 1)
}

/// All rows that name TypeSpec rows, in one pass over each table.
pub fn spec_uses(alloc: Global, rows: &Rows<'_>) -> Result<SpecUses, AllocError>
    ensures { IfOk result (λ u. AreUses rows.now u.types.items u.interfaces.items u.constraints.items u.firsts.items u.seconds.items) }
{
    let count = rows.count(TYPE_SPEC);
    let bound = count as usize * 4 + 3;
    let types = rows_by_cell(alloc, rows, TYPE_DEF, 3, bound)?;
    let interfaces = rows_by_cell(alloc, rows, INTERFACE_IMPL, 1, bound)?;
    let constraints = rows_by_cell(alloc, rows, GENERIC_PARAM_CONSTRAINT, 1, bound)?;
    let firsts = parent_lists(alloc, rows, 1, count)?;
    let seconds = parent_lists(alloc, rows, 2, count)?;
    Ok(SpecUses {
        types,
        interfaces,
        constraints,
        firsts,
        seconds,
    })
}
