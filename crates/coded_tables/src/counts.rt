// How many parameters types and methods have (ECMA-335, II.22.20).
ghost use Rattle.std.specs.Prelude.{◌≡◌, ℕ, ◌<◌, ◌≤◌, ◌^◌, ◌+◌, ◌*◌, [], length, get_or, map, IfOk};
ghost use Rattle.std.specs.List.{range_with_len};
ghost use Rattle.set_rows.specs.Sets.{count_in, rows_in};
ghost use Rattle.set_program.specs.Kinds.{generics};
ghost use Rattle.coded_tables.specs.Counts.{AreCounts};

use cil_base::U32s;
use cil_base::tables::{GENERIC_PARAM, METHOD_DEF, TYPE_DEF};
use row_descriptions::rows_by_cell;
use set_rows::Rows;
use std::alloc::{AllocError, Global};

/// By row from 0: how many parameters each type and each method of an assembly has.
#[derive(Drop)]
pub struct GenericCounts {
    pub types: Vec<u32>,
    pub methods: Vec<u32>,
}

/// The lengths of the lists at every second place, from the second one on.
fn lengths(alloc: Global, lists: &[U32s], tag: usize, count: u32) -> Result<Vec<u32>, AllocError>
    requires tag { tag < 2 }
    requires long { count * 2 + 2 ≤ length lists.now }
    requires short { (n : ℕ) → n < length lists.now → length (get_or lists.now n []) < 2 ^ 32 }
    ensures { IfOk result (λ v. v.items ≡ map (λ row. length (get_or lists.now (row * 2 + tag) [])) (range_with_len 1 count)) }
{
    let mut lengths = Vec::new(alloc);
    for k in 0..count {
        lengths.push(lists[(k as usize + 1) * 2 + tag].len() as u32)?;
    }
    Ok(lengths)
}

/// How many parameters each type and each method has: one pass over GenericParam.
pub fn generic_counts(alloc: Global, rows: &Rows<'_>) -> Result<GenericCounts, AllocError>
    ensures { IfOk result (λ c. AreCounts rows.now c) }
{
    let types = rows.count(TYPE_DEF);
    let methods = rows.count(METHOD_DEF);
    let _parameters = rows.count(GENERIC_PARAM);
    let bound = types.max(methods) as usize * 2 + 2;
    let lists = rows_by_cell(alloc, rows, GENERIC_PARAM, 2, bound)?;
    Ok(GenericCounts {
        types: lengths(alloc, lists.as_slice(), 0, types)?,
        methods: lengths(alloc, lists.as_slice(), 1, methods)?,
    })
}
