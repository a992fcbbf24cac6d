// The first row of each number.
ghost use Rattle.std.specs.Prelude.{◌≡◌, ◌<◌, ◌^◌, length, map, IfOk};
ghost use Rattle.attribute_marks.specs.Firsts.{AreFirst, first_or_none};

use cil_base::U32s;
use row_descriptions::lists_by_number;
use std::alloc::{AllocError, Global};

/// The first of some rows; 0 where there is none.
fn first_or_none(rows: &U32s) -> u32
    ensures { result ≡ first_or_none rows.now }
{
    match rows.as_slice() {
        [] => 0,
        [row, ..] => *row,
    }
}

fn firsts(alloc: Global, lists: &[U32s]) -> Result<Vec<u32>, AllocError>
    ensures { IfOk result (λ v. v.items ≡ map first_or_none lists.now) }
{
    let mut firsts = Vec::new(alloc);
    for list in lists {
        firsts.push(first_or_none(list))?;
    }
    Ok(firsts)
}

/// By number up to `count`: the first row that has it, where `numbers` has the numbers by row from
/// 0; 0 where none has. One pass.
pub fn first_rows(alloc: Global, numbers: &[u32], count: u32) -> Result<Vec<u32>, AllocError>
    requires { length numbers.now < 2 ^ 32 }
    ensures { IfOk result (λ v. AreFirst numbers.now count v.items) }
{
    let lists = lists_by_number(alloc, numbers, count as usize + 1)?;
    firsts(alloc, lists.as_slice())
}
