// The types around nested ones.
ghost use Rattle.std.specs.Prelude.{◌≡◌, ◌<◌, ◌^◌, length, get_or, map, IfOk};
ghost use Rattle.attribute_marks.specs.Firsts.{AreFirst};
ghost use Rattle.attribute_marks.specs.Marks.{AreEnclosing};

use crate::firsts::first_rows;
use cil_base::tables::{NESTED_CLASS, TYPE_DEF};
use row_descriptions::column;
use set_rows::Rows;
use std::alloc::{AllocError, Global};

/// The type around that a NestedClass row names; 0 for no row.
fn around(rows: &Rows<'_>, k: u32) -> u32
    ensures { result ≡ Rattle.attribute_marks.specs.Marks.around rows.now k }
{
    if k == 0 {
        return 0;
    }
    rows.cell(NESTED_CLASS, k, 1)
}

fn all_around(alloc: Global, rows: &Rows<'_>, firsts: &[u32]) -> Result<Vec<u32>, AllocError>
    ensures { IfOk result (λ v. v.items ≡ map (Rattle.attribute_marks.specs.Marks.around rows.now) firsts.now) }
{
    let mut all = Vec::new(alloc);
    for k in firsts {
        all.push(around(rows, *k))?;
    }
    Ok(all)
}

/// By TypeDef row: the row of the type around it, 0 where it isn't nested. One pass over
/// NestedClass.
pub fn enclosing_rows(alloc: Global, rows: &Rows<'_>) -> Result<Vec<u32>, AllocError>
    ensures { IfOk result (λ v. AreEnclosing rows.now v.items) }
{
    let nested = column(alloc, rows, NESTED_CLASS, 0)?;
    let firsts = first_rows(alloc, nested.as_slice(), rows.count(TYPE_DEF))?;
    all_around(alloc, rows, firsts.as_slice())
}
