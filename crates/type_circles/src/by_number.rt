// From lists by row to lists by the number of a type.
ghost use Rattle.std.specs.Prelude.{◌≡◌, ◌-◌, [], get_or, map, IfOk};
ghost use Rattle.type_circles.specs.RowGraphs.{row_list};

use crate::lists::Lists;
use cil_base::U32s;
use members::SetType;
use sqlite_items::at;
use std::alloc::{AllocError, Global};

fn list_at(lists: &Lists, place: usize) -> &[u32]
    ensures { result.now ≡ get_or lists.now place [] }
{
    match lists.get(place) {
        None => &[],
        Some(list) => list.as_slice(),
    }
}

/// The list of a type; none for one that isn't of the set.
fn row_list<'a>(lists: &'a [Lists], of: &SetType) -> &'a [u32]
    ensures { result.now ≡ row_list lists.entry.now of.now }
{
    match at(lists, of.assembly as usize) {
        None => &[],
        Some(lists) => list_at(lists, (of.row as usize).saturating_sub(1)),
    }
}

/// The lists of these types, where those of their rows stand by assembly.
pub(crate) fn lists_by_number(
    alloc: Global,
    types: &[SetType],
    lists: &[Lists],
) -> Result<Vec<U32s>, AllocError>
    ensures { IfOk result (λ v. v.items ≡ map (row_list lists.now) types.now) }
{
    let mut found = Vec::new(alloc);
    for of in types {
        found.push(U32s::from_slice(alloc, row_list(lists, of))?)?;
    }
    Ok(found)
}
