// Rows with attributes.
ghost use Rattle.std.specs.Prelude.{◌≡◌, ◌<◌, ◌≤◌, ◌^◌, ◌-◌, length, get_or, map, option_and_then, IfOk, None};
ghost use Rattle.std.specs.List.{range_with_len};
ghost use Rattle.set_names.specs.Names.{is_name};
ghost use Rattle.set_rows.specs.Sets.{assembly_at, rows_in};
ghost use Rattle.set_rows.specs.Owners.{if_row};
ghost use Rattle.set_program.specs.Attributes.{attribute_name, attribute_type};
ghost use Rattle.set_program.specs.Environment.{number_of};
ghost use Rattle.attribute_marks.specs.Marks.{AreMarks, marked_row};

use crate::firsts::first_rows;
use cil_base::Name;
use cil_base::tables::CUSTOM_ATTRIBUTE;
use set_program::Part;
use std::alloc::{AllocError, Global};
use type_table::{TypeTable, attribute_type};

/// Whether a name that may be missing is this one.
fn is_name(found: &Option<Name>, name: &[u8]) -> bool
    ensures { result ≡ is_name name.now found.now }
{
    match found {
        Some(found) => name == found.as_slice(),
        None => false,
    }
}

/// The row on which a CustomAttribute row stands, where its type has this name and the row is of the
/// table of this tag; else 0.
fn marked_row(part: &Part<'_>, found: &Option<Name>, name: &[u8], tag: u32, k: u32) -> u32
    ensures { result ≡ marked_row part.now (is_name name.now found.now) tag k }
{
    let parent = part.cell(CUSTOM_ATTRIBUTE, k, 0);
    if is_name(found, name) && parent % 32 == tag {
        return parent / 32;
    }
    0
}

fn marked_rows(
    alloc: Global,
    part: &Part<'_>,
    names: &[Option<Name>],
    tag: u32,
    name: &[u8],
) -> Result<Vec<u32>, AllocError>
    requires { length names.now < 2 ^ 32 }
    ensures rows { IfOk result (λ v. v.items ≡ map (λ k. marked_row part.now (is_name name.now (get_or names.now (k - 1) None)) tag k) (range_with_len 1 (length names.now))) }
    ensures short { IfOk result (λ v. length v.items < 2 ^ 32) }
{
    let mut rows = Vec::new(alloc);
    for k in 0..names.len() {
        rows.push(marked_row(part, &names[k], name, tag, k as u32 + 1))?;
    }
    Ok(rows)
}

/// By row of the table of this tag of a HasCustomAttribute index, up to `count`: the first attribute
/// of this name on it, 0 where it bears none. `names` has the names of the assembly's attributes by
/// row from 0. One pass.
pub fn first_marks(
    alloc: Global,
    set: &[Part<'_>],
    a: u32,
    names: &[Option<Name>],
    tag: u32,
    name: &[u8],
    count: u32,
) -> Result<Vec<u32>, AllocError>
    requires there { a < length set.now }
    requires names { names.now ≡ map (attribute_name set.now a) (rows_in (assembly_at set.now a) CUSTOM_ATTRIBUTE) }
    requires short { length names.now < 2 ^ 32 }
    requires tag { tag < 32 }
    ensures { IfOk result (λ v. AreMarks set.now a name.now tag count v.items) }
{
    let rows = marked_rows(alloc, &set[a as usize], names, tag, name)?;
    first_rows(alloc, rows.as_slice(), count)
}

/// The row that a list has by a row; None for 0, and behind the end.
pub fn row_at(rows: &[u32], row: u32) -> Option<u32>
    ensures { result ≡ if_row (get_or rows.now row 0) }
{
    match rows.get(row as usize) {
        Some(other) => {
            if *other == 0 {
                return None;
            }
            Some(*other)
        }
        None => None,
    }
}

/// The number of the type that the attribute of a row names by its text, where `marks` has the
/// attributes by row.
pub fn attributed(
    alloc: Global,
    types: &TypeTable<'_>,
    set: &[Part<'_>],
    a: u32,
    marks: &[u32],
    row: u32,
) -> Result<Option<u32>, AllocError>
    requires short { length set.now < 2 ^ 32 }
    requires there { a < length set.now }
    requires same { types.now ≡ set.now }
    ensures { IfOk result (λ n. n ≡ option_and_then (number_of set.now) (option_and_then (attribute_type set.now a) (if_row (get_or marks.now row 0)))) }
{
    match row_at(marks, row) {
        None => Ok(None),
        Some(k) => match attribute_type(alloc, set, a, k)? {
            Some(id) => Ok(types.number(&id)),
            None => Ok(None),
        },
    }
}
