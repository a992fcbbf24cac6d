// What is known of the members of an assembly.
ghost use Rattle.std.specs.Prelude.{◌≡◌, ◌<◌, length, map, IfOk};
ghost use Rattle.std.specs.List.{range_with_len};
ghost use Rattle.member_table.specs.declared.named.MemberId.TheVariants.{Row};
ghost use Rattle.descriptions.specs.Descriptions.{number_in};
ghost use Rattle.descriptions.specs.Facts.{AreFacts};

use crate::references::{number_of_row, references};
use cil_base::tables::{FIELD, METHOD_DEF};
use descriptions::MemberFacts;
use member_numbers::MemberNumbers;
use set_rows::owners;
use set_tables::SetTables;
use std::alloc::{AllocError, Global};

/// The numbers of the first so many rows of Field, or MethodDef, by row from 0.
fn row_numbers(
    alloc: Global,
    numbers: &MemberNumbers<'_>,
    is_field: bool,
    a: u32,
    count: u32,
) -> Result<Vec<u32>, AllocError>
    ensures { IfOk result (λ v. v.items ≡ map (λ row. number_in numbers.now is_field (Row a row)) (range_with_len 1 count)) }
{
    let mut found = Vec::new(alloc);
    for k in 0..count {
        found.push(number_of_row(numbers, is_field, a, k + 1))?;
    }
    Ok(found)
}

/// What is known of the members of an assembly, by one pass over the rows of each of its tables of
/// members.
pub fn member_facts(
    alloc: Global,
    tables: &SetTables<'_>,
    a: u32,
) -> Result<MemberFacts, AllocError>
    requires { a < length tables.now }
    ensures { IfOk result (λ f. AreFacts tables.now a f) }
{
    let rows = tables.set()[a as usize].rows();
    let numbers = tables.numbers();
    Ok(MemberFacts {
        field_owners: owners(alloc, rows, 4, FIELD)?,
        method_owners: owners(alloc, rows, 5, METHOD_DEF)?,
        field_numbers: row_numbers(alloc, numbers, true, a, rows.count(FIELD))?,
        method_numbers: row_numbers(alloc, numbers, false, a, rows.count(METHOD_DEF))?,
        references: references(alloc, tables, a)?,
    })
}
