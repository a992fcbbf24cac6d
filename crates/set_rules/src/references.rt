// Rows that name types (ECMA-335, II.22.14, II.22.38).
ghost use Rattle.std.specs.Prelude.{◌≡◌, ◌<◌, ◌-◌, ◌^◌, length, get_or, flat_map, is_none, None, IfOk};
ghost use Rattle.std.specs.List.{range_with_len};
ghost use Rattle.cil_base.specs.declared.rule.Rule.TheVariants.{N1};
ghost use Rattle.cil_base.specs.Refusals.{first_of};
ghost use Rattle.set_rows.specs.Sets.{Assemblies};
ghost use Rattle.type_table.specs.Names.{AreReferences};
ghost use Rattle.set_rules.specs.TableTests.{table_tests};
ghost use Rattle.set_rules.specs.RowTests.{row_test, is_unnamed};

use cil_base::tables::{EXPORTED_TYPE, TYPE_REF};
use cil_base::{Place, Refusal, Rule};
use set_program::{Part, TypeId};
use std::alloc::{AllocError, Global};
use type_table::exported_rows;

fn is_unnamed(ids: &[Option<TypeId>], k: u32) -> bool
    requires { k < length ids.now }
    ensures { result ≡ is_none (get_or ids.now k None) }
{
    ids[k as usize].is_none()
}

/// N1 at the first row that names no type, where these are what the rows of a table name.
fn unnamed_fault(a: u32, table: u8, count: u32, ids: &[Option<TypeId>]) -> Option<Refusal>
    requires { length ids.now ≡ count }
    ensures { result ≡ first_of (flat_map (row_test N1 a table (is_unnamed ids.now)) (range_with_len 1 count)) }
{
    for k in 0..count {
        if is_unnamed(ids, k) {
            let place = Place {
                assembly: a,
                table,
                row: k + 1,
            };
            return Some(place.refusal(Rule::N1, 0));
        }
    }
    None
}

/// The first refusal at a TypeRef row; `references` has what they name.
pub fn reference_fault(a: u32, references: &[Option<TypeId>]) -> Option<Refusal>
    requires { length references.now < 2 ^ 32 }
    ensures { (s : Assemblies) → AreReferences s a references.now → result ≡ first_of (table_tests s a TYPE_REF) }
{
    unnamed_fault(a, TYPE_REF, references.len() as u32, references)
}

/// The first refusal at an ExportedType row.
pub fn exported_fault(
    alloc: Global,
    set: &[Part<'_>],
    a: u32,
) -> Result<Option<Refusal>, AllocError>
    requires short { length set.now < 2 ^ 32 }
    requires there { a < length set.now }
    ensures { IfOk result (λ o. o ≡ first_of (table_tests set.now a EXPORTED_TYPE)) }
{
    let ids = exported_rows(alloc, set, a)?;
    let count = set[a as usize].count(EXPORTED_TYPE);
    Ok(unnamed_fault(a, EXPORTED_TYPE, count, ids.as_slice()))
}
