// How many arguments an instance of a method has (ECMA-335, II.22.29).
ghost use Rattle.std.specs.Prelude.{◌≡◌, ◌<◌, length, IfOk};
ghost use Rattle.cil_base.specs.declared.tables.TheConstants.{METHOD_SPEC};
ghost use Rattle.set_rows.specs.Sets.{assembly_at, blob, cell};
ghost use Rattle.set_types.specs.SignatureRules.{isnt_count};
ghost use Rattle.member_table.specs.MemberRules.{indexed_parameters, method_parameters, named_parameters};
ghost use Rattle.member_rules.specs.Parameters.{AreSetGenerics};

use cil_base::U32s;
use cil_base::tables::METHOD_SPEC;
use member_rules::generics;
use member_table::Named;
use set_program::Part;
use set_tables::SetTables;
use std::alloc::{AllocError, Global};

/// How many parameters a method has.
fn method_parameters(set: &[Part<'_>], counts: &[U32s], a: u32, row: u32) -> u32
    requires { AreSetGenerics set.now counts.now }
    ensures { result ≡ method_parameters (assembly_at set.now a) row }
{
    generics(set, counts, a, row as u64 * 2 + 1)
}

fn named_parameters(set: &[Part<'_>], counts: &[U32s], named: &Named) -> Option<u32>
    requires { AreSetGenerics set.now counts.now }
    ensures { result ≡ named_parameters set.now named.now }
{
    match named {
        Named::InSet(found) => Some(method_parameters(set, counts, found.assembly, found.row)),
        Named::Outside(_) => None,
        Named::Missing => None,
    }
}

/// How many parameters the method of the set has that a MethodDefOrRef index names.
fn indexed_parameters(
    alloc: Global,
    tables: &SetTables<'_>,
    counts: &[U32s],
    a: u32,
    coded: u32,
) -> Result<Option<u32>, AllocError>
    requires { AreSetGenerics tables.now counts.now }
    ensures { IfOk result (λ n. n ≡ indexed_parameters tables.now a coded) }
{
    if coded % 2 == 1 {
        let named = tables.member(alloc, a, coded / 2)?;
        return Ok(named_parameters(tables.set(), counts, &named));
    }
    if coded / 2 == 0 {
        return Ok(None);
    }
    Ok(Some(method_parameters(tables.set(), counts, a, coded / 2)))
}

fn isnt_count(arguments: usize, count: Option<u32>) -> bool
    ensures { result ≡ isnt_count arguments count }
{
    match count {
        None => false,
        Some(count) => arguments != count as usize,
    }
}

/// Whether the method of a MethodSpec row has not so many parameters.
pub fn is_miscounted(
    alloc: Global,
    tables: &SetTables<'_>,
    counts: &[U32s],
    a: u32,
    row: u32,
    arguments: usize,
) -> Result<bool, AllocError>
    requires there { a < length tables.now }
    requires counts { AreSetGenerics tables.now counts.now }
    ensures { IfOk result (λ b. b ≡ isnt_count arguments (indexed_parameters tables.now a (cell (assembly_at tables.now a) METHOD_SPEC row 0))) }
{
    let coded = tables.set()[a as usize].cell(METHOD_SPEC, row, 0);
    let count = indexed_parameters(alloc, tables, counts, a, coded)?;
    Ok(isnt_count(arguments, count))
}
