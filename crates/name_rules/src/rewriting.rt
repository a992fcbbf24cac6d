// What can't be rewritten (Code Contracts manual, "Contract reference assemblies").
ghost use Rattle.std.specs.Prelude.{◌≡◌, ◌<◌, ◌^◌, ◌==◌, ◌&&◌, length, map, flat_map, IfOk};
ghost use Rattle.std.specs.List.{range_with_len};
ghost use Rattle.cil_base.specs.declared.rule.Rule.TheVariants.{N5};
ghost use Rattle.cil_base.specs.Refusals.{first_of};
ghost use Rattle.set_program.specs.Attributes.{has_attribute, on_assembly, reference_attribute};
ghost use Rattle.set_rules.specs.RowTests.{row_test};
ghost use Rattle.name_rules.specs.NameTests.{all_there, core_names, is_at, refused_row, rewrite_table_tests};

use attribute_marks::{first_marks, row_at};
use cil_base::tables::{ASSEMBLY, TYPE_DEF};
use cil_base::{Place, Refusal, Rule};
use set_program::{Part, assembly_named};
use std::alloc::{AllocError, Global};
use type_table::{attribute_names, reference_rows};

/// The names of the library of core types.
static CORE_NAMES: [&[u8]; 4] = [
    b"mscorlib",
    b"System.Runtime",
    b"netstandard",
    b"System.Private.CoreLib",
];

fn core_names() -> &'static [&'static [u8]]
    ensures { map (λ name. name.now) result.now ≡ core_names }
{
    &CORE_NAMES
}

/// Whether each of the names is that of an assembly.
fn all_there(set: &[Part<'_>], names: &[&[u8]]) -> bool
    requires { length set.now < 2 ^ 32 }
    ensures { result ≡ all_there set.now (map (λ name. name.now) names.now) }
{
    for name in names {
        if assembly_named(set, *name).is_none() {
            return false;
        }
    }
    true
}

/// Whether TARGET is a contract reference assembly.
fn is_reference(alloc: Global, set: &[Part<'_>]) -> Result<bool, AllocError>
    requires some { 0 < length set.now }
    requires short { length set.now < 2 ^ 32 }
    ensures { IfOk result (λ b. b ≡ has_attribute set.now 0 reference_attribute on_assembly) }
{
    let references = reference_rows(alloc, set, 0)?;
    let names = attribute_names(alloc, set, 0, references.as_slice())?;
    let marks = first_marks(
        alloc,
        set,
        0,
        names.as_slice(),
        14,
        b"System.Diagnostics.Contracts.ContractReferenceAssemblyAttribute",
        1,
    )?;
    Ok(row_at(marks.as_slice(), 1).is_some())
}

/// The Assembly row of TARGET, where that can't be rewritten.
fn refused_assembly(alloc: Global, set: &[Part<'_>]) -> Result<Option<u32>, AllocError>
    requires some { 0 < length set.now }
    requires short { length set.now < 2 ^ 32 }
    ensures { IfOk result (λ row. row ≡ refused_row set.now ASSEMBLY) }
{
    if is_reference(alloc, set)? || all_there(set, core_names()) {
        return Ok(Some(1));
    }
    Ok(None)
}

/// The row of a table at which a rewrite of TARGET is refused.
fn refused_row(alloc: Global, set: &[Part<'_>], table: u8) -> Result<Option<u32>, AllocError>
    requires some { 0 < length set.now }
    requires short { length set.now < 2 ^ 32 }
    ensures { IfOk result (λ row. row ≡ refused_row set.now table) }
{
    match table {
        TYPE_DEF => Ok(set[0].type_named(b"__ContractsRuntime")),
        ASSEMBLY => refused_assembly(alloc, set),
        _ => Ok(None),
    }
}

/// N5 at a row of a table of TARGET, where there is one.
fn marked_fault(table: u8, count: u32, marked: Option<u32>) -> Option<Refusal>
    ensures { result ≡ first_of (flat_map (row_test N5 0 table (λ row. is_at row marked)) (range_with_len 1 count)) }
{
    match marked {
        None => None,
        Some(row) => {
            if row == 0 {
                return None;
            }
            if row > count {
                return None;
            }
            let place = Place {
                assembly: 0,
                table,
                row,
            };
            Some(place.refusal(Rule::N5, 0))
        }
    }
}

/// Whether an assembly is to be rewritten.
fn is_written(writes: bool, a: u32) -> bool
    ensures { result ≡ (writes && (a == 0)) }
{
    writes && a == 0
}

/// N5 at a row of a table, where `writes` says that TARGET is to be rewritten.
pub fn rewrite_fault(
    alloc: Global,
    set: &[Part<'_>],
    writes: bool,
    a: u32,
    table: u8,
) -> Result<Option<Refusal>, AllocError>
    requires there { a < length set.now }
    requires short { length set.now < 2 ^ 32 }
    ensures { IfOk result (λ f. f ≡ first_of (rewrite_table_tests set.now writes a table)) }
{
    if is_written(writes, a) {
        let marked = refused_row(alloc, set, table)?;
        return Ok(marked_fault(table, set[0].count(table), marked));
    }
    Ok(None)
}
