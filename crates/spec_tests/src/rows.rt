// The rows of TypeSpec and MethodSpec, one after another (ECMA-335, II.22.29, II.22.39).
ghost use Rattle.std.specs.Prelude.{◌≡◌, ◌<◌, ◌≤◌, ◌+◌, length, IfOk};
ghost use Rattle.cil_base.specs.declared.tables.TheConstants.{METHOD_SPEC, TYPE_SPEC};
ghost use Rattle.cil_base.specs.Refusals.{first_of};
ghost use Rattle.set_rows.specs.Sets.{assembly_at, count_in};
ghost use Rattle.set_program.specs.Environment.{row_types};
ghost use Rattle.member_table.specs.MemberRules.{is_unfit, member_tests};
ghost use Rattle.member_rules.specs.Parameters.{AreParameters, AreSetGenerics};
ghost use Rattle.member_tests.specs.MemberTables.{member_table_tests};
ghost use Rattle.spec_tests.specs.SpecTests.{AreUses};

use crate::contexts::spec_context;
use crate::instances::is_miscounted;
use crate::uses::{SpecUses, spec_uses};
use cil_base::tables::{METHOD_SPEC, TYPE_SPEC};
use cil_base::{Place, Refusal, U32s};
use cli_sigs::SigTy;
use member_rules::row_types;
use member_tests::{early_fault, unfit_fault};
use set_tables::SetTables;
use signature_rules::{ParameterCounts, any_strays};
use std::alloc::{AllocError, Global};

/// Whether a parameter in a TypeSpec row isn't there where the row stands.
fn is_unfit(
    tables: &SetTables<'_>,
    counts: &[U32s],
    uses: &SpecUses,
    a: u32,
    row: u32,
    tys: &[SigTy],
) -> bool
    requires there { a < length tables.now }
    requires counts { AreSetGenerics tables.now counts.now }
    requires uses { AreUses (assembly_at tables.now a) uses.now.types.items uses.now.interfaces.items uses.now.constraints.items uses.now.firsts.items uses.now.seconds.items }
    requires some { 1 ≤ row }
    requires row { row ≤ count_in (assembly_at tables.now a) TYPE_SPEC }
    ensures { result ≡ is_unfit tables.now a TYPE_SPEC row tys.now }
{
    match spec_context(tables, counts, a, uses, row) {
        None => false,
        Some((n, m)) => any_strays(tables.coded(a as usize), n, m, 1000, tys),
    }
}

/// The first refusal at a TypeSpec row with these types.
fn spec_types_fault(
    alloc: Global,
    tables: &SetTables<'_>,
    counts: &[U32s],
    parameters: &ParameterCounts,
    uses: &SpecUses,
    a: u32,
    row: u32,
    tys: &[SigTy],
) -> Result<Option<Refusal>, AllocError>
    requires there { a < length tables.now }
    requires counts { AreSetGenerics tables.now counts.now }
    requires parameters { AreParameters tables.now a parameters.now }
    requires uses { AreUses (assembly_at tables.now a) uses.now.types.items uses.now.interfaces.items uses.now.constraints.items uses.now.firsts.items uses.now.seconds.items }
    requires some { 1 ≤ row }
    requires row { row ≤ count_in (assembly_at tables.now a) TYPE_SPEC }
    requires types { tys.now ≡ row_types (assembly_at tables.now a) TYPE_SPEC row }
    ensures { IfOk result (λ f. f ≡ first_of (member_tests tables.now a TYPE_SPEC row)) }
{
    let place = Place {
        assembly: a,
        table: TYPE_SPEC,
        row,
    };
    let early = early_fault(alloc, tables, parameters, place, tys)?;
    if early.is_some() {
        return Ok(early);
    }
    Ok(unfit_fault(place, is_unfit(tables, counts, uses, a, row, tys)))
}

/// The first refusal at a MethodSpec row with these types.
fn instance_types_fault(
    alloc: Global,
    tables: &SetTables<'_>,
    counts: &[U32s],
    parameters: &ParameterCounts,
    a: u32,
    row: u32,
    tys: &[SigTy],
) -> Result<Option<Refusal>, AllocError>
    requires there { a < length tables.now }
    requires counts { AreSetGenerics tables.now counts.now }
    requires parameters { AreParameters tables.now a parameters.now }
    requires types { tys.now ≡ row_types (assembly_at tables.now a) METHOD_SPEC row }
    ensures { IfOk result (λ f. f ≡ first_of (member_tests tables.now a METHOD_SPEC row)) }
{
    let place = Place {
        assembly: a,
        table: METHOD_SPEC,
        row,
    };
    let early = early_fault(alloc, tables, parameters, place, tys)?;
    if early.is_some() {
        return Ok(early);
    }
    let unfit = is_miscounted(alloc, tables, counts, a, row, tys.len())?;
    Ok(unfit_fault(place, unfit))
}

/// The first refusal at a TypeSpec row, where `uses` has the rows that name TypeSpec rows.
fn spec_row_fault(
    alloc: Global,
    tables: &SetTables<'_>,
    counts: &[U32s],
    parameters: &ParameterCounts,
    uses: &SpecUses,
    a: u32,
    row: u32,
) -> Result<Option<Refusal>, AllocError>
    requires there { a < length tables.now }
    requires counts { AreSetGenerics tables.now counts.now }
    requires parameters { AreParameters tables.now a parameters.now }
    requires uses { AreUses (assembly_at tables.now a) uses.now.types.items uses.now.interfaces.items uses.now.constraints.items uses.now.firsts.items uses.now.seconds.items }
    requires some { 1 ≤ row }
    requires row { row ≤ count_in (assembly_at tables.now a) TYPE_SPEC }
    ensures { IfOk result (λ f. f ≡ first_of (member_tests tables.now a TYPE_SPEC row)) }
{
    let rows = tables.set()[a as usize].rows();
    let tys = row_types(alloc, rows, TYPE_SPEC, row)?;
    spec_types_fault(
        alloc,
        tables,
        counts,
        parameters,
        uses,
        a,
        row,
        tys.as_slice(),
    )
}

/// The first refusal at a MethodSpec row.
fn instance_row_fault(
    alloc: Global,
    tables: &SetTables<'_>,
    counts: &[U32s],
    parameters: &ParameterCounts,
    a: u32,
    row: u32,
) -> Result<Option<Refusal>, AllocError>
    requires there { a < length tables.now }
    requires counts { AreSetGenerics tables.now counts.now }
    requires parameters { AreParameters tables.now a parameters.now }
    ensures { IfOk result (λ f. f ≡ first_of (member_tests tables.now a METHOD_SPEC row)) }
{
    let rows = tables.set()[a as usize].rows();
    let tys = row_types(alloc, rows, METHOD_SPEC, row)?;
    instance_types_fault(alloc, tables, counts, parameters, a, row, tys.as_slice())
}

fn spec_rows_fault(
    alloc: Global,
    tables: &SetTables<'_>,
    counts: &[U32s],
    parameters: &ParameterCounts,
    uses: &SpecUses,
    a: u32,
) -> Result<Option<Refusal>, AllocError>
    requires there { a < length tables.now }
    requires counts { AreSetGenerics tables.now counts.now }
    requires parameters { AreParameters tables.now a parameters.now }
    requires uses { AreUses (assembly_at tables.now a) uses.now.types.items uses.now.interfaces.items uses.now.constraints.items uses.now.firsts.items uses.now.seconds.items }
    ensures { IfOk result (λ f. f ≡ first_of (member_table_tests tables.now a TYPE_SPEC)) }
{
    let count = tables.set()[a as usize].count(TYPE_SPEC);
    for k in 0..count {
        let found = spec_row_fault(alloc, tables, counts, parameters, uses, a, k + 1)?;
        if found.is_some() {
            return Ok(found);
        }
    }
    Ok(None)
}

/// The first refusal at a TypeSpec row; `counts` has the numbers of parameters of each assembly's
/// types and methods, `parameters` those of the types that this assembly names.
pub fn type_spec_fault(
    alloc: Global,
    tables: &SetTables<'_>,
    counts: &[U32s],
    parameters: &ParameterCounts,
    a: u32,
) -> Result<Option<Refusal>, AllocError>
    requires there { a < length tables.now }
    requires counts { AreSetGenerics tables.now counts.now }
    requires parameters { AreParameters tables.now a parameters.now }
    ensures { IfOk result (λ f. f ≡ first_of (member_table_tests tables.now a TYPE_SPEC)) }
{
    let uses = spec_uses(alloc, tables.set()[a as usize].rows())?;
    spec_rows_fault(alloc, tables, counts, parameters, &uses, a)
}

/// The first refusal at a MethodSpec row, with the same numbers of parameters.
pub fn method_spec_fault(
    alloc: Global,
    tables: &SetTables<'_>,
    counts: &[U32s],
    parameters: &ParameterCounts,
    a: u32,
) -> Result<Option<Refusal>, AllocError>
    requires there { a < length tables.now }
    requires counts { AreSetGenerics tables.now counts.now }
    requires parameters { AreParameters tables.now a parameters.now }
    ensures { IfOk result (λ f. f ≡ first_of (member_table_tests tables.now a METHOD_SPEC)) }
{
    let count = tables.set()[a as usize].count(METHOD_SPEC);
    for k in 0..count {
        let found = instance_row_fault(alloc, tables, counts, parameters, a, k + 1)?;
        if found.is_some() {
            return Ok(found);
        }
    }
    Ok(None)
}
