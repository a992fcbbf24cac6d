// The rows of one table, one after another (ECMA-335, II.22.15, II.22.25, II.22.26, II.22.34).
ghost use Rattle.std.specs.Prelude.{◌≡◌, ◌<◌, ◌==◌, true, false, length, IfOk};
ghost use Rattle.cil_base.specs.declared.tables.TheConstants.{METHOD_SPEC, PROPERTY, TYPE_SPEC};
ghost use Rattle.cil_base.specs.Refusals.{first_of};
ghost use Rattle.set_rows.specs.Sets.{assembly_at, count_in, is_row};
ghost use Rattle.set_program.specs.Environment.{row_types};
ghost use Rattle.member_table.specs.MemberRules.{member_tests};
ghost use Rattle.member_rules.specs.Parameters.{AreParameters, AreSetGenerics};
ghost use Rattle.member_tests.specs.MemberTables.{member_table_tests};
ghost use Rattle.member_tests.specs.PropertyMaps.{ArePropertyMaps};

use crate::early::early_fault;
use crate::maps::property_maps;
use crate::unfit::{is_unfit, unfit_fault};
use cil_base::tables::PROPERTY;
use cil_base::{Place, Refusal, U32s};
use cli_sigs::SigTy;
use member_rules::row_types;
use set_tables::SetTables;
use signature_rules::ParameterCounts;
use std::alloc::{AllocError, Global};

/// The first refusal at a row whose signature has these types.
fn types_fault(
    alloc: Global,
    tables: &SetTables<'_>,
    counts: &[U32s],
    parameters: &ParameterCounts,
    maps: &[u32],
    place: Place,
    tys: &[SigTy],
) -> Result<Option<Refusal>, AllocError>
    requires there { place.assembly < length tables.now }
    requires counts { AreSetGenerics tables.now counts.now }
    requires parameters { AreParameters tables.now place.assembly parameters.now }
    requires maps { place.table ≡ PROPERTY → ArePropertyMaps (assembly_at tables.now place.assembly) maps.now }
    requires row { is_row (assembly_at tables.now place.assembly) place.table place.row ≡ true }
    requires type_spec { (place.table == TYPE_SPEC) ≡ false }
    requires method_spec { (place.table == METHOD_SPEC) ≡ false }
    requires types { tys.now ≡ row_types (assembly_at tables.now place.assembly) place.table place.row }
    ensures { IfOk result (λ f. f ≡ first_of (member_tests tables.now place.assembly place.table place.row)) }
{
    let early = early_fault(alloc, tables, parameters, place, tys)?;
    if early.is_some() {
        return Ok(early);
    }
    let unfit = is_unfit(tables, counts, maps, place, tys);
    Ok(unfit_fault(place, unfit))
}

/// The first refusal at a row.
fn row_fault(
    alloc: Global,
    tables: &SetTables<'_>,
    counts: &[U32s],
    parameters: &ParameterCounts,
    maps: &[u32],
    place: Place,
) -> Result<Option<Refusal>, AllocError>
    requires there { place.assembly < length tables.now }
    requires counts { AreSetGenerics tables.now counts.now }
    requires parameters { AreParameters tables.now place.assembly parameters.now }
    requires maps { place.table ≡ PROPERTY → ArePropertyMaps (assembly_at tables.now place.assembly) maps.now }
    requires row { is_row (assembly_at tables.now place.assembly) place.table place.row ≡ true }
    requires type_spec { (place.table == TYPE_SPEC) ≡ false }
    requires method_spec { (place.table == METHOD_SPEC) ≡ false }
    ensures { IfOk result (λ f. f ≡ first_of (member_tests tables.now place.assembly place.table place.row)) }
{
    let rows = tables.set()[place.assembly as usize].rows();
    let tys = row_types(alloc, rows, place.table, place.row)?;
    types_fault(
        alloc,
        tables,
        counts,
        parameters,
        maps,
        place,
        tys.as_slice(),
    )
}

/// How many rows a table of an assembly has.
fn rows_in_table(tables: &SetTables<'_>, a: u32, table: u8) -> u32
    requires { a < length tables.now }
    ensures { result ≡ count_in (assembly_at tables.now a) table }
{
    tables.set()[a as usize].count(table)
}

/// The first refusal at the rows of a table, where `maps` has the PropertyMap rows if that is
/// Property.
#[tactic(auto, using(crate::proofs::RowLaws::is_row_there))]
fn rows_fault(
    alloc: Global,
    tables: &SetTables<'_>,
    counts: &[U32s],
    parameters: &ParameterCounts,
    maps: &[u32],
    a: u32,
    table: u8,
) -> Result<Option<Refusal>, AllocError>
    requires there { a < length tables.now }
    requires counts { AreSetGenerics tables.now counts.now }
    requires parameters { AreParameters tables.now a parameters.now }
    requires maps { table ≡ PROPERTY → ArePropertyMaps (assembly_at tables.now a) maps.now }
    requires type_spec { (table == TYPE_SPEC) ≡ false }
    requires method_spec { (table == METHOD_SPEC) ≡ false }
    ensures { IfOk result (λ f. f ≡ first_of (member_table_tests tables.now a table)) }
{
    let count = rows_in_table(tables, a, table);
    for k in 0..count {
        let place = Place {
            assembly: a,
            table,
            row: k + 1,
        };
        let found = row_fault(alloc, tables, counts, parameters, maps, place)?;
        if found.is_some() {
            return Ok(found);
        }
    }
    Ok(None)
}

/// The PropertyMap rows of the rows of Property, where that is the table.
fn maps_for(
    alloc: Global,
    tables: &SetTables<'_>,
    a: u32,
    table: u8,
) -> Result<Vec<u32>, AllocError>
    requires { a < length tables.now }
    ensures { IfOk result (λ v. table ≡ PROPERTY → ArePropertyMaps (assembly_at tables.now a) v.items) }
{
    if table != PROPERTY {
        return Ok(Vec::new(alloc));
    }
    property_maps(alloc, tables.set()[a as usize].rows())
}

/// The first refusal at a row of a table by the rules on members, but for TypeSpec and MethodSpec;
/// `counts` has the numbers of parameters of each assembly's types and methods, `parameters` those
/// of the types that this assembly names.
pub fn member_fault(
    alloc: Global,
    tables: &SetTables<'_>,
    counts: &[U32s],
    parameters: &ParameterCounts,
    a: u32,
    table: u8,
) -> Result<Option<Refusal>, AllocError>
    requires there { a < length tables.now }
    requires counts { AreSetGenerics tables.now counts.now }
    requires parameters { AreParameters tables.now a parameters.now }
    requires type_spec { (table == TYPE_SPEC) ≡ false }
    requires method_spec { (table == METHOD_SPEC) ≡ false }
    ensures { IfOk result (λ f. f ≡ first_of (member_table_tests tables.now a table)) }
{
    let maps = maps_for(alloc, tables, a, table)?;
    rows_fault(alloc, tables, counts, parameters, maps.as_slice(), a, table)
}
