// Whether the parameters in the signature of a row are those of its type and its method (ECMA-335,
// II.9.2, II.22.20).
ghost use Rattle.std.specs.Prelude.{◌≡◌, ◌<◌, ◌==◌, true, false, length, [], ◌∷◌};
ghost use Rattle.cil_base.specs.declared.rule.Rule.TheVariants.{N6};
ghost use Rattle.cil_base.specs.declared.tables.TheConstants.{METHOD_SPEC, PROPERTY, TYPE_SPEC};
ghost use Rattle.cil_base.specs.Refusals.{first_of};
ghost use Rattle.set_rows.specs.Sets.{assembly_at, is_row};
ghost use Rattle.set_rows.specs.Owners.{row_in};
ghost use Rattle.set_program.specs.TypeRules.{test};
ghost use Rattle.member_table.specs.MemberRules.{is_unfit, parameters_around, property_owner, strays_at, type_parameters};
ghost use Rattle.member_rules.specs.Parameters.{AreSetGenerics};
ghost use Rattle.member_tests.specs.PropertyMaps.{ArePropertyMaps};

use cil_base::tables::{FIELD, METHOD_DEF, PROPERTY, PROPERTY_MAP};
use cil_base::{Place, Refusal, Rule, U32s};
use cli_sigs::SigTy;
use member_rules::generics;
use set_program::Part;
use set_rows::Rows;
use set_tables::SetTables;
use signature_rules::any_strays;

/// How many parameters a TypeDef row has; none where there is no row.
pub fn type_parameters(set: &[Part<'_>], counts: &[U32s], a: u32, owner: Option<u32>) -> u32
    requires { AreSetGenerics set.now counts.now }
    ensures { result ≡ type_parameters (assembly_at set.now a) owner }
{
    match owner {
        None => 0,
        Some(row) => generics(set, counts, a, row as u64 * 2),
    }
}

/// The row in a list by row from 0; None where 0 stands there, or nothing.
fn row_in(rows: &[u32], row: u32) -> Option<u32>
    ensures { result ≡ row_in rows.now row }
{
    if row == 0 || row as usize > rows.len() || rows[row as usize - 1] == 0 {
        return None;
    }
    Some(rows[row as usize - 1])
}

/// The TypeDef row of a Property row, where `maps` has the PropertyMap rows.
#[tactic(auto, using(crate::proofs::MapLaws::owner_by_map))]
fn property_owner(rows: &Rows<'_>, maps: &[u32], row: u32) -> Option<u32>
    requires maps { ArePropertyMaps rows.now maps.now }
    requires row { is_row rows.now PROPERTY row ≡ true }
    ensures { result ≡ property_owner rows.now row }
{
    match row_in(maps, row) {
        None => None,
        Some(p) => Some(rows.cell(PROPERTY_MAP, p, 0)),
    }
}

/// How many parameters the type has that owns a row of Field, or of MethodDef.
fn parameters_around(tables: &SetTables<'_>, counts: &[U32s], place: Place, is_field: bool) -> u32
    requires there { place.assembly < length tables.now }
    requires counts { AreSetGenerics tables.now counts.now }
    ensures { result ≡ parameters_around (assembly_at tables.now place.assembly) is_field place.row }
{
    let owner = tables.owner(place.assembly as usize, is_field, place.row);
    type_parameters(tables.set(), counts, place.assembly, owner)
}

/// How many parameters the type of a Property row has.
fn parameters_of_property(
    tables: &SetTables<'_>,
    counts: &[U32s],
    maps: &[u32],
    place: Place,
) -> u32
    requires there { place.assembly < length tables.now }
    requires counts { AreSetGenerics tables.now counts.now }
    requires maps { ArePropertyMaps (assembly_at tables.now place.assembly) maps.now }
    requires row { is_row (assembly_at tables.now place.assembly) PROPERTY place.row ≡ true }
    ensures { result ≡ type_parameters (assembly_at tables.now place.assembly) (property_owner (assembly_at tables.now place.assembly) place.row) }
{
    let set = tables.set();
    let owner = property_owner(set[place.assembly as usize].rows(), maps, place.row);
    type_parameters(set, counts, place.assembly, owner)
}

/// Whether a parameter isn't among `n` of the type, or `m` of the method.
fn strays_at(tables: &SetTables<'_>, a: u32, n: u32, m: u32, tys: &[SigTy]) -> bool
    requires { a < length tables.now }
    ensures { result ≡ strays_at tables.now a n m tys.now }
{
    any_strays(tables.coded(a as usize), n, m, 1000, tys)
}

/// Whether a row with these types has others than its own parameters, but for TypeSpec and
/// MethodSpec; `counts` has the numbers of parameters, `maps` the PropertyMap rows where the table
/// is Property.
pub fn is_unfit(
    tables: &SetTables<'_>,
    counts: &[U32s],
    maps: &[u32],
    place: Place,
    tys: &[SigTy],
) -> bool
    requires there { place.assembly < length tables.now }
    requires counts { AreSetGenerics tables.now counts.now }
    requires maps { place.table ≡ PROPERTY → ArePropertyMaps (assembly_at tables.now place.assembly) maps.now }
    requires row { is_row (assembly_at tables.now place.assembly) place.table place.row ≡ true }
    requires type_spec { (place.table == TYPE_SPEC) ≡ false }
    requires method_spec { (place.table == METHOD_SPEC) ≡ false }
    ensures { result ≡ is_unfit tables.now place.assembly place.table place.row tys.now }
{
    let a = place.assembly;
    match place.table {
        FIELD => {
            let n = parameters_around(tables, counts, place, true);
            strays_at(tables, a, n, 0, tys)
        }
        METHOD_DEF => {
            let n = parameters_around(tables, counts, place, false);
            let m = generics(tables.set(), counts, a, place.row as u64 * 2 + 1);
            strays_at(tables, a, n, m, tys)
        }
        PROPERTY => {
            let n = parameters_of_property(tables, counts, maps, place);
            strays_at(tables, a, n, 0, tys)
        }
        _ => false,
    }
}

/// N6 at a row whose parameters don't fit.
pub fn unfit_fault(place: Place, unfit: bool) -> Option<Refusal>
    ensures { result ≡ first_of (test N6 place.assembly place.table place.row unfit ∷ []) }
{
    if unfit {
        return Some(place.refusal(Rule::N6, 0));
    }
    None
}
