// The rules on a row that are tested before its parameters (ECMA-335, II.22.15, II.22.25, II.22.26).
ghost use Rattle.std.specs.Prelude.{◌≡◌, ◌<◌, length, IfOk};
ghost use Rattle.cil_base.specs.Refusals.{first_of};
ghost use Rattle.member_table.specs.MemberRules.{isnt_there, is_taken_at};
ghost use Rattle.member_rules.specs.Parameters.{AreParameters};
ghost use Rattle.member_tests.specs.MemberTables.{early_tests};

use cil_base::tables::{FIELD, MEMBER_REF, METHOD_DEF};
use cil_base::{Place, Refusal, Rule};
use cli_sigs::SigTy;
use member_table::{is_missing, isnt_read};
use set_tables::SetTables;
use signature_rules::{ParameterCounts, any_miscounts};
use std::alloc::{AllocError, Global};

/// Whether no type owns a row of Field or MethodDef, or a MemberRef row names a member that isn't
/// there (N2).
fn isnt_there(alloc: Global, tables: &SetTables<'_>, place: Place) -> Result<bool, AllocError>
    requires { place.assembly < length tables.now }
    ensures { IfOk result (λ b. b ≡ isnt_there tables.now place.assembly place.table place.row) }
{
    let a = place.assembly as usize;
    match place.table {
        FIELD => Ok(tables.owner(a, true, place.row).is_none()),
        METHOD_DEF => Ok(tables.owner(a, false, place.row).is_none()),
        MEMBER_REF => {
            let named = tables.member(alloc, place.assembly, place.row)?;
            Ok(is_missing(&named))
        }
        _ => Ok(false),
    }
}

/// Whether an earlier field, or method, of its type has the name and signature of a row (N4).
fn is_taken_at(alloc: Global, tables: &SetTables<'_>, place: Place) -> Result<bool, AllocError>
    requires { place.assembly < length tables.now }
    ensures { IfOk result (λ b. b ≡ is_taken_at tables.now place.assembly place.table place.row) }
{
    let a = place.assembly as usize;
    match place.table {
        FIELD => tables.member_is_taken(alloc, a, true, place.row),
        METHOD_DEF => tables.member_is_taken(alloc, a, false, place.row),
        _ => Ok(false),
    }
}

/// The first refusal at a row whose signature has these types, but for its own parameters;
/// `parameters` has the numbers of those of the types that its assembly names.
#[tactic(auto, unfolding(crate::specs::MemberTables::early_tests))]
pub fn early_fault(
    alloc: Global,
    tables: &SetTables<'_>,
    parameters: &ParameterCounts,
    place: Place,
    tys: &[SigTy],
) -> Result<Option<Refusal>, AllocError>
    requires there { place.assembly < length tables.now }
    requires parameters { AreParameters tables.now place.assembly parameters.now }
    ensures { IfOk result (λ f. f ≡ first_of (early_tests tables.now place.assembly place.table place.row tys.now)) }
{
    let coded = tables.coded(place.assembly as usize);
    if isnt_read(alloc, coded, tys)? {
        return Ok(Some(place.refusal(Rule::N1, 0)));
    }
    if isnt_there(alloc, tables, place)? {
        return Ok(Some(place.refusal(Rule::N2, 0)));
    }
    if is_taken_at(alloc, tables, place)? {
        return Ok(Some(place.refusal(Rule::N4, 0)));
    }
    if any_miscounts(parameters, 1000, tys) {
        return Ok(Some(place.refusal(Rule::N6, 0)));
    }
    Ok(None)
}
