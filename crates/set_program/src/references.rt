// What TypeRef rows name (ECMA-335, II.22.38), and where forwarders lead (II.22.14).
ghost use Rattle.std.specs.Prelude.{◌≡◌, ℕ, ◌+◌, ◌<◌, ◌≤◌, ◌^◌, ◌++◌, ◌∷◌, [], List, length, map, reverse, get_or, option_map, option_and_then, Option, Some, None, IfOk, OnOk};
ghost use Rattle.std.specs.Option.{option_copied};
ghost use Rattle.set_program.specs.declared.identity.TypeId.{TypeId};
ghost use Rattle.set_rows.specs.Sets.{Assembly, assembly_at, assembly_named, assembly_name, count_in, rows_in, cell, text};
ghost use Rattle.set_program.specs.ReferenceRules.{reference_tests};
ghost use Rattle.set_names.specs.Paths.{path_within};
ghost use Rattle.set_program.specs.TypeNames.{joined, own_name, inner_name, full_name, type_named};
ghost use Rattle.set_program.specs.Steps.{step_to};
ghost use Rattle.set_program.specs.References.{outer_reference, inside, says, found_within, found_in, by_scope, along, from_outermost, by_path, reference_in, reference};
ghost use Rattle.cil_base.specs.Refusals.{OnRefused, first_of};

use crate::identity::TypeId;
use crate::part::Part;
use crate::row_names::{inner_name, joined};
use cil_base::tables::{ASSEMBLY, ASSEMBLY_REF, EXPORTED_TYPE, TYPE_REF};
use cil_base::{Fault, Name, Place, Rule};
use sqlite_items::Items;
use std::alloc::{AllocError, Global};

/// The name of a TypeRef row, without the types around it.
fn own_name(alloc: Global, part: &Part<'_>, row: u32) -> Result<Name, AllocError>
    ensures { IfOk result (λ name. name ≡ own_name part.now TYPE_REF row) }
{
    joined(
        alloc,
        part.text(TYPE_REF, row, 2),
        part.text(TYPE_REF, row, 1),
    )
}

/// The TypeRef rows from this one outwards, or None where its scopes lead into a circle.
fn reference_path(alloc: Global, part: &Part<'_>, row: u32) -> Result<Option<Vec<u32>>, AllocError>
    ensures { IfOk result (λ path. option_map (λ rows. rows.items) path ≡ path_within (outer_reference part.now) (count_in part.now TYPE_REF) row) }
{
    let most = part.count(TYPE_REF);
    let mut path = Vec::new(alloc);
    let mut at = row;
    for _k in 0..most {
        path.push(at)?;
        match part.outer_reference(at) {
            None => return Ok(Some(path)),
            Some(outer) => at = outer,
        }
    }
    Ok(None)
}

/// The first assembly of a simple name.
pub fn assembly_named(set: &[Part<'_>], name: &[u8]) -> Option<u32>
    requires { length set.now < 2 ^ 32 }
    ensures { result ≡ assembly_named set.now name.now }
{
    for a in 0..set.len() {
        if name == set[a].text(ASSEMBLY, 1, 7) {
            return Some(a as u32);
        }
    }
    None
}

/// The type inside another.
#[tactic(auto, unfolding(crate::specs::References::inside))]
pub fn inside(
    alloc: Global,
    set: &[Part<'_>],
    name: &[u8],
    outer: TypeId,
) -> Result<Option<TypeId>, AllocError>
    ensures { IfOk result (λ id. id ≡ inside set.now name.now outer) }
{
    match outer {
        TypeId::Outside(full) => {
            let full = inner_name(alloc, full.as_slice(), name)?;
            Ok(Some(TypeId::Outside(full)))
        }
        TypeId::Row { assembly, row } => {
            if assembly as usize >= set.len() {
                return Ok(None);
            }
            let part = &set[assembly as usize];
            let Some(outer) = part.full_name(row) else {
                return Ok(None);
            };
            let full = inner_name(alloc, outer, name)?;
            match part.type_named(full.as_slice()) {
                None => Ok(None),
                Some(row) => Ok(Some(TypeId::Row { assembly, row })),
            }
        }
    }
}

/// Where the name of a type that an assembly lacks is forwarded to.
enum Step {
    /// The type is found, or there is none.
    Done(Option<TypeId>),
    /// An assembly of the set is asked next.
    Asks(u32),
}

/// What an assembly says of a name.
fn asked(alloc: Global, set: &[Part<'_>], name: &[u8], a: u32) -> Result<Step, AllocError>
    requires { length set.now < 2 ^ 32 }
    ensures { IfOk result (λ step. (go : ℕ → Option TypeId) → step_to go step ≡ says go set.now name.now a (assembly_at set.now a)) }
{
    if a as usize >= set.len() {
        return Ok(Step::Done(None));
    }
    let part = &set[a as usize];
    if let Some(row) = part.type_named(name) {
        return Ok(Step::Done(Some(TypeId::Row { assembly: a, row })));
    }
    let Some(e) = part.exported_named(name) else {
        return Ok(Step::Done(None));
    };
    let implementation = part.cell(EXPORTED_TYPE, e, 4);
    if implementation % 4 == 1 {
        if let Some(next) = assembly_named(set, part.text(ASSEMBLY_REF, implementation / 4, 6)) {
            return Ok(Step::Asks(next));
        }
    }
    Ok(Step::Done(Some(TypeId::Outside(Name::from_slice(alloc, name)?))))
}

/// The type of a name in an assembly of the set, or where forwarders lead. None where there is
/// none, or they lead into a circle.
pub fn found_in(
    alloc: Global,
    set: &[Part<'_>],
    name: &[u8],
    a: u32,
) -> Result<Option<TypeId>, AllocError>
    requires { length set.now < 2 ^ 32 }
    ensures { IfOk result (λ id. id ≡ found_in set.now name.now a) }
{
    let mut at = a;
    for _k in 0..set.len() {
        match asked(alloc, set, name, at)? {
            Step::Done(id) => return Ok(id),
            Step::Asks(next) => at = next,
        }
    }
    Ok(None)
}

/// The type of a name by a scope.
fn by_scope(
    alloc: Global,
    set: &[Part<'_>],
    a: u32,
    part: &Part<'_>,
    name: &[u8],
    scope: u32,
) -> Result<Option<TypeId>, AllocError>
    requires { length set.now < 2 ^ 32 }
    ensures { IfOk result (λ id. id ≡ by_scope set.now a part.now name.now scope) }
{
    if scope % 4 == 2 {
        return match assembly_named(set, part.text(ASSEMBLY_REF, scope / 4, 6)) {
            Some(named) => found_in(alloc, set, name, named),
            None => Ok(Some(TypeId::Outside(Name::from_slice(alloc, name)?))),
        };
    }
    if scope == 4 {
        return found_in(alloc, set, name, a);
    }
    Ok(Some(TypeId::Outside(Name::from_slice(alloc, name)?)))
}

/// The type that the TypeRef rows of a path name, from the outermost at its end.
fn from_outermost(
    alloc: Global,
    set: &[Part<'_>],
    a: u32,
    part: &Part<'_>,
    path: Vec<u32>,
) -> Result<Option<TypeId>, AllocError>
    requires { length set.now < 2 ^ 32 }
    ensures { IfOk result (λ id. id ≡ from_outermost set.now a part.now (reverse path.items)) }
{
    let mut rows = path;
    let Some(top) = rows.pop() else {
        return Ok(None);
    };
    let name = own_name(alloc, part, top)?;
    let mut found = by_scope(
        alloc,
        set,
        a,
        part,
        name.as_slice(),
        part.cell(TYPE_REF, top, 0),
    )?;
    while let Some(row) = rows.pop() {
        let Some(outer) = found else {
            return Ok(None);
        };
        let name = own_name(alloc, part, row)?;
        found = inside(alloc, set, name.as_slice(), outer)?;
    }
    Ok(found)
}

/// The type that a TypeRef row names. None where its scopes lead into a circle, or where a type
/// that should be in the set isn't there.
pub fn reference(
    alloc: Global,
    set: &[Part<'_>],
    a: u32,
    row: u32,
) -> Result<Option<TypeId>, AllocError>
    requires short { length set.now < 2 ^ 32 }
    requires there { a < length set.now }
    ensures { IfOk result (λ id. id ≡ reference set.now a row) }
{
    let part = &set[a as usize];
    match reference_path(alloc, part, row)? {
        None => Ok(None),
        Some(path) => from_outermost(alloc, set, a, part, path),
    }
}

/// The types that the TypeRef rows of an assembly name, in row order. N1 at the first row that
/// names none.
pub fn all_references(alloc: Global, set: &[Part<'_>], a: u32) -> Result<Items<TypeId>, Fault>
    requires short { length set.now < 2 ^ 32 }
    requires there { a < length set.now }
    ensures named { IfOk result (λ ids. map (λ id. Some id) ids ≡ map (reference set.now a) (rows_in (assembly_at set.now a) TYPE_REF)) }
    ensures accepted { OnOk result (first_of (reference_tests set.now a) ≡ None) }
    ensures refused { OnRefused result (λ r. first_of (reference_tests set.now a) ≡ Some r) }
{
    let count = set[a as usize].count(TYPE_REF);
    let mut ids = Items::new(alloc);
    for k in 0..count {
        match reference(alloc, set, a, k + 1)? {
            Some(id) => ids.push(id)?,
            None => {
                let place = Place {
                    assembly: a,
                    table: TYPE_REF,
                    row: k + 1,
                };
                return Err(Fault::Refused(place.refusal(Rule::N1, 0)));
            }
        }
    }
    Ok(ids)
}
