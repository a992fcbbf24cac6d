// The outside members that the rows of a set name, each once, in order (ECMA-335, II.22.25).
ghost use Rattle.std.specs.Prelude.{◌≡◌, ◌<◌, ◌^◌, ◌-◌, [], length, slice_get, flat_map, IfOk};
ghost use Rattle.std.specs.List.{range_with_len};
ghost use Rattle.set_rows.specs.Sets.{count_in};
ghost use Rattle.set_program.specs.Numbering.{walk};
ghost use Rattle.member_table.specs.Environments.{environment_in, rows_or};
ghost use Rattle.member_table.specs.Numbers.{added_if, all_noted, outside_of, outside_in, references_in};

use crate::member::member_in;
use crate::named::Named;
use cil_base::tables::MEMBER_REF;
use members::{AssemblyMembers, Outside, OutsideMember, SetType};
use sqlite_items::at;
use std::alloc::{AllocError, Global};

fn outside_of(is_field: bool, named: Named) -> Option<OutsideMember>
    ensures { result ≡ outside_of is_field named }
{
    match named {
        Named::Outside(member) => {
            if is_field == member.shape.is_field {
                Some(member)
            } else {
                None
            }
        }
        Named::InSet(_) => None,
        Named::Missing => None,
    }
}

fn with_member(
    alloc: Global,
    found: Outside,
    member: Option<OutsideMember>,
) -> Result<Outside, AllocError>
    ensures { IfOk result (λ o. o ≡ added_if found member) }
{
    let Some(member) = member else {
        return Ok(found);
    };
    if found.len() >= u32::MAX as usize {
        return Err(AllocError);
    }
    found.with(alloc, member)
}

/// Notes what a MemberRef row names, where that is an outside field, or method.
fn note_row(
    alloc: Global,
    assemblies: &[AssemblyMembers<'_>],
    types: &[SetType],
    is_field: bool,
    a: u32,
    row: u32,
    found: Outside,
) -> Result<Outside, AllocError>
    ensures { IfOk result (λ o. o ≡ added_if found (outside_in (environment_in assemblies.now types.now) is_field (a, row))) }
{
    let named = member_in(alloc, assemblies, types, a, row)?;
    with_member(alloc, found, outside_of(is_field, named))
}

fn reference_count(assemblies: &[AssemblyMembers<'_>], a: u32) -> u32
    ensures { result ≡ count_in (rows_or (slice_get assemblies.now a)) MEMBER_REF }
{
    match at(assemblies, a as usize) {
        None => 0,
        Some(assembly) => assembly.rows.count(MEMBER_REF),
    }
}

/// Notes what the MemberRef rows of an assembly name.
fn note_assembly(
    alloc: Global,
    assemblies: &[AssemblyMembers<'_>],
    types: &[SetType],
    is_field: bool,
    a: u32,
    start: Outside,
) -> Result<Outside, AllocError>
    ensures { IfOk result (λ o. o ≡ all_noted (outside_in (environment_in assemblies.now types.now) is_field) start (references_in (environment_in assemblies.now types.now) a)) }
{
    let count = reference_count(assemblies, a);
    let mut found = start;
    for k in 0..count {
        found = note_row(alloc, assemblies, types, is_field, a, k + 1, found)?;
    }
    Ok(found)
}

/// Notes what the MemberRef rows of all assemblies but the first name.
fn note_others(
    alloc: Global,
    assemblies: &[AssemblyMembers<'_>],
    types: &[SetType],
    is_field: bool,
) -> Result<Outside, AllocError>
    requires { length assemblies.now < 2 ^ 32 }
    ensures { IfOk result (λ o. o ≡ all_noted (outside_in (environment_in assemblies.now types.now) is_field) [] (flat_map (references_in (environment_in assemblies.now types.now)) (range_with_len 1 (length assemblies.now - 1)))) }
{
    let others = assemblies.len().saturating_sub(1);
    let mut found = Outside::new(alloc);
    for k in 0..others {
        found = note_assembly(alloc, assemblies, types, is_field, k as u32 + 1, found)?;
    }
    Ok(found)
}

/// The outside fields, or methods, that MemberRef rows name, each once, those of the first assembly
/// last.
pub fn outside_members_in(
    alloc: Global,
    assemblies: &[AssemblyMembers<'_>],
    types: &[SetType],
    is_field: bool,
) -> Result<Outside, AllocError>
    requires { length assemblies.now < 2 ^ 32 }
    ensures { IfOk result (λ o. o ≡ all_noted (outside_in (environment_in assemblies.now types.now) is_field) [] (flat_map (references_in (environment_in assemblies.now types.now)) (walk (range_with_len 0 (length assemblies.now))))) }
{
    let found = note_others(alloc, assemblies, types, is_field)?;
    if assemblies.len() == 0 {
        return Ok(found);
    }
    note_assembly(alloc, assemblies, types, is_field, 0, found)
}
