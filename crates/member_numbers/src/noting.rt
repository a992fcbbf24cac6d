// The outside members that the rows of a set name, each once, with the first row that names it
// (ECMA-335, II.22.25).
ghost use Rattle.std.specs.Prelude.{◌≡◌, ◌<◌, ◌^◌, ◌-◌, ◌++◌, ◌∷◌, [], List, length, slice_get, map, flat_map, false, IfOk, None, Some};
ghost use Rattle.std.specs.List.{range_with_len};
ghost use Rattle.set_rows.specs.Sets.{Assemblies, count_in};
ghost use Rattle.set_program.specs.Numbering.{Cell, walk};
ghost use Rattle.members.specs.OutsideMembers.{added_member};
ghost use Rattle.members.specs.declared.set_type.SetType.{SetType};
ghost use Rattle.member_table.specs.Environments.{environment_in, rows_or, AreOf};
ghost use Rattle.member_table.specs.Numbers.{added_if, outside_of, outside_in, references_in, outside_members, outside_row};
ghost use Rattle.member_numbers.specs.Noted.{AreNoted, added_row, row_if};

use cil_base::tables::MEMBER_REF;
use member_table::{MemberTable, Named, member_in};
use members::{AssemblyMembers, Outside, OutsideMember, SetType};
use set_signatures::is_field_blob;
use sqlite_items::at;
use std::alloc::{AllocError, Global};

/// Outside members, and of each the assembly and the MemberRef row that names it first.
#[derive(Drop)]
pub struct Noted {
    pub outside: Outside,
    pub rows: Vec<(u32, u32)>,
}

fn outside_of(is_field: bool, named: Named) -> Option<OutsideMember>
    ensures { result ≡ outside_of is_field named }
{
    match named {
        Named::Outside(member) => {
            if is_field == member.shape.is_field {
                Some(member)
            } else {
                None
            }
        }
        Named::InSet(_) => None,
        Named::Missing => None,
    }
}

/// With a member that a row names.
fn with_member(
    alloc: Global,
    noted: Noted,
    member: OutsideMember,
    a: u32,
    row: u32,
) -> Result<Noted, AllocError>
    ensures outside { IfOk result (λ n. n.outside ≡ added_member noted.outside member) }
    ensures rows { IfOk result (λ n. n.rows.items ≡ added_row noted.outside member noted.rows.items (a, row)) }
{
    let Noted { outside, rows } = noted;
    let before = outside.len();
    if before >= u32::MAX as usize {
        return Err(AllocError);
    }
    let outside = outside.with(alloc, member)?;
    let mut rows = rows;
    if before < outside.len() {
        rows.push((a, row))?;
    }
    Ok(Noted { outside, rows })
}

/// With what a row names, where that is an outside field, or method.
fn with_named(
    alloc: Global,
    noted: Noted,
    member: Option<OutsideMember>,
    a: u32,
    row: u32,
) -> Result<Noted, AllocError>
    ensures outside { IfOk result (λ n. n.outside ≡ added_if noted.outside member) }
    ensures rows { IfOk result (λ n. n.rows.items ≡ row_if noted.outside member noted.rows.items (a, row)) }
{
    match member {
        None => Ok(noted),
        Some(member) => with_member(alloc, noted, member, a, row),
    }
}

/// Whether a MemberRef row may name an outside field, or method: its signature is one's.
fn may_name(assemblies: &[AssemblyMembers<'_>], is_field: bool, a: u32, row: u32) -> bool
    ensures { (types : List SetType) → result ≡ false → outside_in (environment_in assemblies.now types) is_field (a, row) ≡ None }
{
    match at(assemblies, a as usize) {
        None => true,
        Some(assembly) => is_field == is_field_blob(assembly.rows.blob(MEMBER_REF, row, 2)),
    }
}

/// The outside field, or method, that a MemberRef row names.
fn named_by(
    alloc: Global,
    assemblies: &[AssemblyMembers<'_>],
    types: &[SetType],
    is_field: bool,
    a: u32,
    row: u32,
) -> Result<Option<OutsideMember>, AllocError>
    ensures { IfOk result (λ member. member ≡ outside_in (environment_in assemblies.now types.now) is_field (a, row)) }
{
    if !may_name(assemblies, is_field, a, row) {
        return Ok(None);
    }
    let named = member_in(alloc, assemblies, types, a, row)?;
    Ok(outside_of(is_field, named))
}

/// Notes what a MemberRef row names.
fn note_row(
    alloc: Global,
    assemblies: &[AssemblyMembers<'_>],
    types: &[SetType],
    is_field: bool,
    a: u32,
    row: u32,
    noted: Noted,
) -> Result<Noted, AllocError>
    ensures { (cells : List Cell) → AreNoted (outside_in (environment_in assemblies.now types.now) is_field) cells noted.outside noted.rows.items → IfOk result (λ n. AreNoted (outside_in (environment_in assemblies.now types.now) is_field) (cells ++ (a, row) ∷ []) n.outside n.rows.items) }
{
    let member = named_by(alloc, assemblies, types, is_field, a, row)?;
    with_named(alloc, noted, member, a, row)
}

fn reference_count(assemblies: &[AssemblyMembers<'_>], a: u32) -> u32
    ensures { result ≡ count_in (rows_or (slice_get assemblies.now a)) MEMBER_REF }
{
    match at(assemblies, a as usize) {
        None => 0,
        Some(assembly) => assembly.rows.count(MEMBER_REF),
    }
}

/// Notes what the MemberRef rows of an assembly name.
fn note_assembly(
    alloc: Global,
    assemblies: &[AssemblyMembers<'_>],
    types: &[SetType],
    is_field: bool,
    a: u32,
    start: Noted,
) -> Result<Noted, AllocError>
    ensures { (cells : List Cell) → AreNoted (outside_in (environment_in assemblies.now types.now) is_field) cells start.outside start.rows.items → IfOk result (λ n. AreNoted (outside_in (environment_in assemblies.now types.now) is_field) (cells ++ references_in (environment_in assemblies.now types.now) a) n.outside n.rows.items) }
{
    let count = reference_count(assemblies, a);
    let mut noted = start;
    for k in 0..count {
        noted = note_row(alloc, assemblies, types, is_field, a, k + 1, noted)?;
    }
    Ok(noted)
}

/// Notes what the MemberRef rows of all assemblies but the first name.
fn note_others(
    alloc: Global,
    assemblies: &[AssemblyMembers<'_>],
    types: &[SetType],
    is_field: bool,
) -> Result<Noted, AllocError>
    requires { length assemblies.now < 2 ^ 32 }
    ensures { IfOk result (λ n. AreNoted (outside_in (environment_in assemblies.now types.now) is_field) (flat_map (references_in (environment_in assemblies.now types.now)) (range_with_len 1 (length assemblies.now - 1))) n.outside n.rows.items) }
{
    let others = assemblies.len().saturating_sub(1);
    let mut noted = Noted {
        outside: Outside::new(alloc),
        rows: Vec::new(alloc),
    };
    for k in 0..others {
        noted = note_assembly(alloc, assemblies, types, is_field, k as u32 + 1, noted)?;
    }
    Ok(noted)
}

/// Notes what all MemberRef rows name, those of the first assembly last.
fn note_all(
    alloc: Global,
    assemblies: &[AssemblyMembers<'_>],
    types: &[SetType],
    is_field: bool,
) -> Result<Noted, AllocError>
    requires { length assemblies.now < 2 ^ 32 }
    ensures { IfOk result (λ n. AreNoted (outside_in (environment_in assemblies.now types.now) is_field) (flat_map (references_in (environment_in assemblies.now types.now)) (walk (range_with_len 0 (length assemblies.now)))) n.outside n.rows.items) }
{
    let noted = note_others(alloc, assemblies, types, is_field)?;
    if assemblies.len() == 0 {
        return Ok(noted);
    }
    note_assembly(alloc, assemblies, types, is_field, 0, noted)
}

/// The outside fields, or methods, of a set with the rows that name them first.
pub fn noted_members(
    alloc: Global,
    table: &MemberTable<'_>,
    is_field: bool,
) -> Result<Noted, AllocError>
    requires { length table.now.assemblies.items < 2 ^ 32 }
    ensures outside { (s : Assemblies) → AreOf s table.now.assemblies.items table.now.types.items → IfOk result (λ n. n.outside ≡ outside_members s is_field) }
    ensures rows { (s : Assemblies) → AreOf s table.now.assemblies.items table.now.types.items → IfOk result (λ n. map Some n.rows.items ≡ map (outside_row s) (outside_members s is_field)) }
{
    note_all(
        alloc,
        table.assemblies.as_slice(),
        table.types.as_slice(),
        is_field,
    )
}
