// The fields of a set in the order of their numbers.
ghost use Rattle.std.specs.Prelude.{◌≡◌, ◌<◌, ◌≤◌, ◌-◌, ◌+◌, ◌^◌, ◌++◌, true, length, map, slice_get, option_map, Some, IfOk, OnOk};
ghost use Rattle.std.specs.List.{range_with_len};
ghost use Rattle.cil_base.specs.declared.tables.TheConstants.{FIELD};
ghost use Rattle.set_rows.specs.Sets.{assembly_at, count_in};
ghost use Rattle.member_table.specs.declared.named.MemberId.TheVariants as id;
ghost use Rattle.member_table.specs.Numbers.{member_ids, outside_members, outside_row};
ghost use Rattle.descriptions.specs.Descriptions.{field_desc};
ghost use Rattle.program_build.specs.Known.{IsKnown, AreKnown};
ghost use Rattle.program_build.specs.Orders.{of_others, field_at_row, outside_fields};

use crate::facts::Known;
use crate::rows::{owner_of, reference_blob, rows_at};
use cil_base::Name;
use cil_base::tables::FIELD;
use cil_model::{FieldDesc, FieldDescs};
use descriptions::outside_field;
use member_numbers::members_before_class;
use members::OutsideMember;
use row_descriptions::{field_row, field_ty};
use set_tables::SetTables;
use std::alloc::{AllocError, Global};

/// The field of a row.
fn field_at(
    alloc: Global,
    tables: &SetTables<'_>,
    known: &Known,
    a: u32,
    row: u32,
) -> Result<FieldDesc, AllocError>
    requires there { a < length tables.now }
    requires known { IsKnown tables.now a known.now }
    ensures { IfOk result (λ d. d ≡ field_at_row tables.now a row) }
{
    let coded = tables.coded(a as usize);
    let owners = known.members.field_owners.as_slice();
    field_row(alloc, rows_at(tables, a), coded, owners, row)
}

/// Appends the fields of `n` rows of an assembly, those after the first `before`.
fn push_fields(
    alloc: Global,
    out: &mut FieldDescs,
    tables: &SetTables<'_>,
    known: &Known,
    a: u32,
    before: u32,
    n: u32,
) -> Result<(), AllocError>
    requires there { a < length tables.now }
    requires known { IsKnown tables.now a known.now }
    requires rows { before + n < 2 ^ 32 }
    ensures { OnOk result (out.new ≡ out.old ++ map (field_at_row tables.now a) (range_with_len (before + 1) n)) }
{
    for k in 0..n {
        out.push(field_at(alloc, tables, known, a, before + k + 1)?)?;
    }
    Ok(())
}

/// Appends the fields of the other assemblies.
fn push_others(
    alloc: Global,
    out: &mut FieldDescs,
    tables: &SetTables<'_>,
    known: &[Known],
) -> Result<(), AllocError>
    requires short { length tables.now < 2 ^ 32 }
    requires known { AreKnown tables.now known.now }
    ensures { OnOk result (out.new ≡ out.old ++ of_others tables.now FIELD (field_at_row tables.now) (length tables.now - 1)) }
{
    let others = known.len().saturating_sub(1);
    for k in 0..others {
        let a = k as u32 + 1;
        let count = rows_at(tables, a).count(FIELD);
        push_fields(alloc, out, tables, &known[k + 1], a, 0, count)?;
    }
    Ok(())
}

/// A field outside, with the type that the MemberRef row says which names it first.
fn outside_field_of(
    alloc: Global,
    tables: &SetTables<'_>,
    member: &OutsideMember,
    at: (u32, u32),
) -> Result<FieldDesc, AllocError>
    requires there { at.0 < length tables.now }
    requires at { Some at ≡ outside_row tables.now member.now }
    ensures { IfOk result (λ d. d ≡ field_desc tables.now (id.Outside member.now)) }
{
    let name = Name::from_slice(alloc, member.shape.name.as_slice())?;
    let coded = tables.coded(at.0 as usize);
    let ty = field_ty(alloc, coded, reference_blob(tables, at))?;
    Ok(outside_field(name, owner_of(tables, member), ty))
}

/// Appends the fields outside.
fn push_outside(
    alloc: Global,
    out: &mut FieldDescs,
    tables: &SetTables<'_>,
    members: &[OutsideMember],
    rows: &[(u32, u32)],
) -> Result<(), AllocError>
    requires members { members.now ≡ outside_members tables.now true }
    requires rows { map Some rows.now ≡ map (outside_row tables.now) (outside_members tables.now true) }
    ensures { OnOk result (out.new ≡ out.old ++ outside_fields tables.now) }
{
    for k in 0..members.len() {
        out.push(outside_field_of(alloc, tables, &members[k], rows[k])?)?;
    }
    Ok(())
}

/// The fields of a set in the order of their numbers.
pub fn all_fields(
    alloc: Global,
    tables: &SetTables<'_>,
    known: &[Known],
) -> Result<FieldDescs, AllocError>
    requires some { 0 < length tables.now }
    requires short { length tables.now < 2 ^ 32 }
    requires known { AreKnown tables.now known.now }
    ensures { IfOk result (λ v. v ≡ map (field_desc tables.now) (member_ids tables.now true)) }
{
    let target = &tables.set()[0];
    let old = members_before_class(target, true);
    let own = target.count(FIELD).saturating_sub(old);
    let members = tables.numbers().outside(true).as_slice();
    let rows = tables.numbers().outside_rows(true);
    let mut out = FieldDescs::new(alloc);
    push_others(alloc, &mut out, tables, known)?;
    push_fields(alloc, &mut out, tables, &known[0], 0, 0, old)?;
    push_outside(alloc, &mut out, tables, members, rows)?;
    push_fields(alloc, &mut out, tables, &known[0], 0, old, own)?;
    Ok(out)
}
