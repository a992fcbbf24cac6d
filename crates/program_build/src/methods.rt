// The methods of a set in the order of their numbers, without their bodies.
ghost use Rattle.std.specs.Prelude.{◌≡◌, ◌<◌, ◌≤◌, ◌-◌, ◌+◌, ◌^◌, ◌++◌, false, length, map, Some, IfOk, OnOk};
ghost use Rattle.std.specs.List.{range_with_len};
ghost use Rattle.cil_base.specs.declared.tables.TheConstants.{METHOD_DEF};
ghost use Rattle.set_rows.specs.Sets.{assembly_at, count_in};
ghost use Rattle.set_program.specs.Numbering.{cut};
ghost use Rattle.member_table.specs.declared.named.MemberId.TheVariants as id;
ghost use Rattle.member_table.specs.Numbers.{member_ids, outside_members, outside_row};
ghost use Rattle.descriptions.specs.Descriptions.{method_desc};
ghost use Rattle.program_build.specs.Known.{IsKnown, AreKnown, AreNumbers};
ghost use Rattle.program_build.specs.Orders.{of_others, method_at_row, outside_methods};

use crate::facts::Known;
use crate::rows::{owner_of, reference_blob, rows_at};
use crate::signatures::{Signatures, row_signature, signatures_of};
use cil_base::tables::METHOD_DEF;
use cil_base::{Name, U32s};
use cil_model::{MethodDesc, MethodDescs};
use descriptions::outside_method;
use member_numbers::members_before_class;
use members::OutsideMember;
use row_descriptions::{method_row, parameters_of};
use set_tables::SetTables;
use std::alloc::{AllocError, Global};
use type_facts::{marks_give_methods, method_facts};

/// The method of a row.
fn method_at(
    alloc: Global,
    tables: &SetTables<'_>,
    known: &Known,
    sigs: &Signatures,
    a: u32,
    row: u32,
) -> Result<MethodDesc, AllocError>
    requires there { a < length tables.now }
    requires known { IsKnown tables.now a known.now }
    requires sigs { AreNumbers tables.now sigs.now }
    requires from { 1 ≤ row }
    requires to { row ≤ count_in (assembly_at tables.now a) METHOD_DEF }
    ensures { IfOk result (λ d. d ≡ method_at_row tables.now a row) }
{
    marks_give_methods();
    let signature = row_signature(alloc, tables, a, row)?;
    let facts = method_facts(&known.methods, a, row, sigs.number(&signature));
    let coded = tables.coded(a as usize);
    let owners = known.members.method_owners.as_slice();
    method_row(alloc, rows_at(tables, a), coded, owners, facts)
}

/// Appends the methods of `n` rows of an assembly, those after the first `before`.
fn push_methods(
    alloc: Global,
    out: &mut MethodDescs,
    tables: &SetTables<'_>,
    known: &Known,
    sigs: &Signatures,
    a: u32,
    before: u32,
    n: u32,
) -> Result<(), AllocError>
    requires there { a < length tables.now }
    requires known { IsKnown tables.now a known.now }
    requires sigs { AreNumbers tables.now sigs.now }
    requires rows { before + n < 2 ^ 32 }
    requires within { before + n ≤ count_in (assembly_at tables.now a) METHOD_DEF }
    ensures { OnOk result (out.new ≡ out.old ++ map (method_at_row tables.now a) (range_with_len (before + 1) n)) }
{
    for k in 0..n {
        out.push(method_at(alloc, tables, known, sigs, a, before + k + 1)?)?;
    }
    Ok(())
}

/// Appends the methods of the other assemblies.
fn push_others(
    alloc: Global,
    out: &mut MethodDescs,
    tables: &SetTables<'_>,
    known: &[Known],
    sigs: &Signatures,
) -> Result<(), AllocError>
    requires short { length tables.now < 2 ^ 32 }
    requires known { AreKnown tables.now known.now }
    requires sigs { AreNumbers tables.now sigs.now }
    ensures { OnOk result (out.new ≡ out.old ++ of_others tables.now METHOD_DEF (method_at_row tables.now) (length tables.now - 1)) }
{
    let others = known.len().saturating_sub(1);
    for k in 0..others {
        let a = k as u32 + 1;
        let count = rows_at(tables, a).count(METHOD_DEF);
        push_methods(alloc, out, tables, &known[k + 1], sigs, a, 0, count)?;
    }
    Ok(())
}

/// A method outside, with the parameters of the MemberRef row that names it first.
fn outside_method_of(
    alloc: Global,
    tables: &SetTables<'_>,
    member: &OutsideMember,
    sigs: &Signatures,
    at: (u32, u32),
) -> Result<MethodDesc, AllocError>
    requires there { at.0 < length tables.now }
    requires at { Some at ≡ outside_row tables.now member.now }
    requires sigs { AreNumbers tables.now sigs.now }
    ensures { IfOk result (λ d. d ≡ method_desc tables.now (id.Outside member.now)) }
{
    let name = Name::from_slice(alloc, member.shape.name.as_slice())?;
    let signature = U32s::from_slice(alloc, member.shape.signature.as_slice())?;
    let sig = sigs.number(&Some(signature));
    let coded = tables.coded(at.0 as usize);
    let parameters = parameters_of(alloc, coded, reference_blob(tables, at))?;
    Ok(outside_method(name, owner_of(tables, member), sig, parameters))
}

/// Appends the methods outside.
fn push_outside(
    alloc: Global,
    out: &mut MethodDescs,
    tables: &SetTables<'_>,
    members: &[OutsideMember],
    rows: &[(u32, u32)],
    sigs: &Signatures,
) -> Result<(), AllocError>
    requires members { members.now ≡ outside_members tables.now false }
    requires rows { map Some rows.now ≡ map (outside_row tables.now) (outside_members tables.now false) }
    requires sigs { AreNumbers tables.now sigs.now }
    ensures { OnOk result (out.new ≡ out.old ++ outside_methods tables.now) }
{
    for k in 0..members.len() {
        out.push(outside_method_of(alloc, tables, &members[k], sigs, rows[k])?)?;
    }
    Ok(())
}

/// All methods, by the numbers of their signatures.
fn methods_in_order(
    alloc: Global,
    tables: &SetTables<'_>,
    known: &[Known],
    sigs: &Signatures,
) -> Result<MethodDescs, AllocError>
    requires some { 0 < length tables.now }
    requires short { length tables.now < 2 ^ 32 }
    requires within { cut (assembly_at tables.now 0) METHOD_DEF ≤ count_in (assembly_at tables.now 0) METHOD_DEF + 1 }
    requires known { AreKnown tables.now known.now }
    requires sigs { AreNumbers tables.now sigs.now }
    ensures { IfOk result (λ v. v ≡ map (method_desc tables.now) (member_ids tables.now false)) }
{
    let target = &tables.set()[0];
    let old = members_before_class(target, false);
    let own = target.count(METHOD_DEF).saturating_sub(old);
    let members = tables.numbers().outside(false).as_slice();
    let rows = tables.numbers().outside_rows(false);
    let mut out = MethodDescs::new(alloc);
    push_others(alloc, &mut out, tables, known, sigs)?;
    push_methods(alloc, &mut out, tables, &known[0], sigs, 0, 0, old)?;
    push_outside(alloc, &mut out, tables, members, rows, sigs)?;
    push_methods(alloc, &mut out, tables, &known[0], sigs, 0, old, own)?;
    Ok(out)
}

/// The methods of a set in the order of their numbers, without their bodies.
pub fn all_methods(
    alloc: Global,
    tables: &SetTables<'_>,
    known: &[Known],
) -> Result<MethodDescs, AllocError>
    requires some { 0 < length tables.now }
    requires short { length tables.now < 2 ^ 32 }
    requires within { cut (assembly_at tables.now 0) METHOD_DEF ≤ count_in (assembly_at tables.now 0) METHOD_DEF + 1 }
    requires known { AreKnown tables.now known.now }
    ensures { IfOk result (λ v. v ≡ map (method_desc tables.now) (member_ids tables.now false)) }
{
    let sigs = signatures_of(alloc, tables)?;
    methods_in_order(alloc, tables, known, &sigs)
}
