// From a type to its base and its interfaces (ECMA-335, II.22.23, II.22.37).
ghost use Rattle.std.specs.Prelude.{◌≡◌, ◌++◌, ◌<◌, ◌^◌, [], get_or, length, map, option_to_list, IfOk, OnOk};
ghost use Rattle.std.specs.List.{flat_map, range_with_len};
ghost use Rattle.cil_base.specs.declared.tables.TheConstants.{INTERFACE_IMPL, TYPE_DEF};
ghost use Rattle.set_rows.specs.Sets.{cell, rows_in};
ghost use Rattle.set_types.specs.CodedTypes.{coded_of};
ghost use Rattle.cil_model.specs.declared.ty.Ty.{out-Ty};
ghost use Rattle.set_program.specs.Environment.{types_of};
ghost use Rattle.set_program.specs.TypeRules.{above, layer_leads_to, leads_to};
ghost use Rattle.member_table.specs.Environments.{AreOf, coded_ty_at};
ghost use Rattle.row_descriptions.specs.RowLists.{rows_with};
ghost use Rattle.type_circles.specs.RowGraphs.{above_own, above_row, above_in};

use crate::by_number::lists_by_number;
use crate::lists::Lists;
use cil_base::U32s;
use cil_base::tables::{INTERFACE_IMPL, TYPE_DEF};
use cil_model::Ty;
use member_table::{MemberTable, coded_type};
use members::AssemblyMembers;
use row_descriptions::rows_by_cell;
use set_rows::Rows;
use set_types::CodedTypes;
use std::alloc::{AllocError, Global};
use type_table::TypeTable;

/// The number of the type to which a base or an interface leads; `own` is that of the type that has
/// it.
fn led_to(own: Option<u32>, ty: &Ty) -> Option<u32>
    ensures { option_to_list result ≡ layer_leads_to (option_to_list own) (out-Ty ty.now) }
{
    match ty {
        Ty::Known(k) => Some(*k),
        Ty::Inst { ty: k, args: _ } => Some(*k),
        Ty::Var(_) => own,
        Ty::MVar(_) => own,
        _ => None,
    }
}

fn push_some(out: &mut U32s, number: Option<u32>) -> Result<(), AllocError>
    ensures { OnOk result (out.new ≡ out.old ++ option_to_list number) }
{
    match number {
        None => Ok(()),
        Some(k) => out.push(k),
    }
}

/// That of the type that a TypeDefOrRef index names.
fn named_type(
    alloc: Global,
    coded: &CodedTypes,
    own: Option<u32>,
    index: u32,
) -> Result<Option<u32>, AllocError>
    ensures { IfOk result (λ k. option_to_list k ≡ leads_to (option_to_list own) (coded_ty_at (coded_of coded.now) index)) }
{
    match coded_type(alloc, coded, index)? {
        None => Ok(None),
        Some(ty) => Ok(led_to(own, &ty)),
    }
}

fn push_interfaces(
    alloc: Global,
    out: &mut U32s,
    rows: &Rows<'_>,
    coded: &CodedTypes,
    own: Option<u32>,
    list: &[u32],
) -> Result<(), AllocError>
    ensures { OnOk result (out.new ≡ out.old ++ flat_map (λ i. leads_to (option_to_list own) (coded_ty_at (coded_of coded.now) (cell rows.now INTERFACE_IMPL i 1))) list.now) }
{
    for row in list {
        let number = named_type(alloc, coded, own, rows.cell(INTERFACE_IMPL, *row, 1))?;
        push_some(out, number)?;
    }
    Ok(())
}

/// To which types the base and the interfaces of a TypeDef row lead; `own` is the number of its
/// type, `list` are its InterfaceImpl rows.
fn above_row(
    alloc: Global,
    rows: &Rows<'_>,
    coded: &CodedTypes,
    own: Option<u32>,
    row: u32,
    list: &[u32],
) -> Result<U32s, AllocError>
    requires { list.now ≡ rows_with rows.now INTERFACE_IMPL 0 row }
    ensures { IfOk result (λ l. l ≡ above_own (option_to_list own) rows.now (coded_of coded.now) row) }
{
    let mut out = U32s::new(alloc);
    let base = named_type(alloc, coded, own, rows.cell(TYPE_DEF, row, 3))?;
    push_some(&mut out, base)?;
    push_interfaces(alloc, &mut out, rows, coded, own, list)?;
    Ok(out)
}

/// Of each type of an assembly.
fn above_rows(
    alloc: Global,
    types: &TypeTable<'_>,
    rows: &Rows<'_>,
    coded: &CodedTypes,
    a: u32,
) -> Result<Lists, AllocError>
    ensures { IfOk result (λ ls. ls ≡ map (above_row types.now a rows.now (coded_of coded.now)) (rows_in rows.now TYPE_DEF)) }
{
    let count = rows.count(TYPE_DEF);
    let interfaces = rows_by_cell(alloc, rows, INTERFACE_IMPL, 0, count as usize + 1)?;
    let mut lists = Lists::new(alloc);
    for k in 0..count {
        let list = interfaces[k as usize + 1].as_slice();
        let own = types.row_number(a, k + 1);
        lists.push(above_row(alloc, rows, coded, own, k + 1, list)?)?;
    }
    Ok(lists)
}

fn all_above(
    alloc: Global,
    types: &TypeTable<'_>,
    assemblies: &[AssemblyMembers<'_>],
) -> Result<Vec<Lists>, AllocError>
    requires { length assemblies.now < 2 ^ 32 }
    ensures { IfOk result (λ v. v.items ≡ map (above_in types.now assemblies.now) (range_with_len 0 (length assemblies.now))) }
{
    let mut all = Vec::new(alloc);
    for a in 0..assemblies.len() {
        let assembly = &assemblies[a];
        all.push(above_rows(alloc, types, &assembly.rows, &assembly.coded, a as u32)?)?;
    }
    Ok(all)
}

/// To which types each one leads by its base and its interfaces, where these are the assemblies and
/// the types of the set of `types`: to their definitions, and by a type parameter to itself. One pass
/// over each table.
pub fn above_lists(
    alloc: Global,
    types: &TypeTable<'_>,
    table: &MemberTable<'_>,
) -> Result<Vec<U32s>, AllocError>
    requires few { length table.now.assemblies.items < 2 ^ 32 }
    requires table { AreOf types.now table.now.assemblies.items table.now.types.items }
    ensures { IfOk result (λ v. v.items ≡ map (above types.now) (range_with_len 0 (length (types_of types.now)))) }
{
    let rows = all_above(alloc, types, table.assemblies.as_slice())?;
    let lists = lists_by_number(alloc, table.types.as_slice(), rows.as_slice())?;
    Ok(lists)
}
