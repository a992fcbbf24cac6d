// Which types of a set are structs (ECMA-335, II.10.1).
ghost use Rattle.std.specs.Prelude.{◌≡◌, map, IfOk};
ghost use Rattle.cil_model.specs.declared.ty.Ty.{out-Ty};
ghost use Rattle.set_types.specs.CodedTypes.{coded_of};
ghost use Rattle.set_program.specs.Kinds.{kind_by_layer, kind_by_name};
ghost use Rattle.set_program.specs.TypeRules.{is_struct_kind};
ghost use Rattle.type_circles.specs.Structs.{is_struct_in, is_struct_of};

use cil_base::tables::TYPE_DEF;
use cil_model::Ty;
use member_table::coded_type;
use members::{AssemblyMembers, SetType};
use set_rows::Rows;
use set_types::CodedTypes;
use sqlite_items::at;
use std::alloc::{AllocError, Global};

#[tactic(auto, using(crate::proofs::KindLaws::struct_name))]
fn names_struct_base(name: &[u8]) -> bool
    ensures { result ≡ is_struct_kind (kind_by_name name.now) }
{
    name == b"System.ValueType".as_slice()
}

fn is_struct_base(ty: &Ty) -> bool
    ensures { result ≡ is_struct_kind (kind_by_layer (out-Ty ty.now)) }
{
    match ty {
        Ty::Outside { name, .. } => names_struct_base(name.as_slice()),
        _ => false,
    }
}

fn is_struct_row(
    alloc: Global,
    rows: &Rows<'_>,
    coded: &CodedTypes,
    row: u32,
) -> Result<bool, AllocError>
    ensures { IfOk result (λ is. is ≡ is_struct_in rows.now (coded_of coded.now) row) }
{
    if rows.cell(TYPE_DEF, row, 0) / 0x20 % 2 == 1 {
        return Ok(false);
    }
    match coded_type(alloc, coded, rows.cell(TYPE_DEF, row, 3))? {
        None => Ok(false),
        Some(ty) => Ok(is_struct_base(&ty)),
    }
}

fn is_struct_type(
    alloc: Global,
    assemblies: &[AssemblyMembers<'_>],
    of: &SetType,
) -> Result<bool, AllocError>
    ensures { IfOk result (λ is. is ≡ is_struct_of assemblies.now of.now) }
{
    match at(assemblies, of.assembly as usize) {
        None => Ok(false),
        Some(assembly) => is_struct_row(alloc, &assembly.rows, &assembly.coded, of.row),
    }
}

/// Of each type of a set whether it is a struct.
pub(crate) fn struct_flags(
    alloc: Global,
    assemblies: &[AssemblyMembers<'_>],
    types: &[SetType],
) -> Result<Vec<bool>, AllocError>
    ensures { IfOk result (λ v. v.items ≡ map (is_struct_of assemblies.now) types.now) }
{
    let mut flags = Vec::new(alloc);
    for of in types {
        flags.push(is_struct_type(alloc, assemblies, of)?)?;
    }
    Ok(flags)
}
