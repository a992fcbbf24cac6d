// Members in a type or in the nearest of its bases.
ghost use Rattle.std.specs.Prelude.{◌≡◌, ◌<◌, ◌^◌, ◌++◌, [], length, slice_get, option_map, IfOk};
ghost use Rattle.set_types.specs.CodedTypes.{coded_of};
ghost use Rattle.set_signatures.specs.Spelling.{spelled};
ghost use Rattle.members.specs.Bases.{arguments, base_arguments, declares, in_bases};

use crate::assembly_members::AssemblyMembers;
use crate::set_type::SetType;
use cil_base::U32s;
use cli_sigs::SigTy;
use set_signatures::{Shape, type_numbers};
use set_types::CodedTypes;
use sqlite_items::at;
use std::alloc::{AllocError, Global};

/// The first member of a type with this name and signature.
fn declares(
    alloc: Global,
    assemblies: &[AssemblyMembers<'_>],
    args: &[U32s],
    x: &Shape,
    of: &SetType,
) -> Result<Option<u32>, AllocError>
    ensures { IfOk result (λ row. row ≡ declares assemblies.now args.now x.now of.now) }
{
    match at(assemblies, of.assembly as usize) {
        None => Ok(None),
        Some(assembly) => assembly.declared(alloc, args, x, of.row),
    }
}

/// The numbers of the arguments of a base, where `args` stand for the parameters of the type above;
/// None where a coded type in them names no row.
fn arguments(
    alloc: Global,
    coded: &CodedTypes,
    args: &[U32s],
    tys: &[SigTy],
) -> Result<Option<Vec<U32s>>, AllocError>
    ensures { IfOk result (λ all. option_map (λ v. v.items) all ≡ arguments (coded_of coded.now) args.now tys.now) }
{
    let mut all = Vec::new(alloc);
    for ty in tys {
        match type_numbers(alloc, coded, args, ty)? {
            None => return Ok(None),
            Some(numbers) => all.push(numbers)?,
        }
    }
    Ok(Some(all))
}

fn base_arguments(
    alloc: Global,
    assemblies: &[AssemblyMembers<'_>],
    args: &[U32s],
    of: &SetType,
) -> Result<Option<Vec<U32s>>, AllocError>
    ensures { IfOk result (λ all. option_map (λ v. v.items) all ≡ base_arguments assemblies.now args.now of.now) }
{
    match at(assemblies, of.assembly as usize) {
        None => Ok(None),
        Some(assembly) => arguments(alloc, &assembly.coded, args, of.args.as_slice()),
    }
}

/// The member with this name and signature in the nearest of a type and its bases: the number of
/// the type, and the row. The members of a base are seen with the arguments of the base.
pub fn in_bases(
    alloc: Global,
    assemblies: &[AssemblyMembers<'_>],
    types: &[SetType],
    x: &Shape,
    k: u32,
) -> Result<Option<(u32, u32)>, AllocError>
    ensures { IfOk result (λ found. found ≡ in_bases assemblies.now types.now x.now (length types.now) [] k) }
{
    let mut number = k;
    let mut args: Vec<U32s> = Vec::new(alloc);
    for _n in 0..types.len() {
        let Some(of) = at(types, number as usize) else {
            return Ok(None);
        };
        if let Some(row) = declares(alloc, assemblies, args.as_slice(), x, of)? {
            return Ok(Some((number, row)));
        }
        let Some(base) = of.base else {
            return Ok(None);
        };
        let Some(next) = base_arguments(alloc, assemblies, args.as_slice(), of)? else {
            return Ok(None);
        };
        args = next;
        number = base;
    }
    Ok(None)
}
