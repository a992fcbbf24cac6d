// The types of a set by number, with their bases.
ghost use Rattle.std.specs.Prelude.{◌≡◌, ◌<◌, ◌^◌, ◌+◌, ◌-◌, ◌++◌, [], length, flat_map, IfOk, OnOk};
ghost use Rattle.std.specs.List.{range_with_len};
ghost use Rattle.set_rows.specs.Sets.{cell, count_in};
ghost use Rattle.set_types.specs.CodedTypes.{coded_of};
ghost use Rattle.set_program.specs.Numbering.{type_cut};
ghost use Rattle.member_table.specs.Environments.{environment_in, row_type};
ghost use Rattle.member_numbers.specs.Types.{type_at, types_from, types_in, outside_types, all_in};

use crate::arguments::{arguments_at, base_at};
use cil_base::tables::TYPE_DEF;
use cli_sigs::SigTys;
use members::{AssemblyMembers, SetType};
use std::alloc::{AllocError, Global};

fn row_type(
    alloc: Global,
    assembly: &AssemblyMembers<'_>,
    a: u32,
    row: u32,
) -> Result<SetType, AllocError>
    ensures { IfOk result (λ t. t ≡ row_type (coded_of assembly.now.coded) a row (cell assembly.now.rows TYPE_DEF row 3)) }
{
    let extends = assembly.rows.cell(TYPE_DEF, row, 3);
    let base = base_at(alloc, &assembly.coded, extends)?;
    let args = arguments_at(alloc, &assembly.coded, extends)?;
    Ok(SetType {
        assembly: a,
        row,
        base,
        args,
    })
}

fn type_at(
    alloc: Global,
    assemblies: &[AssemblyMembers<'_>],
    a: u32,
    row: u32,
) -> Result<SetType, AllocError>
    requires { a < length assemblies.now }
    ensures { IfOk result (λ t. t ≡ type_at (environment_in assemblies.now []) a row) }
{
    row_type(alloc, &assemblies[a as usize], a, row)
}

/// Adds the types of `n` rows of an assembly, those after the first `before`.
fn push_types(
    alloc: Global,
    assemblies: &[AssemblyMembers<'_>],
    a: u32,
    before: u32,
    n: u32,
    types: &mut Vec<SetType>,
) -> Result<(), AllocError>
    requires there { a < length assemblies.now }
    requires rows { before + n < 2 ^ 32 }
    ensures { OnOk result (types.new.items ≡ types.old.items ++ types_from (environment_in assemblies.now []) a (before + 1) n) }
{
    for k in 0..n {
        let ty = type_at(alloc, assemblies, a, before + k + 1)?;
        types.push(ty)?;
    }
    Ok(())
}

/// Adds the types of an assembly.
fn push_assembly(
    alloc: Global,
    assemblies: &[AssemblyMembers<'_>],
    a: u32,
    types: &mut Vec<SetType>,
) -> Result<(), AllocError>
    requires { a < length assemblies.now }
    ensures { OnOk result (types.new.items ≡ types.old.items ++ types_in (environment_in assemblies.now []) a) }
{
    let count = assemblies[a as usize].rows.count(TYPE_DEF);
    push_types(alloc, assemblies, a, 0, count, types)
}

/// Adds the types of all assemblies but the first.
fn push_others(
    alloc: Global,
    assemblies: &[AssemblyMembers<'_>],
    types: &mut Vec<SetType>,
) -> Result<(), AllocError>
    requires { length assemblies.now < 2 ^ 32 }
    ensures { OnOk result (types.new.items ≡ types.old.items ++ flat_map (types_in (environment_in assemblies.now [])) (range_with_len 1 (length assemblies.now - 1))) }
{
    let others = assemblies.len().saturating_sub(1);
    for k in 0..others {
        push_assembly(alloc, assemblies, k as u32 + 1, types)?;
    }
    Ok(())
}

/// Adds so many types that aren't of the set.
fn push_outside(
    alloc: Global,
    assemblies: u32,
    count: usize,
    types: &mut Vec<SetType>,
) -> Result<(), AllocError>
    ensures { OnOk result (types.new.items ≡ types.old.items ++ outside_types assemblies count) }
{
    for _k in 0..count {
        types.push(SetType {
            assembly: assemblies,
            row: 0,
            base: None,
            args: SigTys::new(alloc),
        })?;
    }
    Ok(())
}

/// All `count` types, of which the first `old` and the next `new` of the first assembly stand before
/// and behind those that aren't of the set.
pub fn all_types(
    alloc: Global,
    assemblies: &[AssemblyMembers<'_>],
    count: u32,
    old: u32,
    new: u32,
) -> Result<Vec<SetType>, AllocError>
    requires some { 0 < length assemblies.now }
    requires short { length assemblies.now < 2 ^ 32 }
    requires rows { old + new < 2 ^ 32 }
    ensures { IfOk result (λ v. v.items ≡ all_in (environment_in assemblies.now []) (length assemblies.now) old (count - length (flat_map (types_in (environment_in assemblies.now [])) (range_with_len 1 (length assemblies.now - 1)) ++ types_from (environment_in assemblies.now []) 0 1 old) - new) new) }
{
    let mut types = Vec::new(alloc);
    push_others(alloc, assemblies, &mut types)?;
    push_types(alloc, assemblies, 0, 0, old, &mut types)?;
    let outside = (count as usize).saturating_sub(types.len());
    let outside = outside.saturating_sub(new as usize);
    push_outside(alloc, assemblies.len() as u32, outside, &mut types)?;
    push_types(alloc, assemblies, 0, old, new, &mut types)?;
    Ok(types)
}
