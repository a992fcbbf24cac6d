// Types that lead back to themselves, and structs that nest too deep (ECMA-335, II.10.3).
ghost use Rattle.std.specs.Prelude.{◌≡◌, ◌||◌, ◌<◌, ◌^◌, false, get_or, length, map, IfOk};
ghost use Rattle.std.specs.List.{range_with_len};
ghost use Rattle.set_program.specs.Environment.{types_of};
ghost use Rattle.set_program.specs.TypeRules.{above, around, within, is_entangled};

use cil_base::U32s;
use std::alloc::{AllocError, Global};
use type_graphs::{deep_nodes, nodes_on_circles};
use type_table::TypeTable;

/// How deep structs stand in structs at most.
const DEEPEST: u32 = 1000;

fn holds_at(first: &[bool], second: &[bool], k: usize) -> bool
    ensures { result ≡ (get_or first.now k false || get_or second.now k false) }
{
    match first.get(k) {
        Some(true) => true,
        _ => second.get(k).copied().unwrap_or(false),
    }
}

fn or_each(alloc: Global, first: &[bool], second: &[bool]) -> Result<Vec<bool>, AllocError>
    ensures { IfOk result (λ v. v.items ≡ map (λ k. get_or first.now k false || get_or second.now k false) (range_with_len 0 (length first.now))) }
{
    let mut joined = Vec::new(alloc);
    for k in 0..first.len() {
        joined.push(holds_at(first, second, k))?;
    }
    Ok(joined)
}

/// Of each type whether it leads back to itself by bases and interfaces, by the types around it or
/// by the structs within it, or has structs within it too deep; by what each type leads to: `bases` by its
/// base and interfaces, `nestings` by the type around it, `structs` by the structs within it.
pub fn entangled_types(
    alloc: Global,
    types: &TypeTable<'_>,
    bases: &[U32s],
    nestings: &[U32s],
    structs: &[U32s],
) -> Result<Vec<bool>, AllocError>
    requires few { length (types_of types.now) < 2 ^ 32 }
    requires bases { bases.now ≡ map (above types.now) (range_with_len 0 (length (types_of types.now))) }
    requires nestings { nestings.now ≡ map (around types.now) (range_with_len 0 (length (types_of types.now))) }
    requires structs { structs.now ≡ map (within types.now) (range_with_len 0 (length (types_of types.now))) }
    ensures { IfOk result (λ v. v.items ≡ map (is_entangled types.now) (range_with_len 0 (length (types_of types.now)))) }
{
    let deep = deep_nodes(alloc, structs, DEEPEST)?;
    let in_structs = nodes_on_circles(alloc, structs)?;
    let tangled = or_each(alloc, &in_structs, &deep)?;
    let in_nestings = nodes_on_circles(alloc, nestings)?;
    let inside = or_each(alloc, &in_nestings, &tangled)?;
    let in_bases = nodes_on_circles(alloc, bases)?;
    let all = or_each(alloc, &in_bases, &inside)?;
    Ok(all)
}
