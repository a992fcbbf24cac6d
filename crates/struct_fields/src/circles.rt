// Types of a set that lead back to themselves, by its tables (ECMA-335, II.10.3).
ghost use Rattle.std.specs.Prelude.{◌≡◌, ◌<◌, ◌^◌, length, map, IfOk};
ghost use Rattle.std.specs.List.{range_with_len};
ghost use Rattle.set_program.specs.Environment.{types_of};
ghost use Rattle.set_program.specs.TypeRules.{within, is_entangled};
ghost use Rattle.member_table.specs.Environments.{AreOf};

use crate::within::within_lists;
use cil_base::U32s;
use member_table::MemberTable;
use std::alloc::{AllocError, Global};
use type_circles::{Structs, above_lists, around_lists, entangled_types};
use type_table::TypeTable;

fn struct_lists(
    alloc: Global,
    types: &TypeTable<'_>,
    table: &MemberTable<'_>,
) -> Result<Vec<U32s>, AllocError>
    requires few { length (types_of types.now) < 2 ^ 32 }
    requires table { AreOf types.now table.now.assemblies.items table.now.types.items }
    ensures { IfOk result (λ v. v.items ≡ map (within types.now) (range_with_len 0 (length (types_of types.now)))) }
{
    let structs = Structs::new(alloc, types, table)?;
    let lists = within_lists(alloc, table, &structs)?;
    Ok(lists)
}

/// Of each type of the set of `types` whether it leads back to itself, or has structs within it too
/// deep; `table` has the set's assemblies and types.
pub fn find_entangled(
    alloc: Global,
    types: &TypeTable<'_>,
    table: &MemberTable<'_>,
) -> Result<Vec<bool>, AllocError>
    requires few_types { length (types_of types.now) < 2 ^ 32 }
    requires few_assemblies { length table.now.assemblies.items < 2 ^ 32 }
    requires table { AreOf types.now table.now.assemblies.items table.now.types.items }
    ensures { IfOk result (λ v. v.items ≡ map (is_entangled types.now) (range_with_len 0 (length (types_of types.now)))) }
{
    let structs = struct_lists(alloc, types, table)?;
    let bases = above_lists(alloc, types, table)?;
    let nestings = around_lists(alloc, types, table)?;
    let all = entangled_types(
        alloc,
        types,
        bases.as_slice(),
        nestings.as_slice(),
        structs.as_slice(),
    )?;
    Ok(all)
}
