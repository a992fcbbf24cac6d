// What the TypeRef rows of an assembly name (ECMA-335, II.22.38).
ghost use Rattle.std.specs.Prelude.{◌≡◌, ◌<◌, ◌^◌, length, map, IfOk};
ghost use Rattle.set_rows.specs.Sets.{assembly_at, rows_in};
ghost use Rattle.set_program.specs.References.{reference};

use cil_base::tables::TYPE_REF;
use set_program::{Part, TypeId, reference};
use std::alloc::{AllocError, Global};

/// The types that the TypeRef rows of an assembly name, by row from 0; None where a row names none.
pub fn reference_rows(
    alloc: Global,
    set: &[Part<'_>],
    a: u32,
) -> Result<Vec<Option<TypeId>>, AllocError>
    requires short { length set.now < 2 ^ 32 }
    requires there { a < length set.now }
    ensures { IfOk result (λ v. v.items ≡ map (reference set.now a) (rows_in (assembly_at set.now a) TYPE_REF)) }
{
    let count = set[a as usize].count(TYPE_REF);
    let mut ids = Vec::new(alloc);
    for k in 0..count {
        ids.push(reference(alloc, set, a, k + 1)?)?;
    }
    Ok(ids)
}
