// The type whose code names others.

ghost use Rattle.std.specs.Prelude.{◌≡◌, IfOk, OnOk};
ghost use Rattle.std.specs.List.{filter_map};
ghost use Rattle.cil_semantics.specs.Words.{any};
ghost use Rattle.member_access.specs.Access.{number_of, reader, has_base};

use cil_base::U32s;
use cil_model::{Program, Ty};
use look_ups::{bases_of, definition_of};
use std::alloc::{AllocError, Global};

/// A type of an assembly, with the numbers of its bases, the nearest first.
#[derive(Drop)]
pub struct Reader {
    pub assembly: u32,
    pub ty: u32,
    pub bases: U32s,
}

fn numbers_of(alloc: Global, types: &[Ty]) -> Result<U32s, AllocError>
    ensures { IfOk result (λ out. out ≡ filter_map number_of types.now) }
{
    let mut out = U32s::new(alloc);
    for ty in types {
        if let Some(k) = definition_of(ty) {
            out.push(k)?;
        }
    }
    Ok(out)
}

/// A type of an assembly as one that names others.
pub fn reader_of(
    alloc: Global,
    program: &Program,
    assembly: u32,
    ty: u32,
) -> Result<Reader, AllocError>
    ensures { IfOk result (λ it. it ≡ reader program.now assembly ty) }
{
    let bases = bases_of(alloc, program, &Ty::Known(ty))?;
    Ok(Reader {
        assembly,
        ty,
        bases: numbers_of(alloc, bases.as_slice())?,
    })
}

pub(crate) fn has_base(reader: &Reader, k: u32) -> bool
    ensures { result ≡ has_base reader.now k }
{
    for base in reader.bases.as_slice() {
        if *base == k {
            return true;
        }
    }
    false
}
