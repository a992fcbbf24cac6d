// How many parameters the types have that the coded types of an assembly name (ECMA-335, II.22.20).
ghost use Rattle.std.specs.Prelude.{◌≡◌, ◌<◌, ◌^◌, ◌*◌, length, map, Some, IfOk};
ghost use Rattle.std.specs.List.{range_with_len};
ghost use Rattle.set_rows.specs.Sets.{assembly_at};
ghost use Rattle.set_program.specs.Kinds.{generics};
ghost use Rattle.type_table.specs.Names.{AreReferences};
ghost use Rattle.member_rules.specs.Parameters.{AreParameters, AreSetGenerics, reference_generics};

use crate::generic_params::generics;
use cil_base::U32s;
use cil_base::tables::TYPE_DEF;
use set_program::{Part, TypeId};
use signature_rules::ParameterCounts;
use std::alloc::{AllocError, Global};

/// By TypeDef row from 0.
fn definition_counts(
    alloc: Global,
    set: &[Part<'_>],
    counts: &[U32s],
    a: u32,
    count: u32,
) -> Result<Vec<Option<u32>>, AllocError>
    requires { AreSetGenerics set.now counts.now }
    ensures { IfOk result (λ v. v.items ≡ map (λ row. Some (generics (assembly_at set.now a) (row * 2))) (range_with_len 1 count)) }
{
    let mut found = Vec::new(alloc);
    for k in 0..count {
        found.push(Some(generics(set, counts, a, (k as u64 + 1) * 2)))?;
    }
    Ok(found)
}

/// How many parameters the type has that a TypeRef row names.
fn reference_count(set: &[Part<'_>], counts: &[U32s], id: &Option<TypeId>) -> Option<u32>
    requires { AreSetGenerics set.now counts.now }
    ensures { result ≡ reference_generics set.now id.now }
{
    match id {
        Some(TypeId::Row { assembly, row }) => Some(generics(
            set,
            counts,
            *assembly,
            *row as u64 * 2,
        )),
        _ => None,
    }
}

/// By TypeRef row from 0, where `references` has what the rows name.
fn reference_counts(
    alloc: Global,
    set: &[Part<'_>],
    counts: &[U32s],
    references: &[Option<TypeId>],
) -> Result<Vec<Option<u32>>, AllocError>
    requires { AreSetGenerics set.now counts.now }
    ensures { IfOk result (λ v. v.items ≡ map (reference_generics set.now) references.now) }
{
    let mut found = Vec::new(alloc);
    for id in references {
        found.push(reference_count(set, counts, id))?;
    }
    Ok(found)
}

/// How many parameters the types have that the coded types of an assembly name; `counts` has the
/// numbers of each assembly, `references` what its TypeRef rows name.
pub fn parameter_counts(
    alloc: Global,
    set: &[Part<'_>],
    counts: &[U32s],
    a: u32,
    references: &[Option<TypeId>],
) -> Result<ParameterCounts, AllocError>
    requires there { a < length set.now }
    requires counts { AreSetGenerics set.now counts.now }
    requires references { AreReferences set.now a references.now }
    ensures { IfOk result (AreParameters set.now a) }
{
    let count = set[a as usize].count(TYPE_DEF);
    let defs = definition_counts(alloc, set, counts, a, count)?;
    let refs = reference_counts(alloc, set, counts, references)?;
    Ok(ParameterCounts { defs, refs })
}
