// How many parameters types and methods have, by TypeOrMethodDef index (ECMA-335, II.22.20).
ghost use Rattle.std.specs.Prelude.{◌≡◌, ◌<◌, ◌^◌, ◌+◌, ◌-◌, if◌then◌else◌, ℕ, [], length, get_or, slice_get, map, IfOk};
ghost use Rattle.std.specs.List.{range_with_len};
ghost use Rattle.cil_base.specs.declared.tables.TheConstants.{GENERIC_PARAM};
ghost use Rattle.set_rows.specs.Sets.{assembly_at};
ghost use Rattle.set_program.specs.Kinds.{generics};
ghost use Rattle.member_rules.specs.Parameters.{AreGenerics, AreSetGenerics};

use cil_base::U32s;
use cil_base::tables::{GENERIC_PARAM, METHOD_DEF, TYPE_DEF};
use row_descriptions::rows_by_cell;
use set_program::Part;
use set_rows::Rows;
use std::alloc::{AllocError, Global};

/// The lengths of lists.
fn lengths(alloc: Global, lists: &[U32s]) -> Result<U32s, AllocError>
    requires { (n : ℕ) → n < length lists.now → length (get_or lists.now n []) < 2 ^ 32 }
    ensures { IfOk result (λ v. v ≡ map (λ n. length (get_or lists.now n [])) (range_with_len 0 (length lists.now))) }
{
    let mut lengths = U32s::new(alloc);
    for k in 0..lists.len() {
        lengths.push(lists[k].len() as u32)?;
    }
    Ok(lengths)
}

/// How many parameters each type and each method has: one pass over GenericParam.
fn row_generics(alloc: Global, rows: &Rows<'_>) -> Result<U32s, AllocError>
    ensures { IfOk result (λ v. AreGenerics rows.now v) }
{
    let _parameters = rows.count(GENERIC_PARAM);
    let bound = rows.count(TYPE_DEF).max(rows.count(METHOD_DEF)) as usize * 2 + 2;
    let lists = rows_by_cell(alloc, rows, GENERIC_PARAM, 2, bound)?;
    let counts = lengths(alloc, lists.as_slice())?;
    Ok(counts)
}

/// How many parameters the types and the methods of each assembly have.
pub fn set_generics(alloc: Global, set: &[Part<'_>]) -> Result<Vec<U32s>, AllocError>
    ensures { IfOk result (λ v. AreSetGenerics set.now v.items) }
{
    let mut counts = Vec::new(alloc);
    for a in 0..set.len() {
        counts.push(row_generics(alloc, set[a].rows())?)?;
    }
    Ok(counts)
}

fn one_more(count: u32, is: bool) -> u32
    requires { count < 2 ^ 32 - 1 }
    ensures { result ≡ (if is then count + 1 else count) }
{
    if is { count + 1 } else { count }
}

/// How many GenericParam rows have this owner, for an index that names no row.
fn counted(rows: &Rows<'_>, owner: u64) -> u32
    ensures { result ≡ generics rows.now owner }
{
    let mut count = 0;
    let all = rows.count(GENERIC_PARAM);
    for k in 0..all {
        let is = rows.cell(GENERIC_PARAM, k + 1, 2) as u64 == owner;
        count = one_more(count, is);
    }
    count
}

fn known(counts: &[U32s], a: u32, owner: u64) -> Option<u32>
    ensures { result ≡ slice_get (get_or counts.now a []) owner }
{
    match counts.get(a as usize) {
        None => None,
        Some(list) => list.as_slice().get(owner as usize).copied(),
    }
}

/// How many parameters a type or a method has, by its TypeOrMethodDef index (II.24.2.6).
pub fn generics(set: &[Part<'_>], counts: &[U32s], a: u32, owner: u64) -> u32
    requires { AreSetGenerics set.now counts.now }
    ensures { result ≡ generics (assembly_at set.now a) owner }
{
    if a as usize >= set.len() {
        return 0;
    }
    match known(counts, a, owner) {
        Some(count) => count,
        None => counted(set[a as usize].rows(), owner),
    }
}
