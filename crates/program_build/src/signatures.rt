// The numbers of the signatures of the methods of a set.
ghost use Rattle.std.specs.Prelude.{◌≡◌, ◌<◌, ◌-◌, ◌+◌, ◌^◌, ◌++◌, length, map, Some, IfOk, OnOk};
ghost use Rattle.std.specs.List.{range_with_len};
ghost use Rattle.cil_base.specs.declared.tables.TheConstants.{METHOD_DEF};
ghost use Rattle.descriptions.specs.Descriptions.{all_signatures};
ghost use Rattle.descriptions.specs.Signatures.{place_in};
ghost use Rattle.program_build.specs.Known.{AreNumbers};
ghost use Rattle.program_build.specs.Orders.{of_others, signature_at};

use crate::rows::rows_at;
use cil_base::U32s;
use cil_base::tables::METHOD_DEF;
use member_numbers::members_before_class;
use members::{Keys, OutsideMember, rows_by_key};
use set_signatures::signature_numbers;
use set_tables::SetTables;
use std::alloc::{AllocError, Global};

/// The numbers of signatures: by signature the first method that has it, counted from 1, and how
/// many methods there are.
#[derive(Drop)]
pub struct Signatures {
    pub found: Keys,
    pub count: u32,
}

impl Signatures {
    /// The number of a signature.
    pub fn number(&self, signature: &Option<U32s>) -> u32
        ensures { result ≡ place_in self.now.found self.now.count signature.now }
    {
        match signature {
            None => self.count,
            Some(numbers) => {
                match self.found.number(numbers.as_slice()) {
                    Some(row) => row.saturating_sub(1),
                    None => self.count,
                }
            }
        }
    }
}

/// The signature of a method.
pub fn row_signature(
    alloc: Global,
    tables: &SetTables<'_>,
    a: u32,
    row: u32,
) -> Result<Option<U32s>, AllocError>
    requires { a < length tables.now }
    ensures { IfOk result (λ o. o ≡ signature_at tables.now a row) }
{
    let blob = rows_at(tables, a).blob(METHOD_DEF, row, 4);
    signature_numbers(alloc, tables.coded(a as usize), &[], blob)
}

/// Appends the signatures of `n` methods of an assembly, those after the first `before`.
fn push_signatures(
    alloc: Global,
    out: &mut Vec<Option<U32s>>,
    tables: &SetTables<'_>,
    a: u32,
    before: u32,
    n: u32,
) -> Result<(), AllocError>
    requires there { a < length tables.now }
    requires rows { before + n < 2 ^ 32 }
    ensures { OnOk result (out.new.items ≡ out.old.items ++ map (signature_at tables.now a) (range_with_len (before + 1) n)) }
{
    for k in 0..n {
        out.push(row_signature(alloc, tables, a, before + k + 1)?)?;
    }
    Ok(())
}

/// Appends the signatures of the methods of the other assemblies.
fn push_others(
    alloc: Global,
    out: &mut Vec<Option<U32s>>,
    tables: &SetTables<'_>,
) -> Result<(), AllocError>
    requires short { length tables.now < 2 ^ 32 }
    ensures { OnOk result (out.new.items ≡ out.old.items ++ of_others tables.now METHOD_DEF (signature_at tables.now) (length tables.now - 1)) }
{
    let others = tables.set().len().saturating_sub(1);
    for k in 0..others {
        let a = k as u32 + 1;
        let count = rows_at(tables, a).count(METHOD_DEF);
        push_signatures(alloc, out, tables, a, 0, count)?;
    }
    Ok(())
}

/// Appends the signatures of the methods outside.
fn push_outside(
    alloc: Global,
    out: &mut Vec<Option<U32s>>,
    members: &[OutsideMember],
) -> Result<(), AllocError>
    ensures { OnOk result (out.new.items ≡ out.old.items ++ map (λ m. Some m.shape.signature) members.now) }
{
    for member in members {
        let numbers = U32s::from_slice(alloc, member.shape.signature.as_slice())?;
        out.push(Some(numbers))?;
    }
    Ok(())
}

fn signatures_in_order(
    alloc: Global,
    tables: &SetTables<'_>,
) -> Result<Vec<Option<U32s>>, AllocError>
    requires some { 0 < length tables.now }
    requires short { length tables.now < 2 ^ 32 }
    ensures { IfOk result (λ v. v.items ≡ all_signatures tables.now) }
{
    let target = &tables.set()[0];
    let old = members_before_class(target, false);
    let own = target.count(METHOD_DEF).saturating_sub(old);
    let members = tables.numbers().outside(false).as_slice();
    let mut out = Vec::new(alloc);
    push_others(alloc, &mut out, tables)?;
    push_signatures(alloc, &mut out, tables, 0, 0, old)?;
    push_outside(alloc, &mut out, members)?;
    push_signatures(alloc, &mut out, tables, 0, old, own)?;
    Ok(out)
}

/// The numbers of the signatures of all methods. One pass, by a hash map.
pub fn signatures_of(alloc: Global, tables: &SetTables<'_>) -> Result<Signatures, AllocError>
    requires some { 0 < length tables.now }
    requires short { length tables.now < 2 ^ 32 }
    ensures { IfOk result (λ n. AreNumbers tables.now n) }
{
    let signatures = signatures_in_order(alloc, tables)?;
    let all = signatures.as_slice();
    // so many would not be held
    if all.len() > 0xFFFF_FFFF {
        return Err(AllocError);
    }
    let found = rows_by_key(alloc, all)?;
    let count = all.len() as u32;
    Ok(Signatures { found, count })
}
