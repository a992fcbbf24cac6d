// The table of the members of a set, from its parts.
ghost use Rattle.std.specs.Prelude.{◌≡◌, ◌<◌, ◌^◌, ℕ, Some, length, slice_get, map, IfOk};
ghost use Rattle.set_types.specs.CodedTypes.{coded_of};
ghost use Rattle.set_types.specs.declared.coded.CodedTypes.{CodedTypes};
ghost use Rattle.set_program.specs.Environment.{coded_in};
ghost use Rattle.member_table.specs.Environments.{AreOf};

use crate::cuts::{first, types_before_class};
use crate::types::all_types;
use cil_base::tables::TYPE_DEF;
use member_table::MemberTable;
use members::AssemblyMembers;
use set_program::Part;
use set_types::CodedTypes;
use std::alloc::{AllocError, Global};
use type_table::TypeTable;

/// The assemblies of a set with their members by key.
fn assemblies<'a>(
    alloc: Global,
    set: &[Part<'a>],
    coded: Vec<CodedTypes>,
) -> Result<Vec<AssemblyMembers<'a>>, AllocError>
    requires { length coded.items ≡ length set.now }
    ensures rows { IfOk result (λ v. map (λ m. m.rows) v.items ≡ set.now) }
    ensures coded { IfOk result (λ v. map (λ m. m.coded) v.items ≡ coded.items) }
{
    let mut assemblies = Vec::new(alloc);
    for types in coded {
        let rows = set[assemblies.len()].rows().same();
        assemblies.push(AssemblyMembers::new(alloc, rows, types)?)?;
    }
    Ok(assemblies)
}

/// The members of a set, by what the coded types of its assemblies lead to.
pub fn member_table<'a>(
    alloc: Global,
    set: &[Part<'a>],
    types: &TypeTable<'_>,
    coded: Vec<CodedTypes>,
) -> Result<MemberTable<'a>, AllocError>
    requires some { 0 < length set.now }
    requires short { length set.now < 2 ^ 32 }
    requires typed { types.now ≡ set.now }
    requires many { length coded.items ≡ length set.now }
    requires coded { (a : ℕ) (c : CodedTypes) → slice_get coded.items a ≡ Some c → coded_of c ≡ coded_in set.now a }
    ensures { IfOk result (λ t. AreOf set.now t.assemblies.items t.types.items) }
{
    let assemblies = assemblies(alloc, set, coded)?;
    let target = first(set);
    let old = types_before_class(target);
    let new = target.count(TYPE_DEF).saturating_sub(old);
    let types = all_types(alloc, assemblies.as_slice(), types.len(), old, new)?;
    Ok(MemberTable { assemblies, types })
}
