// Types and members by their access.

ghost use Rattle.std.specs.Prelude.{◌≡◌, false, length};
ghost use Rattle.cil_semantics.specs.Lookups.{type_of};
ghost use Rattle.cil_semantics.specs.Words.{maybe};
ghost use Rattle.member_access.specs.Access.{is_open_type, is_family_type, is_near, names_within, names_type, is_public, is_family, names_own, names_foreign, names_member, has_base};

use crate::reader::{Reader, has_base};
use cil_model::{Program, TypeDesc};

fn is_open_type(flags: u32) -> bool
    ensures { result ≡ is_open_type flags }
{
    let access = flags % 8;
    access == 1 || access == 2
}

fn is_family_type(flags: u32) -> bool
    ensures { result ≡ is_family_type flags }
{
    let access = flags % 8;
    access == 4 || access == 7
}

fn has_outer_base(reader: &Reader, outer: Option<u32>) -> bool
    ensures { result ≡ maybe false (has_base reader.now) outer }
{
    match outer {
        Some(outer) => has_base(reader, outer),
        None => false,
    }
}

fn is_near_desc(reader: &Reader, desc: &TypeDesc) -> bool
    ensures { result ≡ is_near reader.now desc.now }
{
    desc.outside
        || desc.assembly == reader.assembly
        || is_family_type(desc.flags) && has_outer_base(reader, desc.enclosing)
}

#[tactic(auto, unfolding(cil_semantics::specs::Lookups::contract_exception))]
fn is_near(program: &Program, reader: &Reader, k: u32) -> bool
    ensures { result ≡ is_near reader.now (type_of program.now k) }
{
    match program.types.get(k as usize) {
        Some(desc) => is_near_desc(reader, desc),
        None => reader.assembly == 0,
    }
}

#[tactic(auto, unfolding(cil_semantics::specs::Lookups::contract_exception))]
fn is_open(program: &Program, k: u32) -> bool
    ensures { result ≡ is_open_type (type_of program.now k).flags }
{
    match program.types.get(k as usize) {
        Some(desc) => is_open_type(desc.flags),
        None => false,
    }
}

#[tactic(auto, unfolding(cil_semantics::specs::Lookups::contract_exception))]
fn enclosing_of(program: &Program, k: u32) -> Option<u32>
    ensures { result ≡ (type_of program.now k).enclosing }
{
    match program.types.get(k as usize) {
        Some(desc) => desc.enclosing,
        None => None,
    }
}

/// Whether code of a type may name a type: one that is outside the set, of its assembly, or family in a base,
/// or public as is each type around it up to such a one. It takes no memory.
#[tactic(auto, unfolding(crate::specs::Access::names_type))]
pub fn names_type(program: &Program, reader: &Reader, k: u32) -> bool
    ensures { result ≡ names_type program.now reader.now k }
{
    let mut at = k;
    for step in 0..program.types.len() {
        if is_near(program, reader, at) {
            return true;
        }
        if !is_open(program, at) {
            return false;
        }
        match enclosing_of(program, at) {
            Some(outer) => at = outer,
            None => return true,
        }
    }
    false
}

fn names_own(reader: &Reader, owner: u32, flags: u16) -> bool
    ensures { result ≡ names_own reader.now owner flags }
{
    flags % 8 != 2 || owner == reader.ty
}

fn is_public(flags: u16) -> bool
    ensures { result ≡ is_public flags }
{
    flags % 8 == 6
}

fn is_family(flags: u16) -> bool
    ensures { result ≡ is_family flags }
{
    let access = flags % 8;
    access == 4 || access == 5
}

fn names_foreign(program: &Program, reader: &Reader, owner: u32, flags: u16) -> bool
    ensures { result ≡ names_foreign program.now reader.now owner flags }
{
    is_public(flags) && names_type(program, reader, owner)
        || is_family(flags) && has_base(reader, owner)
}

#[tactic(auto, unfolding(cil_semantics::specs::Lookups::contract_exception))]
fn is_outside(program: &Program, k: u32) -> bool
    ensures { result ≡ (type_of program.now k).outside }
{
    match program.types.get(k as usize) {
        Some(desc) => desc.outside,
        None => false,
    }
}

#[tactic(auto, unfolding(cil_semantics::specs::Lookups::contract_exception))]
fn assembly_of(program: &Program, k: u32) -> u32
    ensures { result ≡ (type_of program.now k).assembly }
{
    match program.types.get(k as usize) {
        Some(desc) => desc.assembly,
        None => 0,
    }
}

/// Whether code of a type may name a member with these flags of a type (ECMA-335, II.23.1.5 and II.23.1.10):
/// of its own assembly all but family-and-assembly members of other types; of another one public members of
/// types that it may name, and family and family-or-assembly members of its bases. It takes no memory.
#[tactic(auto, unfolding(crate::specs::Access::names_member))]
pub fn names_member(program: &Program, reader: &Reader, owner: u32, flags: u16) -> bool
    ensures { result ≡ names_member program.now reader.now owner flags }
{
    if is_outside(program, owner) {
        return true;
    }
    if assembly_of(program, owner) == reader.assembly {
        return names_own(reader, owner, flags);
    }
    names_foreign(program, reader, owner, flags)
}
