// Whether a method is visible.
ghost use Rattle.std.specs.Prelude.{◌≡◌, length};
ghost use Rattle.cil_semantics.specs.Contracted.{are_seen_within, is_seen_method, is_seen_type, is_visible};
ghost use Rattle.cil_semantics.specs.Lookups.{method_of, type_of};

use cil_model::Program;

fn is_seen_method(flags: u16) -> bool
    ensures { result ≡ is_seen_method flags }
{
    let access = flags % 8;
    access == 6 || access == 4 || access == 5
}

fn is_seen_type(flags: u32) -> bool
    ensures { result ≡ is_seen_type flags }
{
    let access = flags % 8;
    access == 1 || access == 2 || access == 4 || access == 7
}

#[tactic(auto, unfolding(cil_semantics::specs::Lookups::contract_exception))]
fn type_flags(program: &Program, k: u32) -> u32
    ensures { result ≡ (type_of program.now k).flags }
{
    match program.types.get(k as usize) {
        Some(desc) => desc.flags,
        None => 0,
    }
}

#[tactic(auto, unfolding(cil_semantics::specs::Lookups::contract_exception))]
fn enclosing_of(program: &Program, k: u32) -> Option<u32>
    ensures { result ≡ (type_of program.now k).enclosing }
{
    match program.types.get(k as usize) {
        Some(desc) => desc.enclosing,
        None => None,
    }
}

fn are_seen(program: &Program, ty: u32) -> bool
    ensures { result ≡ are_seen_within (length program.now.types) program.now ty }
{
    let mut at = ty;
    for k in 0..program.types.len() {
        if !is_seen_type(type_flags(program, at)) {
            return false;
        }
        match enclosing_of(program, at) {
            Some(outer) => at = outer,
            None => return true,
        }
    }
    is_seen_type(type_flags(program, at))
}

/// Whether a method, its type and all types around it are public, family, or family or assembly
/// (ECMA-335, II.23.1.10 and II.23.1.15). It takes no memory.
#[tactic(auto, unfolding(cil_semantics::specs::Contracted::is_visible, cil_semantics::specs::Lookups::no_method))]
pub fn is_visible(program: &Program, method: u32) -> bool
    ensures { result ≡ is_visible program.now method }
{
    match program.methods.get(method as usize) {
        Some(desc) => is_seen_method(desc.flags) && are_seen(program, desc.owner),
        None => false,
    }
}
