// The method that a run begins with.

ghost use Rattle.std.specs.Prelude.{◌≡◌, None, Some, IfOk};
ghost use Rattle.cil_base.specs.Refusals.{OnRefused};
ghost use Rattle.cil_semantics.specs.Lookups.{method_of, type_of};
ghost use Rattle.run_entries.specs.Entries.{entry, first_where, is_called, is_closed, may_begin, no_entry};

use crate::arguments::takes_all;
use cil_base::tables::METHOD_DEF;
use cil_base::{Fault, Place, Rule};
use cil_model::{MethodDesc, Program, Value};
use std::alloc::AllocError;

#[tactic(auto, unfolding(cil_semantics::specs::Lookups::contract_exception))]
fn is_of_reference(program: &Program, k: u32) -> bool
    ensures { result ≡ (type_of program.now k).reference }
{
    match program.types.get(k as usize) {
        Some(desc) => desc.reference,
        None => false,
    }
}

#[tactic(auto, unfolding(cil_semantics::specs::Lookups::contract_exception))]
fn generics_of(program: &Program, k: u32) -> u32
    ensures { result ≡ (type_of program.now k).generics }
{
    match program.types.get(k as usize) {
        Some(desc) => desc.generics,
        None => 0,
    }
}

#[tactic(auto, unfolding(cil_semantics::specs::Lookups::contract_exception))]
fn name_of(program: &Program, k: u32) -> &[u8]
    ensures { result.now ≡ (type_of program.now k).name }
{
    match program.types.get(k as usize) {
        Some(desc) => desc.name.as_slice(),
        None => b"__ContractsRuntime/ContractException".as_slice(),
    }
}

fn is_closed(program: &Program, desc: &MethodDesc) -> bool
    ensures { result ≡ is_closed program.now desc.now }
{
    desc.generics == 0 && generics_of(program, desc.owner) == 0
}

/// Whether a run may begin with a method on these arguments: it is static and has a body, is of no contract reference assembly, neither it
/// nor its type has type parameters, and it takes the arguments.
pub fn may_begin(program: &Program, args: &[Value], desc: &MethodDesc) -> bool
    ensures { result ≡ may_begin program.now args.now desc.now }
{
    (desc.is_static && desc.body.is_some())
        && ((!is_of_reference(program, desc.owner) && is_closed(program, desc))
            && takes_all(program, desc.params.as_slice(), args))
}

fn is_called(
    program: &Program,
    assembly: u32,
    type_name: &[u8],
    method_name: &[u8],
    desc: &MethodDesc,
) -> bool
    ensures { result ≡ is_called program.now assembly type_name.now method_name.now desc.now }
{
    (desc.assembly == assembly && !desc.outside)
        && (name_of(program, desc.owner) == type_name && desc.name.as_slice() == method_name)
}

/// The place of the first method of an assembly that has this name and whose type has this full name.
pub fn called(
    program: &Program,
    assembly: u32,
    type_name: &[u8],
    method_name: &[u8],
) -> Option<usize>
    ensures place { result ≡ first_where (is_called program.now assembly type_name.now method_name.now) program.now.methods }
{
    let mut count: usize = 0;
    for desc in program.methods.as_slice() {
        if is_called(program, assembly, type_name, method_name, desc) {
            return Some(count);
        }
        count += 1;
    }
    None
}

#[tactic(auto, unfolding(cil_semantics::specs::Lookups::no_method))]
fn begins_at(program: &Program, args: &[Value], place: usize) -> bool
    ensures { result ≡ may_begin program.now args.now (method_of program.now place) }
{
    match program.methods.get(place) {
        Some(desc) => may_begin(program, args, desc),
        None => false,
    }
}

/// The number of the method that a run begins with: the first one of its names, where it may begin with these arguments. Else it is N2, of
/// the table of methods as a whole. A number of 2^32 or more is answered as want of memory.
#[tactic(auto, unfolding(crate::specs::Entries::entry))]
pub fn entry_of(
    program: &Program,
    assembly: u32,
    type_name: &[u8],
    method_name: &[u8],
    args: &[Value],
) -> Result<u32, Fault>
    ensures found { IfOk result (λ m. Some m ≡ entry program.now assembly type_name.now method_name.now args.now) }
    ensures refused { OnRefused result (λ r. (r ≡ no_entry assembly) × (entry program.now assembly type_name.now method_name.now args.now ≡ None)) }
{
    let refusal = Place {
        assembly,
        table: METHOD_DEF,
        row: 0,
    }
    .refusal(Rule::N2, 0);
    let Some(place) = called(program, assembly, type_name, method_name) else {
        return Err(Fault::Refused(refusal));
    };
    if !begins_at(program, args, place) {
        return Err(Fault::Refused(refusal));
    }
    match u32::try_from(place) {
        Ok(method) => Ok(method),
        Err(_) => Err(Fault::Memory(AllocError)),
    }
}
