// How far the initializer of a closed type has come (ECMA-335, II.10.5.3).

ghost use Rattle.std.specs.Prelude.{◌≡◌, ◌&&◌, find, not, option_and_then};
ghost use Rattle.cil_semantics.specs.Dispatch.{methods_of};
ghost use Rattle.cil_semantics.specs.Frames.{initializer, is_initializer};
ghost use Rattle.cil_semantics.specs.Lookups.{method_of, type_of};
ghost use Rattle.cil_semantics.specs.Unwind.{find_statics};
ghost use Rattle.cil_semantics.specs.declared.Statics.{Statics as StaticsOf};
ghost use Rattle.run_statics.specs.Told.{told};

use cil_model::{Program, Ty};
use cil_semantics::{Init, World};
use look_ups::definition_of;
use run_places::statics_of;

/// What a use of a closed type finds: its initializer is done or begun, has failed with an object, or is to run.
#[derive(Clone, Copy)]
pub enum Initializer {
    Ready,
    FailedWith(u32),
    ToRun(u32),
}

#[tactic(auto, unfolding(cil_semantics::specs::Lookups::no_method))]
fn is_initializer(program: &Program, method: u32) -> bool
    ensures { result ≡ is_initializer (method_of program.now method) }
{
    match program.methods.get(method as usize) {
        Some(desc) => {
            desc.name.as_slice() == b".cctor".as_slice() && (desc.is_static && desc.body.is_some())
        }
        None => false,
    }
}

#[tactic(auto, unfolding(cil_semantics::specs::Lookups::no_method))]
fn owner_of(program: &Program, method: u32) -> u32
    ensures { result ≡ (method_of program.now method).owner }
{
    match program.methods.get(method as usize) {
        Some(desc) => desc.owner,
        None => 0,
    }
}

#[tactic(auto, unfolding(cil_semantics::specs::Lookups::contract_exception))]
fn is_of_reference(program: &Program, k: u32) -> bool
    ensures { result ≡ (type_of program.now k).reference }
{
    match program.types.get(k as usize) {
        Some(desc) => desc.reference,
        None => false,
    }
}

#[tactic(auto, unfolding(cil_semantics::specs::Lookups::contract_exception))]
fn methods_in_set(program: &Program, k: u32) -> &[u32]
    ensures { result.now ≡ (type_of program.now k).methods }
{
    match program.types.get(k as usize) {
        Some(desc) => desc.methods.as_slice(),
        None => &[],
    }
}

fn methods_of<'a>(program: &'a Program, ty: &Ty) -> &'a [u32]
    ensures { result.now ≡ methods_of program.now ty.now }
{
    match definition_of(ty) {
        Some(k) => methods_in_set(program, k),
        None => &[],
    }
}

fn initializer_among(program: &Program, methods: &[u32]) -> Option<u32>
    ensures { result ≡ find (λ m. is_initializer (method_of program.now m) && not (type_of program.now (method_of program.now m).owner).reference) methods.now }
{
    for method in methods {
        if is_initializer(program, *method)
            && !is_of_reference(program, owner_of(program, *method))
        {
            return Some(*method);
        }
    }
    None
}

fn told_of(world: &World, ty: &Ty) -> Option<Init>
    ensures { result ≡ option_and_then (λ (s : StaticsOf). s.init) (find_statics ty.now world.now.statics) }
{
    match statics_of(world, ty) {
        Some(statics) => statics.init,
        None => None,
    }
}

/// How far the initializer of a closed type has come. A type that has none, or one in a contract reference assembly alone, is ready.
#[tactic(auto, unfolding(cil_semantics::specs::Frames::initializer))]
pub fn initializer_of(program: &Program, world: &World, ty: &Ty) -> Initializer
    ensures { told result ≡ initializer program.now world.now ty.now }
{
    match told_of(world, ty) {
        Some(Init::Begun) => Initializer::Ready,
        Some(Init::Failed(object)) => Initializer::FailedWith(object),
        None => match initializer_among(program, methods_of(program, ty)) {
            None => Initializer::Ready,
            Some(method) => Initializer::ToRun(method),
        },
    }
}
