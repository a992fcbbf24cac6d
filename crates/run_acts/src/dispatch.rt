// The act of an instruction, by its class (ECMA-335, Partition III).

ghost use Rattle.std.specs.Prelude.{◌≡◌, IsTrue, IfOk};
ghost use Rattle.std.specs.Option.{option_copied};
ghost use Rattle.cil_model.specs.declared.body.Instr.{Instr as InstrOf};
ghost use Rattle.cil_model.specs.declared.program.Program.{Program as ProgramOf};
ghost use Rattle.cil_semantics.specs.Instructions.{act_of_class};
ghost use Rattle.cil_semantics.specs.Tokens.{Here, constrained_here, meaning_here};
ghost use Rattle.cil_semantics.specs.declared.World.{World as WorldOf};
ghost use Rattle.frame_acts.specs.Meant.{meant};
ghost use Rattle.run_acts.specs.Groups.{is_on_frame, is_on_methods, is_on_numbers, is_on_places, is_on_types};

use call_acts::{
    call_member, call_virtual, load_function, load_size, load_token, load_virtual_function,
    new_object,
};
use cast_acts::{cast_class, is_instance, unbox, unbox_any};
use cil_model::{Instr, Meaning, Program, Ty};
use cil_semantics::{Local, World};
use field_acts::{load_field, point_to_field, store_field};
use frame_acts::{
    Wanted, branch, branch_where, compare, compare_and_branch, compute, compute_shift,
    compute_unary, convert_top, convert_top_checked, duplicate, leave, load_argument, load_int,
    load_local, load_long, load_null, load_text, point_to_argument, point_to_local, pop,
    store_argument, store_local, switch, throw,
};
use il_opcodes::Class;
use item_acts::{
    load_element, load_typed_element, point_to_item, store_element, store_typed_element,
};
use object_acts::{
    copy_object, initialize_object, load_indirect, load_length, load_object, load_static,
    make_boxed, new_array, point_to_static, store_indirect, store_object, store_static,
};
use std::alloc::{AllocError, Global};

/// Where an instruction runs: the frame's number, its method, what the instruction's token means
/// there, and the type that `constrained.` names.
pub struct Site<'a> {
    pub number: u64,
    pub method: u32,
    pub meaning: Option<&'a Meaning>,
    pub constrained: Option<&'a Ty>,
}

/// Instructions on constants, arguments, locals and the stack.
#[tactic(auto, unfolding(cil_semantics::specs::Instructions::act_of_class))]
fn on_frame(
    alloc: Global,
    program: &Program,
    class: Class,
    instr: &Instr,
    site: &Site,
    local: &mut Local,
) -> Result<Wanted, AllocError>
    requires { IsTrue (is_on_frame class) }
    ensures { (here : Here) (w : WorldOf) → here.number ≡ site.now.number → here.method ≡ site.now.method → option_copied site.now.meaning ≡ meaning_here program.now here instr.now → IfOk result (λ a. meant a local.new ≡ act_of_class program.now here instr.now w local.old class) }
{
    match class {
        Class::Nop => Ok(Wanted::GoOn),
        Class::LoadArgument => {
            let answer = load_argument(alloc, &instr.operand, local)?;
            Ok(answer)
        }
        Class::StoreArgument => {
            let answer = store_argument(alloc, program, &instr.operand, local)?;
            Ok(answer)
        }
        Class::ArgumentAddress => {
            let answer = point_to_argument(alloc, site.number, site.method, &instr.operand, local)?;
            Ok(answer)
        }
        Class::LoadLocal => {
            let answer = load_local(alloc, &instr.operand, local)?;
            Ok(answer)
        }
        Class::StoreLocal => {
            let answer = store_local(alloc, program, &instr.operand, local)?;
            Ok(answer)
        }
        Class::LocalAddress => {
            let answer = point_to_local(alloc, site.number, site.method, &instr.operand, local)?;
            Ok(answer)
        }
        Class::LoadNull => {
            let answer = load_null(local)?;
            Ok(answer)
        }
        Class::LoadInt => {
            let answer = load_int(&instr.operand, local)?;
            Ok(answer)
        }
        Class::LoadLong => {
            let answer = load_long(&instr.operand, local)?;
            Ok(answer)
        }
        Class::LoadString => {
            let answer = load_text(alloc, site.meaning, local)?;
            Ok(answer)
        }
        Class::Duplicate => {
            let answer = duplicate(alloc, local)?;
            Ok(answer)
        }
        Class::Pop => Ok(pop(local)),
        _ => Ok(Wanted::Stuck),
    }
}

/// Instructions on numbers, comparisons and branches.
#[tactic(auto, unfolding(cil_semantics::specs::Instructions::act_of_class))]
fn on_numbers(class: Class, instr: &Instr, local: &mut Local) -> Result<Wanted, AllocError>
    requires { IsTrue (is_on_numbers class) }
    ensures { (p : ProgramOf) (here : Here) (w : WorldOf) → IfOk result (λ a. meant a local.new ≡ act_of_class p here instr.now w local.old class) }
{
    match class {
        Class::Binary(op) => {
            let answer = compute(op, local)?;
            Ok(answer)
        }
        Class::Shift(op) => {
            let answer = compute_shift(op, local)?;
            Ok(answer)
        }
        Class::Unary(op) => {
            let answer = compute_unary(op, local)?;
            Ok(answer)
        }
        Class::Convert(kind) => {
            let answer = convert_top(kind, local)?;
            Ok(answer)
        }
        Class::ConvertChecked(unsigned, kind) => {
            let answer = convert_top_checked(unsigned, kind, local)?;
            Ok(answer)
        }
        Class::Compare(test) => {
            let answer = compare(test, local)?;
            Ok(answer)
        }
        Class::Jump => Ok(branch(&instr.operand, true)),
        Class::Switch => Ok(switch(&instr.operand, local)),
        Class::Branch(wanted) => Ok(branch_where(&instr.operand, wanted, local)),
        Class::CompareBranch(test, wanted) => Ok(compare_and_branch(
            &instr.operand,
            test,
            wanted,
            local,
        )),
        _ => Ok(Wanted::Stuck),
    }
}

/// Instructions on a type that the token names.
#[tactic(auto, unfolding(cil_semantics::specs::Instructions::act_of_class))]
fn on_types(
    alloc: Global,
    program: &Program,
    class: Class,
    meaning: Option<&Meaning>,
    world: &World,
    local: &mut Local,
) -> Result<Wanted, AllocError>
    requires { IsTrue (is_on_types class) }
    ensures { (here : Here) (i : InstrOf) → option_copied meaning.entry ≡ meaning_here program.now here i → IfOk result (λ a. meant a local.new ≡ act_of_class program.now here i world.now local.old class) }
{
    match class {
        Class::SizeOf => {
            let answer = load_size(meaning, local)?;
            Ok(answer)
        }
        Class::CopyObject => Ok(copy_object(program, meaning, local)),
        Class::LoadObject => Ok(load_object(program, meaning, local)),
        Class::StoreObject => {
            let answer = store_object(alloc, program, meaning, local)?;
            Ok(answer)
        }
        Class::InitObject => {
            let answer = initialize_object(alloc, program, meaning, local)?;
            Ok(answer)
        }
        Class::CastClass => {
            let answer = cast_class(alloc, program, meaning, world, local)?;
            Ok(answer)
        }
        Class::IsInstance => {
            let answer = is_instance(alloc, program, meaning, world, local)?;
            Ok(answer)
        }
        Class::Unbox => {
            let answer = unbox(alloc, program, meaning, world, local)?;
            Ok(answer)
        }
        Class::Box => {
            let answer = make_boxed(alloc, program, meaning, world, local)?;
            Ok(answer)
        }
        Class::UnboxAny => {
            let answer = unbox_any(alloc, program, meaning, world, local)?;
            Ok(answer)
        }
        Class::NewArray => {
            let answer = new_array(alloc, program, meaning, world, local)?;
            Ok(answer)
        }
        Class::LoadTypedElement => {
            let answer = load_typed_element(alloc, program, meaning, world, local)?;
            Ok(answer)
        }
        Class::StoreTypedElement => {
            let answer = store_typed_element(alloc, program, meaning, world, local)?;
            Ok(answer)
        }
        _ => Ok(Wanted::Stuck),
    }
}

/// Instructions on places of objects, and on statics.
#[tactic(auto, unfolding(cil_semantics::specs::Instructions::act_of_class))]
fn on_places(
    alloc: Global,
    program: &Program,
    class: Class,
    meaning: Option<&Meaning>,
    world: &World,
    local: &mut Local,
) -> Result<Wanted, AllocError>
    requires { IsTrue (is_on_places class) }
    ensures { (here : Here) (i : InstrOf) → option_copied meaning.entry ≡ meaning_here program.now here i → IfOk result (λ a. meant a local.new ≡ act_of_class program.now here i world.now local.old class) }
{
    match class {
        Class::LoadIndirect(storage) => Ok(load_indirect(storage, local)),
        Class::StoreIndirect(storage) => Ok(store_indirect(storage, local)),
        Class::LoadField => {
            let answer = load_field(alloc, program, meaning, world, local)?;
            Ok(answer)
        }
        Class::FieldAddress => {
            let answer = point_to_field(alloc, program, meaning, world, local)?;
            Ok(answer)
        }
        Class::StoreField => {
            let answer = store_field(alloc, program, meaning, world, local)?;
            Ok(answer)
        }
        Class::LoadStatic => {
            let answer = load_static(alloc, program, meaning)?;
            Ok(answer)
        }
        Class::StaticAddress => {
            let answer = point_to_static(alloc, program, meaning)?;
            Ok(answer)
        }
        Class::StoreStatic => {
            let answer = store_static(alloc, program, meaning, local)?;
            Ok(answer)
        }
        Class::ArrayLength => {
            let answer = load_length(world, local)?;
            Ok(answer)
        }
        Class::ElementAddress => {
            let answer = point_to_item(alloc, world, local)?;
            Ok(answer)
        }
        Class::LoadElement(storage) => {
            let answer = load_element(alloc, storage, world, local)?;
            Ok(answer)
        }
        Class::StoreElement(storage) => {
            let answer = store_element(alloc, program, storage, world, local)?;
            Ok(answer)
        }
        _ => Ok(Wanted::Stuck),
    }
}

/// Instructions on names and methods, calls and ways out.
#[tactic(auto, unfolding(cil_semantics::specs::Instructions::act_of_class))]
fn on_methods(
    alloc: Global,
    program: &Program,
    class: Class,
    instr: &Instr,
    site: &Site,
    local: &mut Local,
) -> Result<Wanted, AllocError>
    requires { IsTrue (is_on_methods class) }
    ensures { (here : Here) (w : WorldOf) → option_copied site.now.meaning ≡ meaning_here program.now here instr.now → constrained_here program.now here instr.now ≡ option_copied site.now.constrained → IfOk result (λ a. meant a local.new ≡ act_of_class program.now here instr.now w local.old class) }
{
    match class {
        Class::LoadToken => {
            let answer = load_token(alloc, program, site.meaning, local)?;
            Ok(answer)
        }
        Class::LoadFunction => {
            let answer = load_function(alloc, site.meaning, local)?;
            Ok(answer)
        }
        Class::LoadVirtualFunction => {
            let answer = load_virtual_function(alloc, site.meaning, site.constrained, local)?;
            Ok(answer)
        }
        Class::Throw => Ok(throw(local)),
        Class::Rethrow => Ok(Wanted::Rethrow),
        Class::EndFinally => Ok(Wanted::EndHandler),
        Class::Leave => Ok(leave(&instr.operand)),
        Class::Call => {
            let answer = call_member(alloc, program, site.meaning, site.constrained, local)?;
            Ok(answer)
        }
        Class::CallVirtual => {
            let answer = call_virtual(alloc, program, site.meaning, site.constrained, local)?;
            Ok(answer)
        }
        Class::NewObject => {
            let answer = new_object(alloc, program, site.meaning, site.constrained, local)?;
            Ok(answer)
        }
        Class::Return => Ok(Wanted::Return),
        _ => Ok(Wanted::Stuck),
    }
}

fn is_on_frame(class: Class) -> bool
    ensures { result ≡ is_on_frame class }
{
    matches!(
        class,
        Class::Nop
            | Class::LoadArgument
            | Class::StoreArgument
            | Class::ArgumentAddress
            | Class::LoadLocal
            | Class::StoreLocal
            | Class::LocalAddress
            | Class::LoadNull
            | Class::LoadInt
            | Class::LoadLong
            | Class::LoadString
            | Class::Duplicate
            | Class::Pop
    )
}

fn is_on_numbers(class: Class) -> bool
    ensures { result ≡ is_on_numbers class }
{
    matches!(
        class,
        Class::Binary(_)
            | Class::Shift(_)
            | Class::Unary(_)
            | Class::Convert(_)
            | Class::ConvertChecked(_, _)
            | Class::Compare(_)
            | Class::Jump
            | Class::Switch
            | Class::Branch(_)
            | Class::CompareBranch(_, _)
    )
}

fn is_on_types(class: Class) -> bool
    ensures { result ≡ is_on_types class }
{
    matches!(
        class,
        Class::SizeOf
            | Class::CopyObject
            | Class::LoadObject
            | Class::StoreObject
            | Class::InitObject
            | Class::CastClass
            | Class::IsInstance
            | Class::Unbox
            | Class::Box
            | Class::UnboxAny
            | Class::NewArray
            | Class::LoadTypedElement
            | Class::StoreTypedElement
    )
}

fn is_on_places(class: Class) -> bool
    ensures { result ≡ is_on_places class }
{
    matches!(
        class,
        Class::LoadIndirect(_)
            | Class::StoreIndirect(_)
            | Class::LoadField
            | Class::FieldAddress
            | Class::StoreField
            | Class::LoadStatic
            | Class::StaticAddress
            | Class::StoreStatic
            | Class::ArrayLength
            | Class::ElementAddress
            | Class::LoadElement(_)
            | Class::StoreElement(_)
    )
}

/// What an instruction of a class wants done.
#[tactic(auto, using(crate::proofs::GroupLaws::left_over))]
pub fn act(
    alloc: Global,
    program: &Program,
    class: Class,
    instr: &Instr,
    site: &Site,
    world: &World,
    local: &mut Local,
) -> Result<Wanted, AllocError>
    ensures { (here : Here) → here.number ≡ site.now.number → here.method ≡ site.now.method → option_copied site.now.meaning ≡ meaning_here program.now here instr.now → constrained_here program.now here instr.now ≡ option_copied site.now.constrained → IfOk result (λ a. meant a local.new ≡ act_of_class program.now here instr.now world.now local.old class) }
{
    if is_on_frame(class) {
        let answer = on_frame(alloc, program, class, instr, site, local)?;
        return Ok(answer);
    }
    if is_on_numbers(class) {
        let answer = on_numbers(class, instr, local)?;
        return Ok(answer);
    }
    if is_on_types(class) {
        let answer = on_types(alloc, program, class, site.meaning, world, local)?;
        return Ok(answer);
    }
    if is_on_places(class) {
        let answer = on_places(alloc, program, class, site.meaning, world, local)?;
        return Ok(answer);
    }
    let answer = on_methods(alloc, program, class, instr, site, local)?;
    Ok(answer)
}
