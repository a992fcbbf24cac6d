// Calls (ECMA-335, III.3.19, 4.2, 4.18 and 4.21).

ghost use Rattle.std.specs.Prelude.{◌≡◌, IfOk};
ghost use Rattle.std.specs.Option.{option_copied};
ghost use Rattle.cil_model.specs.declared.body.Instr.{Instr};
ghost use Rattle.cil_model.specs.declared.program.Program.{Program as ProgramOf};
ghost use Rattle.cil_semantics.specs.Acts as acts;
ghost use Rattle.cil_semantics.specs.Acts.{Act, Call as CallOf};
ghost use Rattle.cil_semantics.specs.Lookups.{method_of};
ghost use Rattle.cil_semantics.specs.Tokens.{Here, constrained_here};
ghost use Rattle.cil_semantics.specs.declared.Local.{Local as LocalOf};
ghost use Rattle.frame_acts.specs.Meant.{call_of, meant};

use crate::names::copied_tys;
use cil_model::{Meaning, Program, Ty, Tys, Values};
use cil_semantics::Local;
use frame_acts::{Call, Wanted};
use std::alloc::{AllocError, Global};

/// How many values a call of a method takes besides `this`.
#[tactic(auto, unfolding(cil_semantics::specs::Lookups::no_method))]
fn arity(program: &Program, method: u32) -> usize
    ensures { result ≡ acts.arity program.now method }
{
    match program.methods.get(method as usize) {
        Some(desc) => desc.params.len(),
        None => 0,
    }
}

#[tactic(auto, unfolding(cil_semantics::specs::Lookups::no_method))]
fn is_static(program: &Program, method: u32) -> bool
    ensures { result ≡ (method_of program.now method).is_static }
{
    match program.methods.get(method as usize) {
        Some(desc) => desc.is_static,
        None => true,
    }
}

/// `this` and the arguments.
fn with_this(program: &Program, method: u32) -> Result<usize, AllocError>
    ensures { IfOk result (λ count. count ≡ acts.with_this program.now method) }
{
    let count = arity(program, method);
    if is_static(program, method) {
        return Ok(count);
    }
    match count.checked_add(1) {
        Some(all) => Ok(all),
        None => Err(AllocError),
    }
}

fn copied_constrained(alloc: Global, ty: Option<&Ty>) -> Result<Option<Ty>, AllocError>
    ensures { IfOk result (λ copy. copy ≡ option_copied ty.entry) }
{
    match ty {
        None => Ok(None),
        Some(ty) => Ok(Some(ty.copied(alloc)?)),
    }
}

fn make_call(
    alloc: Global,
    owner: &Ty,
    method: u32,
    args: &Tys,
    values: Values,
    constrained: Option<&Ty>,
) -> Result<Call, AllocError>
    ensures { IfOk result (λ c. call_of c ≡ record { owner = owner.now; method = method; method_args = args.now; values = values; constrained = option_copied constrained.entry }) }
{
    let owner = owner.copied(alloc)?;
    let method_args = copied_tys(alloc, args.as_slice())?;
    let constrained = copied_constrained(alloc, constrained)?;
    Ok(Call {
        owner,
        method,
        method_args,
        values,
        constrained,
    })
}

/// Takes the values of a call from the stack; `None` where there are too few, or the token names no method.
fn take(
    alloc: Global,
    meaning: Option<&Meaning>,
    constrained: Option<&Ty>,
    count: usize,
    local: &mut Local,
) -> Result<Option<Call>, AllocError>
    ensures { (p : ProgramOf) (i : Instr) (here : Here) → constrained_here p here i ≡ option_copied constrained.entry → (go : CallOf → LocalOf → Act) → IfOk result (λ call. acts.if_some call (λ c. go (call_of c) local.new) ≡ acts.taken p i here count (option_copied meaning.entry) local.old go) }
{
    let Some(
        Meaning::OfMethod {
            owner,
            method,
            args,
        },
    ) = meaning
    else {
        return Ok(None);
    };
    if count <= local.stack.len() {
        let values = Values::from_vec(local.stack.split_top(count)?);
        let call = make_call(alloc, owner, *method, args, values, constrained)?;
        Ok(Some(call))
    } else {
        Ok(None)
    }
}

fn method_in(meaning: Option<&Meaning>) -> u32
    ensures { result ≡ acts.method_in (option_copied meaning.entry) }
{
    match meaning {
        Some(Meaning::OfMethod { method, .. }) => *method,
        _ => 0,
    }
}

/// `call`
pub fn call_member(
    alloc: Global,
    program: &Program,
    meaning: Option<&Meaning>,
    constrained: Option<&Ty>,
    local: &mut Local,
) -> Result<Wanted, AllocError>
    ensures { (i : Instr) (here : Here) → constrained_here program.now here i ≡ option_copied constrained.entry → IfOk result (λ a. meant a local.new ≡ acts.taken program.now i here (acts.with_this program.now (acts.method_in (option_copied meaning.entry))) (option_copied meaning.entry) local.old Act.CallMember) }
{
    let count = with_this(program, method_in(meaning))?;
    match take(alloc, meaning, constrained, count, local)? {
        None => Ok(Wanted::Stuck),
        Some(call) => Ok(Wanted::CallMember(call)),
    }
}

/// `callvirt`
pub fn call_virtual(
    alloc: Global,
    program: &Program,
    meaning: Option<&Meaning>,
    constrained: Option<&Ty>,
    local: &mut Local,
) -> Result<Wanted, AllocError>
    ensures { (i : Instr) (here : Here) → constrained_here program.now here i ≡ option_copied constrained.entry → IfOk result (λ a. meant a local.new ≡ acts.taken program.now i here (acts.with_this program.now (acts.method_in (option_copied meaning.entry))) (option_copied meaning.entry) local.old Act.CallVirtual) }
{
    let count = with_this(program, method_in(meaning))?;
    match take(alloc, meaning, constrained, count, local)? {
        None => Ok(Wanted::Stuck),
        Some(call) => Ok(Wanted::CallVirtual(call)),
    }
}

/// `newobj`
pub fn new_object(
    alloc: Global,
    program: &Program,
    meaning: Option<&Meaning>,
    constrained: Option<&Ty>,
    local: &mut Local,
) -> Result<Wanted, AllocError>
    ensures { (i : Instr) (here : Here) → constrained_here program.now here i ≡ option_copied constrained.entry → IfOk result (λ a. meant a local.new ≡ acts.taken program.now i here (acts.arity program.now (acts.method_in (option_copied meaning.entry))) (option_copied meaning.entry) local.old Act.NewObject) }
{
    let count = arity(program, method_in(meaning));
    match take(alloc, meaning, constrained, count, local)? {
        None => Ok(Wanted::Stuck),
        Some(call) => Ok(Wanted::NewObject(call)),
    }
}

/// `ldvirtftn`
pub fn load_virtual_function(
    alloc: Global,
    meaning: Option<&Meaning>,
    constrained: Option<&Ty>,
    local: &mut Local,
) -> Result<Wanted, AllocError>
    ensures { (p : ProgramOf) (i : Instr) (here : Here) → constrained_here p here i ≡ option_copied constrained.entry → IfOk result (λ a. meant a local.new ≡ acts.taken p i here 1 (option_copied meaning.entry) local.old Act.LoadVirtualFunction) }
{
    let count = 1;
    match take(alloc, meaning, constrained, count, local)? {
        None => Ok(Wanted::Stuck),
        Some(call) => Ok(Wanted::LoadVirtualFunction(call)),
    }
}
