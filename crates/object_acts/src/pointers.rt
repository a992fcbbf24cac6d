// Places that pointers lead to (ECMA-335, III.3.42, 3.62, 4.4, 4.5, 4.13 and 4.29).

ghost use Rattle.std.specs.Prelude.{◌≡◌, IfOk};
ghost use Rattle.std.specs.Option.{option_copied};
ghost use Rattle.cil_semantics.specs.Acts as acts;
ghost use Rattle.cil_semantics.specs.Places.{default_value, storage, stored, stored_in};
ghost use Rattle.cil_semantics.specs.declared.Local.{Local as LocalOf};
ghost use Rattle.frame_acts.specs.Meant.{meant};

use cil_model::{Meaning, Program, Value};
use cil_semantics::Local;
use frame_acts::{Two, Wanted, pop_two};
use il_opcodes::Storage;
use run_values::{default_of, storage_of, stored_as, stored_by_type};
use std::alloc::{AllocError, Global};

/// `ldind`
pub fn load_indirect(storage: Storage, local: &mut Local) -> Wanted
    ensures { meant result local.new ≡ acts.on_top local.old.stack (λ q rest. acts.on_pointer q (λ r. acts.Act.Load r storage (record local.old { stack = rest }))) }
{
    match local.stack.pop() {
        Some(Value::Ptr(q)) => Wanted::Load(q.into_inner(), storage),
        _ => Wanted::Stuck,
    }
}

fn store_through(q: Value, left: Option<Value>) -> Wanted
    ensures { (l : LocalOf) → meant result l ≡ acts.on_pointer q (λ r. acts.if_some left (λ x. acts.Act.Store r x l)) }
{
    let Value::Ptr(place) = q else {
        return Wanted::Stuck;
    };
    match left {
        None => Wanted::Stuck,
        Some(x) => Wanted::Store(place.into_inner(), x),
    }
}

fn store_as(storage: Storage, two: Two) -> Wanted
    ensures { (l : LocalOf) → meant result l ≡ acts.on_pointer two.x (λ r. acts.if_some (stored storage two.y) (λ x. acts.Act.Store r x l)) }
{
    let Two { x, y } = two;
    store_through(x, stored_as(storage, y))
}

/// `stind`
pub fn store_indirect(storage: Storage, local: &mut Local) -> Wanted
    ensures { meant result local.new ≡ acts.on_two local.old.stack (λ q v rest. acts.on_pointer q (λ r. acts.if_some (stored storage v) (λ x. acts.Act.Store r x (record local.old { stack = rest })))) }
{
    match pop_two(&mut local.stack) {
        None => Wanted::Stuck,
        Some(two) => store_as(storage, two),
    }
}

fn copy_between(storage: Storage, two: Two) -> Wanted
    ensures { (l : LocalOf) → meant result l ≡ acts.on_pointer two.x (λ q. acts.on_pointer two.y (λ r. acts.Act.Copy q r storage l)) }
{
    let Two { x, y } = two;
    let Value::Ptr(to) = x else {
        return Wanted::Stuck;
    };
    let Value::Ptr(from) = y else {
        return Wanted::Stuck;
    };
    Wanted::Copy(to.into_inner(), from.into_inner(), storage)
}

/// `cpobj`
pub fn copy_object(program: &Program, meaning: Option<&Meaning>, local: &mut Local) -> Wanted
    ensures { meant result local.new ≡ acts.on_type (option_copied meaning.entry) (λ t. acts.on_two local.old.stack (λ to from rest. acts.on_pointer to (λ q. acts.on_pointer from (λ r. acts.Act.Copy q r (storage program.now t) (record local.old { stack = rest }))))) }
{
    let Some(Meaning::OfType(ty)) = meaning else {
        return Wanted::Stuck;
    };
    match pop_two(&mut local.stack) {
        None => Wanted::Stuck,
        Some(two) => copy_between(storage_of(program, ty), two),
    }
}

/// `ldobj`
pub fn load_object(program: &Program, meaning: Option<&Meaning>, local: &mut Local) -> Wanted
    ensures { meant result local.new ≡ acts.on_type (option_copied meaning.entry) (λ t. acts.on_top local.old.stack (λ q rest. acts.on_pointer q (λ r. acts.Act.Load r (storage program.now t) (record local.old { stack = rest })))) }
{
    match meaning {
        Some(Meaning::OfType(ty)) => load_indirect(storage_of(program, ty), local),
        _ => Wanted::Stuck,
    }
}

/// `stobj`
pub fn store_object(
    alloc: Global,
    program: &Program,
    meaning: Option<&Meaning>,
    local: &mut Local,
) -> Result<Wanted, AllocError>
    ensures { IfOk result (λ a. meant a local.new ≡ acts.on_type (option_copied meaning.entry) (λ t. acts.on_two local.old.stack (λ q v rest. acts.on_pointer q (λ r. acts.if_some (stored_in program.now t v) (λ x. acts.Act.Store r x (record local.old { stack = rest })))))) }
{
    let Some(Meaning::OfType(ty)) = meaning else {
        return Ok(Wanted::Stuck);
    };
    let Some(two) = pop_two(&mut local.stack) else {
        return Ok(Wanted::Stuck);
    };
    let Two { x, y } = two;
    let left = stored_by_type(alloc, program, ty, y)?;
    Ok(store_through(x, left))
}

/// `initobj`
pub fn initialize_object(
    alloc: Global,
    program: &Program,
    meaning: Option<&Meaning>,
    local: &mut Local,
) -> Result<Wanted, AllocError>
    ensures { IfOk result (λ a. meant a local.new ≡ acts.on_type (option_copied meaning.entry) (λ t. acts.on_top local.old.stack (λ q rest. acts.on_pointer q (λ r. acts.Act.Store r (default_value program.now t) (record local.old { stack = rest }))))) }
{
    let Some(Meaning::OfType(ty)) = meaning else {
        return Ok(Wanted::Stuck);
    };
    match local.stack.pop() {
        Some(Value::Ptr(q)) => {
            let value = default_of(alloc, program, ty)?;
            Ok(Wanted::Store(q.into_inner(), value))
        }
        _ => Ok(Wanted::Stuck),
    }
}
