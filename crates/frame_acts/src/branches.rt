// Branches (ECMA-335, III.3.15, 3.17, 3.18, 3.37, 3.46 and 3.66).

ghost use Rattle.std.specs.Prelude.{◌≡◌};
ghost use Rattle.cil_semantics.specs.Acts as acts;
ghost use Rattle.cil_semantics.specs.Instructions.{leave_to, throw_value};
ghost use Rattle.cil_semantics.specs.declared.Local.{Local as LocalOf};
ghost use Rattle.cil_model.specs.declared.value.Value.{out-Value};
ghost use Rattle.frame_acts.specs.Meant.{meant};

use crate::stack::{Two, pop_two};
use crate::wanted::Wanted;
use cil_model::{Operand, Value};
use cil_semantics::{Local, Numeric};
use il_opcodes::Comparison;
use run_numbers::{Exception, compare_values, number_in, truth_of};

/// Jumps to the target, or goes on.
pub fn branch(operand: &Operand, jumps: bool) -> Wanted
    ensures { (l : LocalOf) → meant result l ≡ acts.branch operand.now jumps l }
{
    let Operand::Target(t) = operand else {
        return Wanted::Stuck;
    };
    if jumps {
        Wanted::Jump(*t)
    } else {
        Wanted::GoOn
    }
}

fn is_wanted(wanted: bool, b: bool) -> bool
    ensures { result ≡ acts.is_wanted wanted b }
{
    if wanted { b } else { !b }
}

fn branch_if(operand: &Operand, wanted: bool, test: Option<bool>) -> Wanted
    ensures { (l : LocalOf) → meant result l ≡ acts.if_some test (λ b. acts.branch operand.now (acts.is_wanted wanted b) l) }
{
    match test {
        None => Wanted::Stuck,
        Some(b) => branch(operand, is_wanted(wanted, b)),
    }
}

/// `brtrue` and `brfalse`.
pub fn branch_where(operand: &Operand, wanted: bool, local: &mut Local) -> Wanted
    ensures { meant result local.new ≡ acts.on_top local.old.stack (λ v rest. acts.if_some (acts.truth v) (λ b. acts.branch operand.now (acts.is_wanted wanted b) (record local.old { stack = rest }))) }
{
    match local.stack.pop() {
        None => Wanted::Stuck,
        Some(v) => branch_if(operand, wanted, truth_of(&v)),
    }
}

/// `beq` and its like.
pub fn compare_and_branch(
    operand: &Operand,
    test: Comparison,
    wanted: bool,
    local: &mut Local,
) -> Wanted
    ensures { meant result local.new ≡ acts.on_two local.old.stack (λ x y rest. acts.if_some (acts.compare test x y) (λ b. acts.branch operand.now (acts.is_wanted wanted b) (record local.old { stack = rest }))) }
{
    match pop_two(&mut local.stack) {
        None => Wanted::Stuck,
        Some(two) => branch_if(operand, wanted, compare_values(test, &two.x, &two.y)),
    }
}

fn jump_by(operand: &Operand, number: Numeric) -> Wanted
    ensures { (l : LocalOf) → meant result l ≡ acts.switch operand.now number l }
{
    let Operand::Targets(targets) = operand else {
        return Wanted::Stuck;
    };
    let Numeric::Int4(z) = number else {
        return Wanted::Stuck;
    };
    match targets.get(z.cast_unsigned() as usize) {
        None => Wanted::GoOn,
        Some(t) => Wanted::Jump(*t),
    }
}

/// `switch`
pub fn switch(operand: &Operand, local: &mut Local) -> Wanted
    ensures { meant result local.new ≡ acts.on_top local.old.stack (λ v rest. acts.switch operand.now (acts.numeric v) (record local.old { stack = rest })) }
{
    match local.stack.pop() {
        None => Wanted::Stuck,
        Some(v) => jump_by(operand, number_in(&v)),
    }
}

fn throw_of(v: &Value) -> Wanted
    ensures { (l : LocalOf) → meant result l ≡ throw_value (out-Value v.now) }
{
    match v {
        Value::Null => Wanted::Raise(Exception::NullReference),
        Value::Obj(k) => Wanted::Throw(*k),
        _ => Wanted::Stuck,
    }
}

/// `throw`
pub fn throw(local: &mut Local) -> Wanted
    ensures { meant result local.new ≡ acts.on_top local.old.stack (λ v rest. throw_value (out-Value v)) }
{
    match local.stack.pop() {
        None => Wanted::Stuck,
        Some(v) => throw_of(&v),
    }
}

/// `leave`
pub fn leave(operand: &Operand) -> Wanted
    ensures { (l : LocalOf) → meant result l ≡ leave_to operand.now }
{
    match operand {
        Operand::Target(t) => Wanted::Leave(*t),
        _ => Wanted::Stuck,
    }
}
