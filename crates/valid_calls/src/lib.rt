//! Calls of members and new objects in the run of an input with its contracts: what they come to is valid.
#![tactic(auto)]

ghost use Rattle.std.specs.Prelude.{List};
ghost use Rattle.cil_model.specs.declared.contract.Contracts.{Contracts};
ghost use Rattle.cil_model.specs.declared.program.MethodDesc.{MethodDesc};
ghost use Rattle.cil_model.specs.declared.program.Program.{Program};
ghost use Rattle.cil_semantics.specs.Checks.{AddedNumbers};
ghost use Rattle.splice_facts.specs.Related.{Rewritten};
ghost use Rattle.valid_calls.specs.Steps.{StepsStayValid};
ghost use Rattle.valid_calls.specs.Members.{MembersValid, NewObjectsValid, CallStepsValid, NewStepsValid, ExceptionsValid};

/// A call of a member, whether core, outside or with a body, and newobj lead to valid states, and so do
/// steps at `call` and `newobj`, and the exception of a failed Requires<E>, which is made and thrown.
pub fn calls_keep_valid()
    ensures members { (p : Program) (k : Contracts) (ms : List MethodDesc) (g : AddedNumbers) (r : Rewritten p k ms g) → MembersValid p k ms g r }
    ensures objects { (p : Program) (k : Contracts) (ms : List MethodDesc) (g : AddedNumbers) (r : Rewritten p k ms g) → NewObjectsValid p k ms g r }
    ensures calling { (p : Program) (k : Contracts) (ms : List MethodDesc) (g : AddedNumbers) (r : Rewritten p k ms g) → CallStepsValid p k ms g r }
    ensures making { (p : Program) (k : Contracts) (ms : List MethodDesc) (g : AddedNumbers) (r : Rewritten p k ms g) → NewStepsValid p k ms g r }
    ensures exceptions { (p : Program) (k : Contracts) (ms : List MethodDesc) (g : AddedNumbers) (r : Rewritten p k ms g) → ExceptionsValid p k ms g r }
{}

/// Each step of the run of an input with its contracts comes to a valid state, or ends: whatever
/// instruction or contract call stands where the topmost frame does.
pub fn each_step_stays_valid()
    ensures { (p : Program) (k : Contracts) (ms : List MethodDesc) (g : AddedNumbers) (r : Rewritten p k ms g) → StepsStayValid p k ms g r }
{}
