//! Calls of every kind, delegates and new objects, in the run of an input with its contracts and in the
//! plain run of the written program.
#![tactic(auto)]

ghost use Rattle.std.specs.Prelude.{List};
ghost use Rattle.cil_model.specs.declared.contract.Contracts.{Contracts};
ghost use Rattle.cil_model.specs.declared.program.MethodDesc.{MethodDesc};
ghost use Rattle.cil_model.specs.declared.program.Program.{Program};
ghost use Rattle.cil_semantics.specs.Checks.{AddedNumbers};
ghost use Rattle.splice_facts.specs.Bodies.{SameMethods};
ghost use Rattle.splice_facts.specs.Related.{Rewritten};
ghost use Rattle.simulation_objects.specs.Calls.{FindsAlike, CallsAlike, VirtualCallsAlike, FunctionsAlike, NewObjectsAlike, CallStepsAnswered};

/// Programs that differ in their bodies find the same body for a virtual call. Over a written program a
/// call of the member that a token names does the same in both runs, as do virtual and constrained
/// calls, ldvirtftn and newobj; so a step at a copied one of these is answered by the plain run's.
pub fn calls_go_alike()
    ensures looking { (p : Program) (ms : List MethodDesc) → SameMethods p ms → FindsAlike p ms }
    ensures calling { (p : Program) (k : Contracts) (ms : List MethodDesc) (g : AddedNumbers) (r : Rewritten p k ms g) → CallsAlike p k ms g r }
    ensures virtual_calls { (p : Program) (k : Contracts) (ms : List MethodDesc) (g : AddedNumbers) (r : Rewritten p k ms g) → VirtualCallsAlike p k ms g r }
    ensures functions { (p : Program) (k : Contracts) (ms : List MethodDesc) (g : AddedNumbers) (r : Rewritten p k ms g) → FunctionsAlike p k ms g r }
    ensures making { (p : Program) (k : Contracts) (ms : List MethodDesc) (g : AddedNumbers) (r : Rewritten p k ms g) → NewObjectsAlike p k ms g r }
    ensures stepping { (p : Program) (k : Contracts) (ms : List MethodDesc) (g : AddedNumbers) (r : Rewritten p k ms g) → CallStepsAnswered p k ms g r }
{}
