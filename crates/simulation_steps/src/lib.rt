//! Steps at instructions that are copied, methods that are entered, and values that are returned, in
//! the run of an input with its contracts and in the plain run of the written program.
#![tactic(auto)]

ghost use Rattle.std.specs.Prelude.{List};
ghost use Rattle.cil_model.specs.declared.contract.Contracts.{Contracts};
ghost use Rattle.cil_model.specs.declared.program.MethodDesc.{MethodDesc};
ghost use Rattle.cil_model.specs.declared.program.Program.{Program};
ghost use Rattle.cil_semantics.specs.Checks.{AddedNumbers};
ghost use Rattle.splice_facts.specs.Related.{Rewritten, Enters_alike, Plain_steps_answered};
ghost use Rattle.simulation_steps.specs.Outside.{AsksAlike};
ghost use Rattle.simulation_steps.specs.Steps.{ReadsAlike, WritesAlike, ReturnsAlike, DelegatesAlike};

/// Over a written program pointers are read and written alike, with frames and worlds that stay alike.
pub fn pointers_lead_alike()
    ensures reading { (p : Program) (k : Contracts) (ms : List MethodDesc) (g : AddedNumbers) (r : Rewritten p k ms g) → ReadsAlike p k ms g r }
    ensures writing { (p : Program) (k : Contracts) (ms : List MethodDesc) (g : AddedNumbers) (r : Rewritten p k ms g) → WritesAlike p k ms g r }
{}

/// A step at a copied instruction that calls nothing is answered by the plain run; methods are entered
/// alike, behind their type's initializer, and what they return goes down alike. A call outside takes
/// the same reply, records the same, and stores back what it gives by reference.
pub fn steps_go_alike()
    ensures stepping { (p : Program) (k : Contracts) (ms : List MethodDesc) (g : AddedNumbers) (r : Rewritten p k ms g) → Plain_steps_answered p k ms g r }
    ensures entering { (p : Program) (k : Contracts) (ms : List MethodDesc) (g : AddedNumbers) (r : Rewritten p k ms g) → Enters_alike p k ms g r }
    ensures returning { (p : Program) (k : Contracts) (ms : List MethodDesc) (g : AddedNumbers) (r : Rewritten p k ms g) → ReturnsAlike p k ms g r }
    ensures asking { (p : Program) (k : Contracts) (ms : List MethodDesc) (g : AddedNumbers) (r : Rewritten p k ms g) → AsksAlike p k ms g r }
    ensures delegates { (p : Program) (k : Contracts) (ms : List MethodDesc) (g : AddedNumbers) (r : Rewritten p k ms g) → DelegatesAlike p k ms g r }
{}
