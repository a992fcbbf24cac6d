//! A written program, run plainly, does what its input does with its contracts.
#![tactic(auto)]

ghost use Rattle.std.specs.Prelude.{◌≡◌, ℕ, List};
ghost use Rattle.cil_model.specs.declared.contract.Contracts.{Contracts};
ghost use Rattle.cil_model.specs.declared.program.MethodDesc.{MethodDesc};
ghost use Rattle.cil_model.specs.declared.program.Program.{Program};
ghost use Rattle.cil_model.specs.declared.value.Value.{Value};
ghost use Rattle.cil_semantics.specs.Checks.{AddedNumbers};
ghost use Rattle.machine_laws.specs.Same.{IsEntry, Same, bound_of};
ghost use Rattle.splice_facts.specs.Related.{Rewritten, written};
ghost use Rattle.same_behaviour.specs.Behaviour.{OfInput, SameAmong};

/// From the facts on a rewriting alone: the plain run of the written program and the run, with its contracts, of
/// the input with the output's tables end together and tell the same, whatever entry of the input is called.
#[tactic(auto, using(crate::proofs::AmongLaws::same_among))]
pub fn written_bodies_behave_the_same()
    ensures { (p : Program) (k : Contracts) (ms : List MethodDesc) (g : AddedNumbers) (r : Rewritten p k ms g) → SameAmong r.types r.methods p k g (written p k ms g r) }
{}

/// An entry of an input is one where its tables have grown, and the bound on steps stays.
pub fn entries_stay()
    ensures entries { (p0 p : Program) (k : Contracts) (ms : List MethodDesc) (g : AddedNumbers) (r : Rewritten p k ms g) → OfInput p0 p k ms g r → (m : ℕ) (args : List Value) → IsEntry p0 m args → IsEntry p m args }
    ensures bound { (p0 p : Program) (k : Contracts) (ms : List MethodDesc) (g : AddedNumbers) (r : Rewritten p k ms g) → OfInput p0 p k ms g r → bound_of k p ≡ bound_of k p0 }
{}

/// The written program does what the input does with its contracts.
pub fn written_program_behaves_the_same()
    ensures { (p0 p : Program) (k : Contracts) (ms : List MethodDesc) (g : AddedNumbers) (r : Rewritten p k ms g) → OfInput p0 p k ms g r → Same p0 k (written p k ms g r) }
{}
