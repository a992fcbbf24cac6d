//! The facts that join a splice and the simulation over it.
#![tactic(auto)]

ghost use Rattle.std.specs.Prelude.{List};
ghost use Rattle.cil_model.specs.declared.contract.Contracts.{Contracts};
ghost use Rattle.cil_model.specs.declared.program.MethodDesc.{MethodDesc};
ghost use Rattle.cil_model.specs.declared.program.Program.{Program};
ghost use Rattle.cil_semantics.specs.Checks.{AddedNumbers};
ghost use Rattle.splice_facts.specs.Related.{Rewritten, SeamsThrow};

/// A check of Requires<E> makes its exception at a place from where it is thrown.
#[tactic(auto, using(crate::proofs::ThrowLaws::seam_throws))]
pub fn failed_requires_throw_what_they_made()
    ensures { (p : Program) (k : Contracts) (ms : List MethodDesc) (g : AddedNumbers) (r : Rewritten p k ms g) → SeamsThrow p k ms g r }
{}
