//! The exception of a failed Requires<E>, in the run of an input with its contracts and in the plain run of
//! the written program.
#![tactic(auto)]

ghost use Rattle.std.specs.Prelude.{List};
ghost use Rattle.cil_model.specs.declared.contract.Contracts.{Contracts};
ghost use Rattle.cil_model.specs.declared.program.MethodDesc.{MethodDesc};
ghost use Rattle.cil_model.specs.declared.program.Program.{Program};
ghost use Rattle.cil_semantics.specs.Checks.{AddedNumbers};
ghost use Rattle.splice_facts.specs.Related.{Rewritten};
ghost use Rattle.simulation_checks.specs.Exceptions.{ExceptionsMadeAlike, ClausesDone};

/// Over a written program a failed Requires<E> makes its exception alike in both runs, at once, outside
/// or by a constructor of the set, and so the end of a clause leads to the next piece, or to a failure,
/// in both runs.
pub fn requires_make_alike()
    ensures made { (p : Program) (k : Contracts) (ms : List MethodDesc) (g : AddedNumbers) (r : Rewritten p k ms g) → ExceptionsMadeAlike p k ms g r }
    ensures done { (p : Program) (k : Contracts) (ms : List MethodDesc) (g : AddedNumbers) (r : Rewritten p k ms g) → ClausesDone p k ms g r }
{}
