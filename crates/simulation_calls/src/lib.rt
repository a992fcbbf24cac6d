//! Returns and the ends of clauses, in the run of an input with its contracts and in the plain run of
//! the written program.
#![tactic(auto)]

ghost use Rattle.std.specs.Prelude.{List};
ghost use Rattle.cil_model.specs.declared.contract.Contracts.{Contracts};
ghost use Rattle.cil_model.specs.declared.program.MethodDesc.{MethodDesc};
ghost use Rattle.cil_model.specs.declared.program.Program.{Program};
ghost use Rattle.cil_semantics.specs.Checks.{AddedNumbers};
ghost use Rattle.splice_facts.specs.Related.{Rewritten};
ghost use Rattle.simulation_calls.specs.Inline.{CapturesAlike, RecallsAlike, ResultsAlike, LoadsAlike, ChecksHereAlike};
ghost use Rattle.simulation_calls.specs.Rets.{RetsAtOnce, RetsLifted};
ghost use Rattle.simulation_calls.specs.Failures.{FailsAlike, ClausesEndAlike};

/// Over a written program `ret` returns the same at once, or comes in both runs to what is checked at
/// exit and then returns the same.
pub fn returns_go_alike()
    ensures once { (p : Program) (k : Contracts) (ms : List MethodDesc) (g : AddedNumbers) (r : Rewritten p k ms g) → RetsAtOnce p k ms g r }
    ensures lifted { (p : Program) (k : Contracts) (ms : List MethodDesc) (g : AddedNumbers) (r : Rewritten p k ms g) → RetsLifted p k ms g r }
{}

/// Over a written program a failure is reported and followed alike, and the end of a clause leads to
/// the next piece, or to a failure, in both runs.
pub fn clauses_go_alike()
    ensures failures { (p : Program) (k : Contracts) (ms : List MethodDesc) (g : AddedNumbers) (r : Rewritten p k ms g) → FailsAlike p k ms g r }
    ensures conditions { (p : Program) (k : Contracts) (ms : List MethodDesc) (g : AddedNumbers) (r : Rewritten p k ms g) → ClausesEndAlike p k ms g r }
{}

/// Over a written program old values are captured and recalled alike, a clause finds what is returned
/// and what a by-reference argument leads to, and Assert and Assume are checked, or passed over, alike
/// where they stand.
pub fn inline_calls_go_alike()
    ensures captures { (p : Program) (k : Contracts) (ms : List MethodDesc) (g : AddedNumbers) (r : Rewritten p k ms g) → CapturesAlike p k ms g r }
    ensures recalls { (p : Program) (k : Contracts) (ms : List MethodDesc) (g : AddedNumbers) (r : Rewritten p k ms g) → RecallsAlike p k ms g r }
    ensures results { (p : Program) (k : Contracts) (ms : List MethodDesc) (g : AddedNumbers) (r : Rewritten p k ms g) → ResultsAlike p k ms g r }
    ensures loads { (p : Program) (k : Contracts) (ms : List MethodDesc) (g : AddedNumbers) (r : Rewritten p k ms g) → LoadsAlike p k ms g r }
    ensures checks { (p : Program) (k : Contracts) (ms : List MethodDesc) (g : AddedNumbers) (r : Rewritten p k ms g) → ChecksHereAlike p k ms g r }
{}
