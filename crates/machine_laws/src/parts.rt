// The order in which the parts of a call with contracts run.

ghost use Rattle.std.specs.Prelude.{List};
ghost use Rattle.cil_model.specs.declared.contract.Contracts.{Contracts};
ghost use Rattle.cil_model.specs.declared.program.Program.{Program};
ghost use Rattle.cil_semantics.specs.Contracted.{Plan};
ghost use Rattle.machine_laws.specs.FourParts.{GoesByParts};
ghost use Rattle.cil_semantics.specs.declared.state.Frame.{Frame};

/// A call with contracts runs its lead-in, its entry group, its rest, and then its postconditions
/// and invariants or, where the rest throws, its clauses on exceptions. `GoesByParts` says which
/// part follows which, and where an exception of each part goes.
#[tactic(auto, using(crate::proofs::PartLaws::goes_by_parts))]
pub fn call_goes_by_parts()
    ensures { (p : Program) (k : Contracts) (plan : Plan) (f : Frame) (fs : List Frame) → GoesByParts p k plan f fs }
{}
