// What is told where the heap fills up.

ghost use Rattle.std.specs.Prelude.{◌≡◌, ◌<◌, ◌∷◌, List, None, Some, length, slice_get};
ghost use Rattle.cil_model.specs.declared.body.Instr.{Instr};
ghost use Rattle.cil_model.specs.declared.contract.Contracts.{Contracts};
ghost use Rattle.cil_model.specs.declared.program.Program.{Program};
ghost use Rattle.cil_semantics.specs.declared.state.Frame.{Frame};
ghost use Rattle.cil_semantics.specs.declared.state.World.{World};
ghost use Rattle.cil_semantics.specs.Checks.{AddedNumbers};
ghost use Rattle.cil_semantics.specs.Limits.{most_cells, most_frames};
ghost use Rattle.cil_semantics.specs.Unwind.{body_of, place_in, plan_at};
ghost use Rattle.machine_laws.specs.FullHeap.{AsksTooMuch, MakesTooMuch, RunsNext};

/// A run whose next instruction would fill the heap is over with what it told before. The counts of
/// cells decide it, for a new array its length alone, so that what doesn't fit is never made.
#[tactic(auto, using(crate::proofs::FullHeapLaws::makes_too_much, crate::proofs::FullHeapLaws::asks_too_much, crate::proofs::FullHeapLaws::runs_next))]
pub fn full_heap_is_told_first()
    ensures objects { (p : Program) (k : Contracts) (g : AddedNumbers) (i : Instr) (f : Frame) (fs : List Frame) (w : World) → RunsNext p k g i f fs w → MakesTooMuch p k g i f fs w }
    ensures arrays { (p : Program) (k : Contracts) (g : AddedNumbers) (i : Instr) (f : Frame) (fs : List Frame) (w : World) → RunsNext p k g i f fs w → AsksTooMuch p k g i f fs w }
    ensures plain { (p : Program) (k : Contracts) (g : AddedNumbers) (i : Instr) (f : Frame) (fs : List Frame) (w : World) → plan_at k p f.method ≡ None → slice_get (body_of p f.method).instrs (place_in f.at) ≡ Some i → w.cells < most_cells → length (f ∷ fs) < most_frames → RunsNext p k g i f fs w }
{}
