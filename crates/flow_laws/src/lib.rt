//! Laws of runs over code that has heights.
#![tactic(auto)]

ghost use Rattle.std.specs.Prelude.{◌≡◌, ℕ, List, Ok};
ghost use Rattle.cil_model.specs.declared.body.Body.{Body};
ghost use Rattle.cil_model.specs.declared.body.Instr.{Instr};
ghost use Rattle.cil_model.specs.declared.contract.Contracts.{Contracts};
ghost use Rattle.cil_model.specs.declared.program.Program.{Program};
ghost use Rattle.cil_model.specs.declared.run.Reply.{Reply};
ghost use Rattle.cil_model.specs.declared.value.Value.{Value};
ghost use Rattle.cil_model.specs.NoContracts.{no_contracts};
ghost use Rattle.cil_semantics.specs.Checks.{AddedNumbers};
ghost use Rattle.cil_semantics.specs.Machine.{run, start, step};
ghost use Rattle.cil_semantics.specs.State.{State, Running};
ghost use Rattle.il_flow.specs.declared.answer.Heights.{Heights};
ghost use Rattle.il_flow.specs.declared.effect.Effect.{Effect};
ghost use Rattle.il_flow.specs.Heights.{Agrees, HeightsAnswer};
ghost use Rattle.flow_laws.specs.Measured.{CallsAsSaid, HasEnough, IsPlain, Measured, told_height};
ghost use Rattle.flow_laws.specs.Shapes.{HeightsOf, InShape, NextInShape};

/// The heights that are found of a body agree with every path through it.
#[tactic(auto, using(crate::proofs::RunLaws::answer_agrees))]
pub fn found_heights_agree()
    ensures { (effect : Instr → Effect) (b : Body) (found : Heights) → HeightsAnswer effect b (Ok found) → Agrees effect b (told_height found) }
{}

/// Where each body has heights, a run without contracts is in code, or at its end, with as many values
/// on each stack as the place's height is; and its next instruction finds as many as it takes.
#[tactic(auto, using(crate::proofs::RunLaws::starts_in_shape, crate::proofs::StepLaws::step_keeps_shape, crate::proofs::StepLaws::has_enough, crate::proofs::RunLaws::run_in_shape, crate::proofs::RunLaws::plain_runs))]
pub fn stays_in_shape()
    ensures begins { (p : Program) (k : Contracts) (g : AddedNumbers) (height : HeightsOf) (plain : IsPlain p k) (ok : Measured p height) (m : ℕ) (args : List Value) (rs : List Reply) → NextInShape p height (start p k m args rs) }
    ensures one_step { (p : Program) (k : Contracts) (g : AddedNumbers) (height : HeightsOf) (plain : IsPlain p k) (ok : Measured p height) (s : State) → InShape p height s → CallsAsSaid p s.frames → NextInShape p height (step p k g s) }
    ensures enough { (p : Program) (k : Contracts) (g : AddedNumbers) (height : HeightsOf) (plain : IsPlain p k) (ok : Measured p height) (s : State) → InShape p height s → HasEnough p s.frames }
    ensures whole_run { (p : Program) (k : Contracts) (g : AddedNumbers) (height : HeightsOf) (plain : IsPlain p k) (ok : Measured p height) (m : ℕ) (args : List Value) (rs : List Reply) → ((j : ℕ) (t : State) → run p k g m args rs j ≡ Running t → CallsAsSaid p t.frames) → (n : ℕ) → NextInShape p height (run p k g m args rs n) }
    ensures plain { (p : Program) → IsPlain p no_contracts }
{}
