// What runs tell, and same behaviour of two programs from single steps.

ghost use Rattle.std.specs.Prelude.{◌≡◌, ℕ, ◌+◌, List};
ghost use Rattle.cil_model.specs.declared.contract.Contracts.{Contracts};
ghost use Rattle.cil_model.specs.declared.program.Program.{Program};
ghost use Rattle.cil_model.specs.declared.run.Reply.{Reply};
ghost use Rattle.cil_model.specs.declared.value.Value.{Value};
ghost use Rattle.cil_model.specs.NoContracts.{no_contracts};
ghost use Rattle.cil_semantics.specs.Checks.{AddedNumbers};
ghost use Rattle.cil_semantics.specs.Machine.{step, run};
ghost use Rattle.machine_laws.specs.Same.{AnswersSteps, Same};
ghost use Rattle.machine_laws.specs.Simulation.{Grows, IsPrefix, trace_of};
ghost use Rattle.cil_semantics.specs.declared.state.Item.{Item};
ghost use Rattle.cil_semantics.specs.State.{State, recorded_after, goes_after};

/// A step never takes back what was told, and neither do further steps of a run. What was told before
/// changes nothing of a step.
#[tactic(auto, using(crate::proofs::GrowthLaws::step_grows, crate::proofs::GrowthLaws::recorded_is_unread, crate::proofs::GrowthLaws::run_grows))]
pub fn traces_grow()
    ensures one_step { (p : Program) (k : Contracts) (g : AddedNumbers) → Grows (step p k g) }
    ensures unread { (p : Program) (k : Contracts) (g : AddedNumbers) (before : List Item) (s : State) → step p k g (record s { world = recorded_after before s.world }) ≡ goes_after before (step p k g s) }
    ensures whole_run { (p : Program) (k : Contracts) (g : AddedNumbers) (m : ℕ) (args : List Value) (rs : List Reply) (n j : ℕ) → IsPrefix (trace_of (run p k g m args rs n)) (trace_of (run p k g m args rs (n + j))) }
{}

/// A program with contracts, and one whose plain runs answer the steps of its runs.
pub trait Rewriting {
    ghost input: { Self → Program };

    ghost contracts: { Self → Contracts };

    ghost output: { Self → Program };

    /// What the output has besides.
    ghost numbers: { Self → AddedNumbers };

    /// Which states of the two runs go together.
    ghost related: { Self → State → State → Type 0 };

    /// What a state of the first run has laid by for long answers.
    ghost laid_by: { Self → State → ℕ };

    /// Tells nothing.
    fn known(&self) {}

    /// From each entry on each step is answered.
    ghost answers: { (x : Self) → AnswersSteps (input x) (contracts x) (output x) (numbers x) (related x) (laid_by x) };
}

/// Where single steps are answered, whole runs from entries end together and tell the same.
pub fn same_behaviour<S: Rewriting>()
    ensures { (x : S) → Same (S.input x) (S.contracts x) (S.output x) }
{}

/// A program without contracts behaves as itself.
#[tactic(auto, using(crate::proofs::SameLaws::behaves_as_itself))]
pub fn behaves_as_itself()
    ensures { (p : Program) → Same p no_contracts p }
{}
