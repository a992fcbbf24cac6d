// From one step of two machines to their whole runs.

ghost use Rattle.std.specs.Prelude.{ℕ};
ghost use Rattle.cil_semantics.specs.declared.state.World.{World};
ghost use Rattle.cil_semantics.specs.State.{State, Next};
ghost use Rattle.machine_laws.specs.Simulation.{Simulates, Lifts};

/// Two machines, of which the second answers each step of the first.
pub trait Simulation {
    /// The steps of the two machines.
    ghost first: { Self → State → Next };

    ghost second: { Self → State → Next };

    /// Which states of the two go together.
    ghost related: { Self → State → State → Type 0 };

    /// Which worlds count as the same at the end.
    ghost alike: { Self → World → World → Type 0 };

    /// What a state of the first has laid by for long answers.
    ghost laid_by: { Self → State → ℕ };

    /// How many steps an answer may take otherwise.
    ghost bound: { Self → ℕ };

    /// Tells nothing.
    fn known(&self) {}

    /// Each step is answered.
    ghost answers: { (x : Self) → Simulates (first x) (second x) (alike x) (related x) (laid_by x) (bound x) };
}

/// Where each step is answered, the runs end together and write the same: each way of one run ends
/// where the other's does, and neither writes what the other doesn't.
pub fn lifting<S: Simulation>()
    ensures { (x : S) → Lifts (S.first x) (S.second x) (S.alike x) (S.related x) (S.laid_by x) (S.bound x) }
{}
