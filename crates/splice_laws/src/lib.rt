//! Seams as instructions, which meet the facts.
#![tactic(auto)]

ghost use Rattle.std.specs.Prelude.{◌≡◌, ◌≤◌, ℕ, true};
ghost use Rattle.cil_base.specs.declared.token.Token.{Token};
ghost use Rattle.cil_model.specs.declared.contract.Contracts.{Contracts};
ghost use Rattle.cil_model.specs.declared.contract.Group.{Group};
ghost use Rattle.cil_model.specs.declared.program.Program.{Program};
ghost use Rattle.cil_semantics.specs.Checks.{AddedNumbers};
ghost use Rattle.cil_semantics.specs.Contracted.{Plan};
ghost use Rattle.machine_laws.specs.Same.{most_clauses};
ghost use Rattle.splice_facts.specs.Layout.{Depths, Marks};
ghost use Rattle.splice_facts.specs.Spliced.{Groups};
ghost use Rattle.splice_laws.specs.Helpers.{HasRuntime};
ghost use Rattle.splice_laws.specs.Fails.{HasFail, HasException, MakesFailure};
ghost use Rattle.splice_laws.specs.HelperRuns.{HelpersRun};
ghost use Rattle.splice_laws.specs.EntryCode.{EntryCode, GroupCode};
ghost use Rattle.splice_laws.specs.GroupSeams.{GroupSeams};
ghost use Rattle.splice_laws.specs.ExitCode.{ExitCode, ExitSeams};
ghost use Rattle.splice_laws.specs.DropCode.{DropCode, DropsArguments};
ghost use Rattle.splice_laws.specs.RequiresOnly.{RequiresOnly};

/// The code of the runtime class does what the facts on helpers say, where failures throw; and the
/// constructor of the exceptions makes what a failure throws.
pub fn helpers_meet_the_facts()
    ensures helpers { (p : Program) (g : AddedNumbers) (owner guard : ℕ) (r : HasRuntime p owner guard) (fail : ℕ) → HasFail p g owner fail r.assembly → HelpersRun p g true owner guard }
    ensures failures { (p : Program) (g : AddedNumbers) (c a : ℕ) (ctor : Token) → HasException p g c a ctor → MakesFailure p g c a ctor }
{}

/// A group of clauses that capture nothing and make no exception of their own, by these instructions over
/// these helpers: it begins, goes on, breaks off and ends its clauses as the facts say.
pub fn group_meets_the_facts()
    ensures { (p : Program) (k : Contracts) (p' : Program) (g : AddedNumbers) (n : ℕ) (depths : Depths n g) (me : ℕ) (plan : Plan) (m : Marks) (gr : Group) (r : HelpersRun p' g k.settings.throwing depths.owner k.settings.guard) → GroupCode p p' g k.settings.throwing depths.owner k.settings.guard r me plan m gr
        → 1 ≤ most_clauses k p 0 p.methods → k.settings.guard ≤ 100 → plan.settings ≡ k.settings → GroupSeams p k p' g n depths me plan m gr }
{}

/// A body whose kept clauses are Requires, spliced by these instructions over these helpers, meets
/// all the facts on groups.
pub fn requires_meet_the_facts()
    ensures groups { (p : Program) (k : Contracts) (p' : Program) (g : AddedNumbers) (n : ℕ) (depths : Depths n g) (me : ℕ) (plan : Plan) (m : Marks) (r : HelpersRun p' g k.settings.throwing depths.owner k.settings.guard) → EntryCode p p' g k.settings.throwing depths.owner k.settings.guard r me plan m
        → 1 ≤ most_clauses k p 0 p.methods → k.settings.guard ≤ 100 → plan.settings ≡ k.settings → RequiresOnly p k p' g n depths me plan m → Groups p k p' g n depths me plan m }
{}

/// The exit of a body, by these instructions: a `ret` of the rest comes to where postconditions and
/// invariants are checked, with what it returns kept, and the `ret` behind them returns it.
pub fn exit_meets_the_facts()
    ensures { (p : Program) (k : Contracts) (p' : Program) (g : AddedNumbers) (n : ℕ) (depths : Depths n g) (me : ℕ) (plan : Plan) (m : Marks) → ExitCode p k p' g n depths me plan m → ExitSeams p k p' g n depths me plan m }
{}

/// An Assert or Assume below the full level, wherever it stands and whichever handlers run: its arguments
/// are dropped by these instructions, and the run goes on behind it.
pub fn dropped_checks_meet_the_facts()
    ensures { (p : Program) (k : Contracts) (p' : Program) (g : AddedNumbers) (n : ℕ) (depths : Depths n g) (me : ℕ) (plan : Plan) (m : Marks) → DropCode p k p' g n depths me plan m → DropsArguments p k p' g n depths me plan m }
{}
