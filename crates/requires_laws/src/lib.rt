//! Requires<E> as instructions.
#![tactic(auto)]

ghost use Rattle.std.specs.Prelude.{◌≤◌, ℕ};
ghost use Rattle.cil_model.specs.declared.contract.Contracts.{Contracts};
ghost use Rattle.cil_model.specs.declared.contract.Group.{Group};
ghost use Rattle.cil_model.specs.declared.program.Program.{Program};
ghost use Rattle.cil_semantics.specs.Checks.{AddedNumbers};
ghost use Rattle.cil_semantics.specs.Contracted.{Plan};
ghost use Rattle.machine_laws.specs.Same.{most_clauses};
ghost use Rattle.splice_facts.specs.Layout.{Depths, Marks};
ghost use Rattle.splice_laws.specs.Helpers.{HasRuntime};
ghost use Rattle.splice_laws.specs.HelperRuns.{HelpersRun};
ghost use Rattle.splice_laws.specs.EntryCode.{GroupFrame};
ghost use Rattle.requires_laws.specs.MadeCode.{MadeCode, MadeSeams};
ghost use Rattle.requires_laws.specs.ReportCode.{HasReport, ReportRuns};

/// The helper that reports a failure, by its code: the event is raised, its reply is pushed where the helper
/// was called, and its exception is thrown from there.
pub fn report_answers_the_reply()
    ensures { (p : Program) (owner guard : ℕ) (r : HasRuntime p owner guard) (g : AddedNumbers) (report : ℕ) → HasReport p g report r.assembly → ReportRuns p g owner report }
{}

/// The end of a Requires<E> clause whose E is an exception of the core classes, by these instructions over
/// that helper: what fails is reported, null goes on, and with any other reply E is made and thrown.
pub fn core_exceptions_meet_the_facts()
    ensures { (p : Program) (k : Contracts) (p' : Program) (g : AddedNumbers) (n : ℕ) (depths : Depths n g) (r : HelpersRun p' g k.settings.throwing depths.owner k.settings.guard) (me : ℕ) (plan : Plan) (m : Marks) (gr : Group) (e : GroupFrame p p' g k.settings.throwing depths.owner k.settings.guard r me plan m gr) → MadeCode p k p' g n depths r me plan m gr e
        → 1 ≤ most_clauses k p 0 p.methods → MadeSeams p k p' g n depths r me plan m gr e }
{}
