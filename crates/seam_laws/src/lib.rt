//! Further seams as instructions, which meet the facts.
#![tactic(auto)]

ghost use Rattle.std.specs.Prelude.{◌≡◌, ◌≤◌, ℕ, false};
ghost use Rattle.cil_model.specs.declared.contract.Contracts.{Contracts};
ghost use Rattle.cil_model.specs.declared.contract.Group.TheVariants as group;
ghost use Rattle.cil_model.specs.declared.program.Program.{Program};
ghost use Rattle.cil_semantics.specs.Checks.{AddedNumbers};
ghost use Rattle.cil_semantics.specs.Contracted.{Plan};
ghost use Rattle.machine_laws.specs.Same.{most_clauses};
ghost use Rattle.splice_facts.specs.Layout.{Depths, Marks};
ghost use Rattle.splice_laws.specs.Helpers.{HasRuntime};
ghost use Rattle.splice_laws.specs.HelperRuns.{HelpersRun};
ghost use Rattle.splice_laws.specs.EntryCode.{GroupFrame};
ghost use Rattle.seam_laws.specs.CaptureCode.{CaptureCode, CaptureSeams};
ghost use Rattle.seam_laws.specs.InlineCode.{ChecksInPlace, InlineCode};
ghost use Rattle.seam_laws.specs.QuietFail.{HasQuietFail};
ghost use Rattle.seam_laws.specs.RecallCode.{RecallCode, RecallSeams};

/// An Assert or Assume of a body at the full level, wherever it stands and whichever handlers run: by these
/// instructions over these helpers it is checked, and a failure is reported, thrown or passed over.
pub fn checks_in_place_meet_the_facts()
    ensures { (p : Program) (k : Contracts) (p' : Program) (g : AddedNumbers) (n : ℕ) (depths : Depths n g) (r : HelpersRun p' g k.settings.throwing depths.owner k.settings.guard) (me : ℕ) (plan : Plan) (m : Marks) → InlineCode p k p' g n depths r me plan m
        → 1 ≤ most_clauses k p 0 p.methods → ChecksInPlace p k p' g n depths r me plan m }
{}

/// The code of the runtime class does what the facts on helpers say, where failures don't throw.
pub fn quiet_helpers_meet_the_facts()
    ensures { (p : Program) (g : AddedNumbers) (owner guard : ℕ) (r : HasRuntime p owner guard) (fail : ℕ) → HasQuietFail p g fail r.assembly → HelpersRun p g false owner guard }
{}

/// Old values that the entry group captures, by these instructions within its own: a value is kept as its
/// local's type keeps it, and an exception of its code is dropped.
pub fn captures_meet_the_facts()
    ensures { (p : Program) (k : Contracts) (p' : Program) (g : AddedNumbers) (n : ℕ) (depths : Depths n g) (r : HelpersRun p' g k.settings.throwing depths.owner k.settings.guard) (me : ℕ) (plan : Plan) (m : Marks) (e : GroupFrame p p' g k.settings.throwing depths.owner k.settings.guard r me plan m group.Entry) → CaptureCode p k p' g n depths r me plan m e
        → 1 ≤ most_clauses k p 0 p.methods → k.settings.guard ≤ 100 → plan.settings ≡ k.settings → CaptureSeams p k p' g n depths r me plan m e }
{}

/// OldValue and Result in clauses: the captured value, and what is returned, are loaded from their locals.
pub fn old_values_and_results_meet_the_facts()
    ensures { (p : Program) (k : Contracts) (p' : Program) (g : AddedNumbers) (n : ℕ) (depths : Depths n g) (me : ℕ) (plan : Plan) (m : Marks) → RecallCode p k p' g n depths me plan m → RecallSeams p k p' g n depths me plan m }
{}
