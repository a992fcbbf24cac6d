//! EnsuresOnThrow as instructions, which meet the facts: its group, and the wrapper round the rest.
#![tactic(auto)]

ghost use Rattle.std.specs.Prelude.{◌≡◌, ◌≤◌, ℕ, length};
ghost use Rattle.cil_model.specs.declared.contract.Contracts.{Contracts};
ghost use Rattle.cil_model.specs.declared.contract.Group.TheVariants as group;
ghost use Rattle.cil_model.specs.declared.program.Program.{Program};
ghost use Rattle.cil_semantics.specs.Checks.{AddedNumbers};
ghost use Rattle.cil_semantics.specs.Contracted.{Plan, pieces};
ghost use Rattle.machine_laws.specs.Same.{most_clauses};
ghost use Rattle.splice_facts.specs.Layout.{Depths, Marks};
ghost use Rattle.splice_laws.specs.HelperRuns.{HelpersRun};
ghost use Rattle.splice_laws.specs.EntryCode.{GroupFrame};
ghost use Rattle.throw_laws.specs.ThrowCode.{ThrowCode, ThrowSeams};
ghost use Rattle.throw_laws.specs.WrapperCode.{WrapperCode, WrapperSeams};

/// The group of EnsuresOnThrow, by these instructions: it begins with the first clause that the exception
/// fits, goes on with the next one that it fits, breaks off and ends its clauses as the facts say.
pub fn throw_group_meets_the_facts()
    ensures { (p : Program) (k : Contracts) (p' : Program) (g : AddedNumbers) (n : ℕ) (depths : Depths n g) (r : HelpersRun p' g k.settings.throwing depths.owner k.settings.guard) (me : ℕ) (plan : Plan) (m : Marks) (e : GroupFrame p p' g k.settings.throwing depths.owner k.settings.guard r me plan m group.Throw) → ThrowCode p k p' g n depths r me plan m e
        → 1 ≤ most_clauses k p 0 p.methods → length (pieces plan group.Throw) ≤ most_clauses k p 0 p.methods → k.settings.guard ≤ 100 → plan.settings ≡ k.settings → ThrowSeams p k p' g n depths r me plan m e }
{}

/// The wrapper of a rest whose clauses on exceptions are kept, by these instructions: an exception that no
/// region of the body takes is kept and comes to their group, and behind the group it is thrown on.
pub fn wrapper_meets_the_facts()
    ensures { (p : Program) (k : Contracts) (p' : Program) (g : AddedNumbers) (n : ℕ) (depths : Depths n g) (me : ℕ) (plan : Plan) (m : Marks) → WrapperCode p k p' g n depths me plan m → WrapperSeams p k p' g n depths me plan m }
{}
