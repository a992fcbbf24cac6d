//! Each step of the run of an input with its contracts is answered by the plain run of the written program.
#![tactic(auto)]

ghost use Rattle.std.specs.Prelude.{List};
ghost use Rattle.cil_model.specs.declared.contract.Contracts.{Contracts};
ghost use Rattle.cil_model.specs.declared.program.MethodDesc.{MethodDesc};
ghost use Rattle.cil_model.specs.declared.program.Program.{Program};
ghost use Rattle.cil_semantics.specs.Checks.{AddedNumbers};
ghost use Rattle.splice_facts.specs.Related.{Rewritten};
ghost use Rattle.step_answers.specs.Answering.{StepsAnswered};
ghost use Rattle.step_answers.specs.Leading.{InstructionsLeadOn};
ghost use Rattle.step_answers.specs.Runs.{EntriesBegin, RunsAnswered};

/// An instruction that calls nothing and doesn't return leads on, or to a target of its operand.
pub fn instructions_lead_on()
    ensures { InstructionsLeadOn }
{}

/// From related states, of which the first is sound, each step of the run with contracts is answered, wherever
/// its topmost frame stands and whatever it does there.
pub fn each_step_is_answered()
    ensures { (p : Program) (k : Contracts) (ms : List MethodDesc) (g : AddedNumbers) (r : Rewritten p k ms g) → StepsAnswered p k ms g r }
{}

/// A run of an entry begins: it isn't over at once.
pub fn entries_begin_to_run()
    ensures { EntriesBegin }
{}

/// A whole run of an entry begins, and is answered: the facts of the rewriting are all that is asked.
pub fn whole_runs_are_answered()
    ensures { (p : Program) (k : Contracts) (ms : List MethodDesc) (g : AddedNumbers) (r : Rewritten p k ms g) → RunsAnswered p k ms g r }
{}
