//! What holds of the run of an input with its contracts, whatever the written program does, and how both
//! runs begin.
#![tactic(auto)]

ghost use Rattle.std.specs.Prelude.{List};
ghost use Rattle.cil_model.specs.declared.contract.Contracts.{Contracts};
ghost use Rattle.cil_model.specs.declared.program.MethodDesc.{MethodDesc};
ghost use Rattle.cil_model.specs.declared.program.Program.{Program};
ghost use Rattle.cil_semantics.specs.Checks.{AddedNumbers};
ghost use Rattle.simulation_valid.specs.Keeping.{ArrivesValid, UnwindsValid};
ghost use Rattle.simulation_valid.specs.Steps.{ActsFine, StepsValid, CallsValid, PerformsValid, PushesValid, LeavesValid, ResumesValid, LoadsValid, StoresValid, StaticsValid, EntersValid, ReturnsValid, PiecesEndValid, AsksValid, ClausesEndValid, CapturesValid, ChecksHereValid, StartsAlike, StartsValid};
ghost use Rattle.splice_facts.specs.Related.{Rewritten};

/// Exceptions go down frames, frames arrive at places, values are pushed, and handlers end: what the run
/// comes to is valid.
pub fn frames_stay_valid()
    ensures arriving { (p : Program) (k : Contracts) (ms : List MethodDesc) (g : AddedNumbers) (r : Rewritten p k ms g) → ArrivesValid p k ms g r }
    ensures unwinding { (p : Program) (k : Contracts) (ms : List MethodDesc) (g : AddedNumbers) (r : Rewritten p k ms g) → UnwindsValid p k ms g r }
    ensures pushing { (p : Program) (k : Contracts) (ms : List MethodDesc) (g : AddedNumbers) (r : Rewritten p k ms g) → PushesValid p k ms g r }
    ensures leaving { (p : Program) (k : Contracts) (ms : List MethodDesc) (g : AddedNumbers) (r : Rewritten p k ms g) → LeavesValid p k ms g r }
    ensures resuming { (p : Program) (k : Contracts) (ms : List MethodDesc) (g : AddedNumbers) (r : Rewritten p k ms g) → ResumesValid p k ms g r }
{}

/// Acts that call nothing, with loads, stores and uses of statics, leave frames and world valid.
pub fn places_stay_valid()
    ensures stepping { (p : Program) (k : Contracts) (ms : List MethodDesc) (g : AddedNumbers) (r : Rewritten p k ms g) → StepsValid p k ms g r }
    ensures instructions { (p : Program) (k : Contracts) (ms : List MethodDesc) (g : AddedNumbers) (r : Rewritten p k ms g) → ActsFine p k ms g r }
    ensures acts { (p : Program) (k : Contracts) (ms : List MethodDesc) (g : AddedNumbers) (r : Rewritten p k ms g) → PerformsValid p k ms g r }
    ensures loading { (p : Program) (k : Contracts) (ms : List MethodDesc) (g : AddedNumbers) (r : Rewritten p k ms g) → LoadsValid p k ms g r }
    ensures storing { (p : Program) (k : Contracts) (ms : List MethodDesc) (g : AddedNumbers) (r : Rewritten p k ms g) → StoresValid p k ms g r }
    ensures statics { (p : Program) (k : Contracts) (ms : List MethodDesc) (g : AddedNumbers) (r : Rewritten p k ms g) → StaticsValid p k ms g r }
{}

/// A method is entered behind its type's initializer, what it returns goes down, groups end, and a call
/// outside takes its reply, in valid states.
pub fn calls_stay_valid()
    ensures calling { (p : Program) (k : Contracts) (ms : List MethodDesc) (g : AddedNumbers) (r : Rewritten p k ms g) → CallsValid p k ms g r }
    ensures entering { (p : Program) (k : Contracts) (ms : List MethodDesc) (g : AddedNumbers) (r : Rewritten p k ms g) → EntersValid p k ms g r }
    ensures returning { (p : Program) (k : Contracts) (ms : List MethodDesc) (g : AddedNumbers) (r : Rewritten p k ms g) → ReturnsValid p k ms g r }
    ensures pieces { (p : Program) (k : Contracts) (ms : List MethodDesc) (g : AddedNumbers) (r : Rewritten p k ms g) → PiecesEndValid p k ms g r }
    ensures asking { (p : Program) (k : Contracts) (ms : List MethodDesc) (g : AddedNumbers) (r : Rewritten p k ms g) → AsksValid p k ms g r }
{}

/// The end of a clause, a failure, a capture, and Assert and Assume where they stand lead to valid states.
pub fn clauses_stay_valid()
    ensures ends { (p : Program) (k : Contracts) (ms : List MethodDesc) (g : AddedNumbers) (r : Rewritten p k ms g) → ClausesEndValid p k ms g r }
    ensures captures { (p : Program) (k : Contracts) (ms : List MethodDesc) (g : AddedNumbers) (r : Rewritten p k ms g) → CapturesValid p k ms g r }
    ensures checks { (p : Program) (k : Contracts) (ms : List MethodDesc) (g : AddedNumbers) (r : Rewritten p k ms g) → ChecksHereValid p k ms g r }
{}

/// From an entry both runs begin in states that go together, and the first one in a valid state.
pub fn runs_begin()
    ensures alike { (p : Program) (k : Contracts) (ms : List MethodDesc) (g : AddedNumbers) (r : Rewritten p k ms g) → StartsAlike p k ms g r }
    ensures valid { (p : Program) (k : Contracts) (ms : List MethodDesc) (g : AddedNumbers) (r : Rewritten p k ms g) → StartsValid p k ms g r }
{}
