// Runs of further small programs, computed. The programs stand in `specs/MoreRows.antt`.

ghost use Rattle.machine_rows.specs.MoreRows.{OutsideReplyDoesntFit, ArgumentsThatDontFit, FailureIsTriggered, CaughtInTheRest, FinallyRunsOnTheWayOut, FinallyRunsAfterLeave, InitializerFailsForGood, EntryRunsTheInitializer, ClosedTypesHaveTheirOwnStatics, InvariantChecksANestedCall, ValueAtReturnIsRead, RequiresOfMakesItsOwnException};

/// A reply of another kind than the member's result is told; arguments of another kind than its
/// parameters aren't.
#[tactic(auto, using(crate::proofs::MoreRowLaws::outside_reply_doesnt_fit, crate::proofs::MoreRowLaws::arguments_that_dont_fit))]
pub fn reply_that_doesnt_fit()
    ensures recorded { OutsideReplyDoesntFit }
    ensures unrecorded { ArgumentsThatDontFit }
{}

/// Where failures don't throw, a second call outside tells of them.
#[tactic(auto, using(crate::proofs::MoreRowLaws::failure_is_triggered))]
pub fn failure_without_throwing()
    ensures { FailureIsTriggered }
{}

/// Handlers of the rest: a catch, and a finally that an exception or a leave runs.
#[tactic(auto, using(crate::proofs::MoreRowLaws::caught_in_the_rest, crate::proofs::MoreRowLaws::finally_runs_on_the_way_out, crate::proofs::MoreRowLaws::finally_runs_after_leave))]
pub fn handlers_of_the_rest()
    ensures caught { CaughtInTheRest }
    ensures on_the_way_out { FinallyRunsOnTheWayOut }
    ensures after_leave { FinallyRunsAfterLeave }
{}

/// An initializer that throws makes its type fail for good.
#[tactic(auto, using(crate::proofs::MoreRowLaws::initializer_fails_for_good, crate::proofs::MoreRowLaws::entry_runs_the_initializer))]
pub fn initializers()
    ensures twice { InitializerFailsForGood }
    ensures entry { EntryRunsTheInitializer }
{}

/// Two closed types of one generic type have static fields of their own.
#[tactic(auto, using(crate::proofs::MoreRowLaws::closed_types_have_their_own_statics))]
pub fn statics_of_closed_types()
    ensures { ClosedTypesHaveTheirOwnStatics }
{}

/// An invariant calls a public method, whose precondition is checked and whose invariant isn't.
#[tactic(auto, using(crate::proofs::MoreRowLaws::invariant_checks_a_nested_call))]
pub fn invariant_under_a_nested_call()
    ensures { InvariantChecksANestedCall }
{}

/// A by-reference argument is read at return.
#[tactic(auto, using(crate::proofs::MoreRowLaws::value_at_return_is_read))]
pub fn value_at_return()
    ensures { ValueAtReturnIsRead }
{}

/// Requires with the type of an exception of the set.
#[tactic(auto, using(crate::proofs::MoreRowLaws::requires_of_makes_its_own_exception))]
pub fn requires_of_an_own_exception()
    ensures { RequiresOfMakesItsOwnException }
{}
