// Runs of small programs, computed from the definitions. The programs stand in `specs/Rows.antt`.

ghost use Rattle.machine_rows.specs.Rows.{RequiresGoesOnAfterNull, RequiresThrowsByDefault, RequiresThrowsTheReply, RequiresHolds, RequiresOfThrowsItsType, RequiresIsntKept, DivisionByZeroThrows, DivisionReturns, OutsideReplyIsReturned, LeadInThrowsAtEveryLevel, LeadInPasses, RequiresFailsAfterLeadIn, CaptureIsTakenUnreached, CaptureIsRecalled, EnsuresFailsAtOneExit, EnsuresHoldsAtTheOther, ThrowGroupFits, ThrowGroupGoesOn, ThrowGroupDoesntFit, GuardZeroChecksOnce, GuardOneChecksTwice, AssertIsDroppedBelowFull, AssertFailsAtFull, EntryGroupIsOutsideTheThrowGroup};

/// A precondition that holds, that isn't kept, and that fails with each reply.
#[tactic(auto, using(crate::proofs::RowLaws::requires_holds, crate::proofs::RowLaws::requires_isnt_kept, crate::proofs::RowLaws::requires_goes_on_after_null, crate::proofs::RowLaws::requires_throws_by_default, crate::proofs::RowLaws::requires_throws_the_reply, crate::proofs::RowLaws::requires_of_throws_its_type))]
pub fn requires_with_each_reply()
    ensures holds { RequiresHolds }
    ensures not_kept { RequiresIsntKept }
    ensures null { RequiresGoesOnAfterNull }
    ensures label { RequiresThrowsByDefault }
    ensures exception { RequiresThrowsTheReply }
    ensures of_type { RequiresOfThrowsItsType }
{}

/// Code before the contract runs at every level.
#[tactic(auto, using(crate::proofs::RowLaws::lead_in_throws_at_every_level, crate::proofs::RowLaws::lead_in_passes, crate::proofs::RowLaws::requires_fails_after_lead_in))]
pub fn lead_in_at_each_level()
    ensures throws { LeadInThrowsAtEveryLevel }
    ensures passes { LeadInPasses }
    ensures fails { RequiresFailsAfterLeadIn }
{}

/// Old values are captured at entry, each of them.
#[tactic(auto, using(crate::proofs::RowLaws::capture_is_taken_unreached, crate::proofs::RowLaws::capture_is_recalled))]
pub fn captured_values()
    ensures taken { CaptureIsTakenUnreached }
    ensures recalled { CaptureIsRecalled }
{}

/// A postcondition at the exits of a loop.
#[tactic(auto, using(crate::proofs::RowLaws::ensures_fails_at_one_exit, crate::proofs::RowLaws::ensures_holds_at_the_other))]
pub fn several_exits()
    ensures fails { EnsuresFailsAtOneExit }
    ensures holds { EnsuresHoldsAtTheOther }
{}

/// EnsuresOnThrow sees the exceptions of the rest alone that fit its type.
#[tactic(auto, using(crate::proofs::RowLaws::throw_group_fits, crate::proofs::RowLaws::throw_group_goes_on, crate::proofs::RowLaws::throw_group_doesnt_fit, crate::proofs::RowLaws::entry_group_is_outside_the_throw_group))]
pub fn throw_group()
    ensures fits { ThrowGroupFits }
    ensures goes_on { ThrowGroupGoesOn }
    ensures doesnt_fit { ThrowGroupDoesntFit }
    ensures entry { EntryGroupIsOutsideTheThrowGroup }
{}

/// Clauses that call their own method.
#[tactic(auto, using(crate::proofs::RowLaws::guard_zero_checks_once, crate::proofs::RowLaws::guard_one_checks_twice))]
pub fn recursion_under_guard()
    ensures zero { GuardZeroChecksOnce }
    ensures one { GuardOneChecksTwice }
{}

/// An Assert is checked at the full level, and its argument is evaluated at every level.
#[tactic(auto, using(crate::proofs::RowLaws::assert_is_dropped_below_full, crate::proofs::RowLaws::assert_fails_at_full))]
pub fn assert_at_each_level()
    ensures below { AssertIsDroppedBelowFull }
    ensures full { AssertFailsAtFull }
{}

/// Numbers, and the reply of a call outside.
#[tactic(auto, using(crate::proofs::RowLaws::division_by_zero_throws, crate::proofs::RowLaws::division_returns, crate::proofs::RowLaws::outside_reply_is_returned))]
pub fn plain_runs()
    ensures by_zero { DivisionByZeroThrows }
    ensures divides { DivisionReturns }
    ensures replied { OutsideReplyIsReturned }
{}
