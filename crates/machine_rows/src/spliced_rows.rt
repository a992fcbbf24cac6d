// Bodies spliced by hand, run plainly, against runs with contracts. The programs stand in
// `specs/SplicedRows.antt`.

ghost use Rattle.machine_rows.specs.SplicedRows.{SplicedRequiresThrows, SplicedRequiresGoesOn, SplicedEnsuresFails, SplicedEnsuresHolds, SplicedAssertFails, SplicedConditionIsCut};

/// A precondition that fails, with two replies.
#[tactic(auto, using(crate::proofs::SplicedRowLaws::spliced_requires_throws, crate::proofs::SplicedRowLaws::spliced_requires_goes_on))]
pub fn spliced_requires()
    ensures throws { SplicedRequiresThrows }
    ensures goes_on { SplicedRequiresGoesOn }
{}

/// A postcondition with a captured value.
#[tactic(auto, using(crate::proofs::SplicedRowLaws::spliced_ensures_fails, crate::proofs::SplicedRowLaws::spliced_ensures_holds))]
pub fn spliced_ensures()
    ensures fails { SplicedEnsuresFails }
    ensures holds { SplicedEnsuresHolds }
{}

/// An Assert where it stands.
#[tactic(auto, using(crate::proofs::SplicedRowLaws::spliced_assert_fails))]
pub fn spliced_assert()
    ensures { SplicedAssertFails }
{}

/// A condition that a bool cuts to zero.
#[tactic(auto, using(crate::proofs::SplicedRowLaws::spliced_condition_is_cut))]
pub fn spliced_condition()
    ensures { SplicedConditionIsCut }
{}
