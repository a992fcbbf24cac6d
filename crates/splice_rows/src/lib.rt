//! A spliced body, computed: a method with one precondition meets the facts.
#![tactic(auto)]

ghost use Rattle.splice_rows.specs.OneRequires.{Meets};

/// The written body of a method with one precondition meets the premises of its group, and all the
/// facts that the simulation asks of a body.
pub fn one_requires_meets_the_facts()
    ensures { Meets }
{}
