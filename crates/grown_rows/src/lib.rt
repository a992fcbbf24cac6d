//! A program with one precondition and its written program, computed: the whole claim holds of them.
#![tactic(auto)]

ghost use Rattle.cil_semantics.specs.Checks.{AddedNumbers};
ghost use Rattle.grown_runs.specs.Grown.{GrowsAround};
ghost use Rattle.machine_laws.specs.Same.{Same};
ghost use Rattle.splice_rows.specs.OneRequires.{contracts, input, numbers, output};
ghost use Rattle.grown_rows.specs.Original.{original};

/// What a writer gives of an input and of the input with the tables of the output holds of the program before the
/// runtime class is appended and behind it. So the written program does what the input does with its precondition.
#[tactic(auto, using(crate::proofs::OriginalLaws::grows, crate::proofs::BehaviourLaws::same))]
pub fn one_requires_behaves_the_same()
    ensures grows { GrowsAround original input contracts numbers.exception }
    ensures same { Same original contracts output }
{}
