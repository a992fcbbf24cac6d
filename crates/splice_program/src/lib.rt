//! A written program of two methods with contracts, which meets the facts and so behaves the same.
#![tactic(auto)]

ghost use Rattle.same_behaviour.specs.Behaviour.{SameAmong};
ghost use Rattle.splice_program.specs.Facts.{MeetsFacts, SeamsMeet};
ghost use Rattle.splice_program.specs.Program.{contracts, input, numbers};
ghost use Rattle.splice_program.specs.Written.{output};

/// Each seam of the written bodies does what is asked of it: entering, branching, the clauses and their
/// ends, the capture with its catch, the lifted returns, the wrapper and its group, and the invariant.
pub fn seams_meet_the_facts()
    ensures { SeamsMeet }
{}

/// The whole written program meets all the facts that the simulation asks of a rewriting.
pub fn two_methods_meet_the_facts()
    ensures { MeetsFacts }
{}

/// So the written program, run plainly, does what the program does with its contracts: for each of its
/// methods that can be entered, all replies and each number of steps.
pub fn two_methods_behave_the_same()
    ensures { SameAmong 2 9 input contracts numbers output }
{}
