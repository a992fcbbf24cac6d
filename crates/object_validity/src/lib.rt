//! References lead to objects that are there: what a run keeps of it.
#![tactic(auto)]

ghost use Rattle.object_validity.specs.Steps.{ActsKeepReferences, AsksKnown, OutsideKnown, UnwindsKnown, EntersKnown, EntriesKnown, PerformsKnown, ReturnsKnown, StepsKnown, ThrowsKnown};

/// An instruction leaves, throws, stores and passes references to objects that are there.
pub fn acts_keep_references()
    ensures { ActsKeepReferences }
{}

/// An exception that is an object goes down the frames, through handlers, groups and initializers.
pub fn exceptions_keep_references()
    ensures { UnwindsKnown }
{}

/// A method is entered, behind the initializer of its type where the call is a use of it.
pub fn calls_keep_references()
    ensures { EntersKnown }
{}

/// A frame returns at once, or behind its groups at exit.
pub fn returns_keep_references()
    ensures { ReturnsKnown }
{}

/// An act is performed: jumps, exceptions, `leave`, `endfinally`, `ret`, loads, stores, statics, calls and new objects.
pub fn steps_keep_references()
    ensures { PerformsKnown }
{}

/// What an instruction throws, or a handler throws on, is an object of the heap.
pub fn objects_are_thrown()
    ensures { ThrowsKnown }
{}

/// A run of an entry begins with references to objects that are there.
pub fn entries_begin_with_references()
    ensures { EntriesKnown }
{}

/// A call outside takes its reply: what it returns or throws, and what it stores through references.
pub fn replies_keep_references()
    ensures asking { AsksKnown }
    ensures calling { OutsideKnown }
{}

/// A step of a run, plain or with contracts, at every setting.
pub fn each_step_keeps_references()
    ensures { StepsKnown }
{}
