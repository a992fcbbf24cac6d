// The law on a table with one more clause.

ghost use Rattle.std.specs.Prelude.{List};
ghost use Rattle.cil_model.specs.declared.body.Region.{Region};
ghost use Rattle.region_tree.specs.Wrapping.{WrapsGuards};

/// A place of the wrapped part is guarded as before, and then by the new handler; any other old
/// place is guarded as before.
#[tactic(auto, using(crate::proofs::WrapLaws::wraps_guards))]
pub fn wrapping_guards()
    ensures { (old inside : List Region) (new : Region) → WrapsGuards old inside new }
{}
