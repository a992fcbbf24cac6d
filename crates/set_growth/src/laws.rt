// What stays where rows are appended to TARGET.
ghost use Rattle.std.specs.Prelude.{List, ◌∷◌};
ghost use Rattle.set_rows.specs.Sets.{Assembly};
ghost use Rattle.set_program.specs.Appended.{AllNamed};
ghost use Rattle.set_growth.specs.Grown.{IsGrown};
ghost use Rattle.set_growth.specs.Orderly.{IsOrderly};
ghost use Rattle.set_growth.specs.Kept.{KeepsNames, KeepsTypes};

/// Names, nestings, and the lists of fields and methods of old types stay.
#[tactic(auto, using(crate::proofs::KeptNameLaws::keeps_names))]
pub fn grown_keeps_names()
    ensures { (x x' : Assembly) → IsGrown x x' → IsOrderly x → KeepsNames x x' }
{}

/// What references name stays, and so do the numbers of types; what is new has numbers behind.
#[tactic(auto, using(crate::proofs::KeptTypeLaws::keeps_types))]
pub fn grown_keeps_types()
    ensures { (x x' : Assembly) (xs : List Assembly) → IsGrown x x' → IsOrderly x → AllNamed (x ∷ xs) → KeepsTypes (x ∷ xs) (x' ∷ xs) }
{}
