// Laws on the definitions.
ghost use Rattle.std.specs.Prelude.{List, ◌∷◌};
ghost use Rattle.set_rows.specs.Sets.{Assembly};
ghost use Rattle.set_program.specs.Appended.{AppendsReferences, AreIndexes, AllNamed, KeepsTypes};

/// Appended rows of references change nothing that a row names, and move no type's number.
pub fn appended_references_keep_types()
    ensures { (x x' : Assembly) (xs : List Assembly) → AppendsReferences x x' → AreIndexes x → AllNamed (x ∷ xs) → KeepsTypes (x ∷ xs) (x' ∷ xs) }
{}
