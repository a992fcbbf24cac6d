// What stays of the program of a set where rows are appended to TARGET.
ghost use Rattle.std.specs.Prelude.{ℕ, List, ◌∷◌, Option};
ghost use Rattle.cil_model.specs.declared.program.Program.{Program};
ghost use Rattle.set_rows.specs.Sets.{Assembly};
ghost use Rattle.set_types.specs.SignatureTypes.{Coded};
ghost use Rattle.descriptions.specs.Programs.{program_of};
ghost use Rattle.descriptions.specs.WholePrograms.{IsProgramOf};
ghost use Rattle.machine_laws.specs.Growth.{Ranked, Extends};
ghost use Rattle.set_growth.specs.Grown.{IsGrown, KeepsAccess, KeepsTexts, SaysAlike};
ghost use Rattle.set_growth.specs.Orderly.{IsOrderly};
ghost use Rattle.program_growth.specs.Rules.{IsNamed, IsNumbered, IsDescribed, HasPlaces};
ghost use Rattle.program_growth.specs.Bodies.{KeepsBodies};
ghost use Rattle.program_growth.specs.Kept.{ExtendsCoded, KeepsSignatures, KeepsMembers, KeepsDescriptions, KeepsProgram};

/// A type in a signature that is read keeps its numbers, its type and its arguments.
pub fn signatures_stay()
    ensures { (c c' : Coded) → ExtendsCoded c c' → KeepsSignatures c c' }
{}

/// What coded types lead to and what MemberRef rows name stays, and so do the numbers of fields and
/// methods; what is new has numbers behind.
#[tactic(auto, using(crate::proofs::KeptNumberLaws::keeps_members))]
pub fn grown_keeps_members()
    ensures { (x x' : Assembly) (xs : List Assembly) → IsGrown x x' → IsOrderly x → IsNamed (x ∷ xs) → IsNumbered (x ∷ xs) → SaysAlike (x ∷ xs) (x' ∷ xs) → KeepsMembers (x ∷ xs) (x' ∷ xs) }
{}

/// Old types, fields and methods are described as they were, but for bodies and access.
#[tactic(auto, using(crate::proofs::DescriptionLaws::keeps_descriptions))]
pub fn grown_keeps_descriptions()
    ensures { (x x' : Assembly) (xs : List Assembly) → IsGrown x x' → KeepsAccess x x' → IsOrderly x → IsNamed (x ∷ xs) → IsNumbered (x ∷ xs) → SaysAlike (x ∷ xs) (x' ∷ xs) → IsDescribed (x ∷ xs) → HasPlaces (x ∷ xs) → KeepsDescriptions (x ∷ xs) (x' ∷ xs) }
{}

/// The program of the grown set has the old descriptions at the old numbers, but for bodies and
/// access, and old tokens mean the same.
pub fn grown_keeps_program()
    ensures { (x x' : Assembly) (xs : List Assembly) → IsGrown x x' → KeepsAccess x x' → KeepsTexts x x' → IsOrderly x → IsNamed (x ∷ xs) → IsNumbered (x ∷ xs) → SaysAlike (x ∷ xs) (x' ∷ xs) → IsDescribed (x ∷ xs) → HasPlaces (x ∷ xs) → KeepsProgram (program_of (x ∷ xs)) (program_of (x' ∷ xs)) }
{}

/// The program of the grown set extends that of the set, where no type of either is above itself.
pub fn grown_program_extends()
    ensures { (x x' : Assembly) (xs : List Assembly) → IsGrown x x' → KeepsAccess x x' → KeepsTexts x x' → IsOrderly x → IsNamed (x ∷ xs) → IsNumbered (x ∷ xs) → SaysAlike (x ∷ xs) (x' ∷ xs) → IsDescribed (x ∷ xs) → HasPlaces (x ∷ xs) → Ranked (program_of (x ∷ xs)) → Ranked (program_of (x' ∷ xs)) → Extends (program_of (x ∷ xs)) (program_of (x' ∷ xs)) }
{}

/// So do programs with bodies, where the same old methods have some.
pub fn grown_program_with_bodies_extends()
    ensures { (x x' : Assembly) (xs : List Assembly) → IsGrown x x' → KeepsAccess x x' → KeepsTexts x x' → KeepsBodies x x' → IsOrderly x → IsNamed (x ∷ xs) → IsNumbered (x ∷ xs) → SaysAlike (x ∷ xs) (x' ∷ xs) → IsDescribed (x ∷ xs) → HasPlaces (x ∷ xs) → (code code' : ℕ → ℕ → Option (List ℕ)) (p q : Program) → IsProgramOf code (x ∷ xs) p → IsProgramOf code' (x' ∷ xs) q → Ranked p → Ranked q → Extends p q }
{}
