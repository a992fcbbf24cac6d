// Premises of what stays of a program where rows are appended to TARGET.
ghost use Rattle.std.specs.Prelude.{◌≡◌, List, ◌∷◌};
ghost use Rattle.cil_model.specs.declared.program.Program.{Program};
ghost use Rattle.set_names.specs.Names.{Name};
ghost use Rattle.set_rows.specs.Sets.{Assembly, Assemblies};
ghost use Rattle.set_program.specs.Environment.{is_value};
ghost use Rattle.set_growth.specs.Grown.{IsGrown, SaysAlike};
ghost use Rattle.set_growth.specs.Orderly.{IsOrderly};
ghost use Rattle.machine_laws.specs.Answers.{NamesOwn, NamesNone};
ghost use Rattle.machine_laws.specs.Growth.{Ranked};
ghost use Rattle.program_growth.specs.Kept.{KeepsProgram};
ghost use Rattle.program_growth.specs.Rules.{HasPlaces, IsDescribed, IsNamed, IsNumbered};
ghost use Rattle.growth_premises.specs.Attributes.{HasAttributes};
ghost use Rattle.growth_premises.specs.Bases.{BasesBelow};
ghost use Rattle.growth_premises.specs.Places.{HasReferences, NestsInTypes};
ghost use Rattle.growth_premises.specs.Rules.{KeepsRules, HasIndexes, HasMethodIndexes};

/// Each type of a set's list is a row that there is, and what a coded index names has a number.
#[tactic(auto, using(crate::proofs::NumberedLaws::is_numbered))]
pub fn set_is_numbered()
    ensures { (x : Assembly) (xs : List Assembly) → IsNumbered (x ∷ xs) }
{}

/// Each row of a member, its owner and the type around a type have numbers, and what MemberRef rows
/// name where it has.
#[tactic(auto, using(crate::proofs::PlacedLaws::has_places))]
pub fn set_has_places()
    ensures { (x : Assembly) (xs : List Assembly) → IsOrderly x → NestsInTypes (x ∷ xs) → HasReferences (x ∷ xs) → HasPlaces (x ∷ xs) }
{}

/// A MemberRef row names a row, or a member outside that one of these rows names first and whose
/// signature says its kind.
#[tactic(auto, using(crate::proofs::OwnerLaws::all_references))]
pub fn set_has_references()
    ensures { (x : Assembly) (xs : List Assembly) → IsOrderly x → HasReferences (x ∷ xs) }
{}

/// Where no row fails a test, and indexes lead to rows, what is to name something does.
#[tactic(auto, using(crate::proofs::RuleLaws::is_named))]
pub fn set_is_named()
    ensures { (s : Assemblies) → KeepsRules s → HasIndexes s → IsNamed s }
{}

/// Where no row fails a test, interfaces are types, and rows of MethodImpl and MethodSpec name methods.
#[tactic(auto, using(crate::proofs::DescribedLaws::is_described))]
pub fn set_is_described()
    ensures { (s : Assemblies) → KeepsRules s → HasMethodIndexes s → IsDescribed s }
{}

/// No type of a grown program is above itself, where none was.
#[tactic(auto, using(crate::proofs::GrownRankLaws::grown_ranked))]
pub fn grown_is_ranked()
    ensures { (p q : Program) → KeepsProgram p q → Ranked p → NamesOwn p → NamesNone p q → BasesBelow p q → Ranked q }
{}

/// Attributes say the same where no CustomAttribute row is appended.
pub fn grown_says_alike()
    ensures { (x x' : Assembly) (xs : List Assembly) → IsGrown x x' → IsOrderly x → KeepsRules (x ∷ xs) → HasAttributes x → ((name : Name) → is_value (x' ∷ xs) name ≡ is_value (x ∷ xs) name) → SaysAlike (x ∷ xs) (x' ∷ xs) }
{}
