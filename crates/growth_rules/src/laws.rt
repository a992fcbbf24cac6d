// What a set that was read and breaks no rule keeps where rows are appended to TARGET.
ghost use Rattle.std.specs.Prelude.{ℕ, ◌<◌, ◌≤◌, true, length, get_or, map, List, [], ◌∷◌};
ghost use Rattle.cil_base.specs.Refusals.{NoneBroken};
ghost use Rattle.cli_tables.specs.Schema.{columns_of};
ghost use Rattle.cli_tables.specs.Stream.{kind_of};
ghost use Rattle.assembly.specs.Assemblies.{IsReadable};
ghost use Rattle.set_rows.specs.Sets.{Assembly, Assemblies, assembly_of, count_in, cell};
ghost use Rattle.set_blobs.specs.BadBlobs.{BreaksBlobs};
ghost use Rattle.name_rules.specs.NameTests.{BreaksNames};
ghost use Rattle.set_check.specs.Sets.{assemblies_of};
ghost use Rattle.set_check.specs.Sets as checked;
ghost use Rattle.descriptions.specs.Programs.{program_of};
ghost use Rattle.machine_laws.specs.Answers.{NamesOwn};
ghost use Rattle.machine_laws.specs.Growth.{Ranked, Extends};
ghost use Rattle.set_growth.specs.Orderly.{IsOrderly};
ghost use Rattle.program_growth.specs.Kept.{KeepsProgram};
ghost use Rattle.growth_premises.specs.Attributes.{HasAttributes};
ghost use Rattle.growth_premises.specs.Places.{NestsInTypes};
ghost use Rattle.growth_premises.specs.Rules.{KeepsRules, HasIndexes, HasMethodIndexes};
ghost use Rattle.growth_rules.specs.Reading.{IsRead, LeadsTo};
ghost use Rattle.growth_rules.specs.Sound.{IsSound};
ghost use Rattle.growth_rules.specs.Appended.{IsAppended};

/// Each index of a row leads where its column says (M5).
#[tactic(auto, using(crate::proofs::IndexLaws::leads_on))]
pub fn index_leads()
    ensures { (x : Assembly) → IsRead x → (table row column : ℕ) → 1 ≤ row → row ≤ count_in x table → column < length (columns_of table) → LeadsTo x (kind_of table column) (cell x table row column) }
{}

/// Files that were read, in which no rule on blobs and names is broken, are such a set.
pub fn read_set_is_sound()
    ensures { (set : List (List ℕ)) → ((a : ℕ) → a < length set → IsReadable (get_or set a []) a) → NoneBroken (BreaksBlobs (map assembly_of set)) → NoneBroken (BreaksNames (map assembly_of set) true) → IsSound (map assembly_of set) }
{}

/// The files of a set that `checked_set` accepts are such a set.
pub fn checked_set_is_sound()
    ensures { (set : List (List ℕ)) → checked.IsSound true set → IsSound (assemblies_of set) }
{}

/// No row fails a test of a rule on names (N1 to N4, N6).
#[tactic(auto, using(crate::proofs::SoundRowLaws::keeps_rules))]
pub fn sound_set_keeps_rules()
    ensures { (s : Assemblies) → IsSound s → KeepsRules s }
{}

/// Signatures are of their row's kind (S1), and bases and parents lead to rows (M5).
#[tactic(auto, using(crate::proofs::SoundLaws::has_indexes))]
pub fn sound_set_has_indexes()
    ensures { (s : Assemblies) → IsSound s → HasIndexes s }
{}

/// Interfaces, and what rows of MethodImpl and MethodSpec name, are rows or 0 (M5).
#[tactic(auto, using(crate::proofs::SoundLaws::has_method_indexes))]
pub fn sound_set_has_method_indexes()
    ensures { (s : Assemblies) → IsSound s → HasMethodIndexes s }
{}

/// NestedClass rows nest types in types that are there (M5).
#[tactic(auto, using(crate::proofs::SoundLaws::nests))]
pub fn sound_set_nests_in_types()
    ensures { (s : Assemblies) → IsSound s → NestsInTypes s }
{}

/// Indexes and lists of TARGET keep to rows (M5), its types have full names (N3), and none is the
/// runtime class (N5).
pub fn sound_target_is_orderly()
    ensures { (x : Assembly) (xs : List Assembly) → IsSound (x ∷ xs) → IsOrderly x }
{}

/// Constructors of TARGET's attributes and parents of its MemberRef rows keep to rows (M5).
pub fn sound_target_has_attributes()
    ensures { (x : Assembly) (xs : List Assembly) → IsSound (x ∷ xs) → HasAttributes x }
{}

/// No type of the program of a set is above itself, by bases and interfaces together (N3).
pub fn sound_set_is_ranked()
    ensures { (x : Assembly) (xs : List Assembly) → IsSound (x ∷ xs) → Ranked (program_of (x ∷ xs)) }
{}

/// The types of the program of a set name bases, interfaces, fields and methods of the program (N1 to N3).
pub fn sound_set_names_own()
    ensures { (x : Assembly) (xs : List Assembly) → IsSound (x ∷ xs) → NamesOwn (program_of (x ∷ xs)) }
{}

/// The program of a set to whose TARGET rows are appended has the old descriptions at the old numbers,
/// but for bodies and access, and old tokens mean the same.
pub fn sound_set_keeps_program()
    ensures { (x : Assembly) (xs : List Assembly) → IsSound (x ∷ xs) → (x' : Assembly) → IsAppended x x' xs → KeepsProgram (program_of (x ∷ xs)) (program_of (x' ∷ xs)) }
{}

/// It extends the program of the set.
pub fn sound_set_extends()
    ensures { (x : Assembly) (xs : List Assembly) → IsSound (x ∷ xs) → (x' : Assembly) → IsAppended x x' xs → Extends (program_of (x ∷ xs)) (program_of (x' ∷ xs)) }
{}
