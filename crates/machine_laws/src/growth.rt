// What types, names and numbers of a program are to be, and what a grown program keeps.

ghost use Rattle.std.specs.Prelude.{◌≡◌, ◌<◌, ◌==◌, ℕ, Bool, false, List, Some, IsTrue, length};
ghost use Rattle.cil_model.specs.declared.contract.ClauseKind.TheVariants.{RequiresOf};
ghost use Rattle.cil_model.specs.declared.contract.Contracts.{Contracts};
ghost use Rattle.cil_model.specs.declared.program.Program.{Program};
ghost use Rattle.cil_model.specs.declared.ty.Ty.{Ty};
ghost use Rattle.cil_model.specs.declared.value.Value.{Value};
ghost use Rattle.cil_semantics.specs.declared.state.Frame.{Frame};
ghost use Rattle.cil_semantics.specs.declared.state.World.{World};
ghost use Rattle.cil_semantics.specs.Checks.{AddedNumbers, Failure, Sequel, fail_with};
ghost use Rattle.cil_semantics.specs.Core.{Name};
ghost use Rattle.cil_semantics.specs.Lookups.{method_of};
ghost use Rattle.cil_semantics.specs.Tokens.{nests_little};
ghost use Rattle.machine_laws.specs.Answers.{NamesOwn, NamesNone, AnswersAlike};
ghost use Rattle.machine_laws.specs.Growth.{Ranked, LooksFarEnough, Extends};
ghost use Rattle.machine_laws.specs.Kinds.{OneKind};
ghost use Rattle.machine_laws.specs.Same.{KeepsIdentities, Same, IsConstructor, IsFailureClass};

/// Where no type is above itself, by bases and interfaces together, looking further finds no more.
#[tactic(auto, using(crate::proofs::RankLaws::far_enough))]
pub fn looks_far_enough()
    ensures { (p : Program) → Ranked p → LooksFarEnough p }
{}

/// Types that are added change no answer on the types that were there: their bases and what stands
/// above them, the places of their fields, the slots of methods and their bodies.
#[tactic(auto, using(crate::proofs::FindLaws::answers_alike))]
pub fn answers_stay()
    ensures { (p q : Program) → Extends p q → NamesOwn p → NamesNone p q → AnswersAlike p q }
{}

/// What a grown program keeps has its identities.
#[tactic(auto, using(crate::proofs::IdentityLaws::identities))]
pub fn grown_keeps_identities()
    ensures { (p q : Program) → Extends p q → KeepsIdentities p q }
{}

/// Where an outside type's kind belongs to its name, the places of one type hold one kind of value.
#[tactic(auto, using(crate::proofs::KindLaws::one_kind))]
pub fn kinds_belong_to_names()
    ensures { (p : Program) (is_value : Name → Bool) → OneKind p is_value }
{}

/// What same behaviour says of the names that a rewriting adds.
pub fn added_names()
    ensures constructor { (p : Program) (k : Contracts) (p' : Program) (s : Same p k p') (name : Name) → s.numbers.constructor name < length p'.methods → IsConstructor p' (s.numbers.constructor name) name }
    ensures class { (p : Program) (k : Contracts) (p' : Program) (s : Same p k p') → s.numbers.exception < length p'.types → IsFailureClass p' s.numbers.exception k.target }
    ensures helpers { (p : Program) (k : Contracts) (p' : Program) (s : Same p k p') → s.numbers.event < length p'.methods → IsTrue (method_of p' s.numbers.event).is_static }
    ensures signatures { (p : Program) (k : Contracts) (p' : Program) (s : Same p k p') (i j : ℕ) → i < length p.methods → j < length p.methods → ((method_of p' i).sig == (method_of p' j).sig) ≡ ((method_of p i).sig == (method_of p j).sig) }
{}

/// A failed Requires<E> whose E nests over 1,000 deep makes nothing.
#[tactic(auto, using(crate::proofs::FailureLaws::deep_exception_stops))]
pub fn deep_exceptions()
    ensures { (p : Program) (g : AddedNumbers) (throwing : Bool) (x : Failure) (s : Sequel) (t : Ty) (text : Value) (fs : List Frame) (w : World) → x.exception ≡ Some t → nests_little t ≡ false → fail_with p g throwing x s RequiresOf text fs w ≡ s.stops w }
{}
