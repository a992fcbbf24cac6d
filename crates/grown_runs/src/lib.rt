//! A run of the input, with its contracts, is the same where its tables have grown.
#![tactic(auto)]

ghost use Rattle.std.specs.Prelude.{◌≡◌, ℕ, ◌<◌, List, length};
ghost use Rattle.cil_model.specs.declared.contract.Contracts.{Contracts};
ghost use Rattle.cil_model.specs.declared.program.MethodDesc.{MethodDesc};
ghost use Rattle.cil_model.specs.declared.program.Program.{Program};
ghost use Rattle.cil_model.specs.declared.ty.Ty.{Ty};
ghost use Rattle.cil_model.specs.declared.value.Value.{Value};
ghost use Rattle.cil_semantics.specs.Calls.{core_of};
ghost use Rattle.cil_semantics.specs.Checks.{AddedNumbers};
ghost use Rattle.cil_semantics.specs.Lookups.{method_of};
ghost use Rattle.cil_semantics.specs.Outside.{is_outside};
ghost use Rattle.cil_semantics.specs.Places.{default_value, storage, stored_in};
ghost use Rattle.machine_laws.specs.Answers.{IsOld};
ghost use Rattle.splice_facts.specs.Related.{Rewritten};
ghost use Rattle.grown_runs.specs.Grown.{GrowsAround, IsGrownInput};
ghost use Rattle.grown_runs.specs.Looks.{LooksAlike};
ghost use Rattle.grown_runs.specs.Runs.{RunsAlike};

/// Whatever the type, what a place of it holds, what a store leaves there and what it begins with stay.
pub fn places_stay()
    ensures kinds { (p0 p : Program) → IsGrownInput p0 p → (t : Ty) → storage p t ≡ storage p0 t }
    ensures stores { (p0 p : Program) → IsGrownInput p0 p → (t : Ty) (v : Value) → stored_in p t v ≡ stored_in p0 t v }
    ensures defaults { (p0 p : Program) → IsGrownInput p0 p → (t : Ty) → default_value p t ≡ default_value p0 t }
{}

/// Which methods of the input are outside and which of its members are core members stays.
#[tactic(auto, using(crate::proofs::NameLaws::outside_same, crate::proofs::NameLaws::core_same))]
pub fn members_stay()
    ensures outside { (p0 p : Program) → IsGrownInput p0 p → (m : ℕ) → m < length p0.methods → (method_of p0 m).owner < length p0.types → is_outside p m ≡ is_outside p0 m }
    ensures core { (p0 p : Program) → IsGrownInput p0 p → (owner : Ty) (m : ℕ) → m < length p0.methods → IsOld p0 owner → core_of p owner m ≡ core_of p0 owner m }
{}

/// On what a run of the input holds, each look-up answers as in the input.
#[tactic(auto, using(crate::proofs::LookLaws::looks_alike))]
pub fn look_ups_stay()
    ensures { (p0 p : Program) (k : Contracts) (exception : ℕ) → GrowsAround p0 p k exception → LooksAlike p0 p exception }
{}

/// The runs of the input's entries with its contracts are those of the program with the tables of the output.
pub fn input_runs_stay()
    ensures { (p0 p : Program) (k : Contracts) (ms : List MethodDesc) (g : AddedNumbers) (r : Rewritten p k ms g) → GrowsAround p0 p k g.exception → r.types ≡ length p0.types → r.methods ≡ length p0.methods → RunsAlike p0 p k g }
{}
