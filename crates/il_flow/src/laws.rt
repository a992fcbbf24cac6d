// Laws on the search for heights.

ghost use Rattle.std.specs.Prelude.{◌≡◌, ℕ, List, Option, true};
ghost use Rattle.std.specs.List.{list_all};
ghost use Rattle.il_opcodes.specs.Opcodes.{the_opcodes};
ghost use Rattle.il_opcodes.specs.declared.class.Class.{Class};
ghost use Rattle.cil_model.specs.declared.program.Program.{Program};
ghost use Rattle.cil_semantics.specs.declared.state.Local.{Local};
ghost use Rattle.cil_semantics.specs.declared.state.World.{World};
ghost use Rattle.cil_semantics.specs.Tokens.{Here};
ghost use Rattle.cil_semantics.specs.Instructions.{act_of_class};
ghost use Rattle.il_flow.specs.Counts.{counts, row_agrees, TakesAndLeaves};
ghost use Rattle.il_flow.specs.declared.mark.Mark.{Mark};
ghost use Rattle.cil_model.specs.declared.body.Body.{Body};
ghost use Rattle.cil_model.specs.declared.body.Instr.{Instr};
ghost use Rattle.il_flow.specs.declared.effect.Effect.{Effect};
ghost use Rattle.il_flow.specs.Heights.{Agrees, SearchFinds, height_at};

/// Where the search finds a fault, no map of heights agrees with every path.
#[tactic(auto, using(crate::proofs::NoMapLaws::no_map))]
pub fn fault_means_no_map()
    ensures { (effect : Instr → Effect) (b : Body) (q : ℕ) (height : ℕ → Option ℕ) → SearchFinds effect b (Err q) → Agrees effect b height → ⊥ }
{}

/// Where it finds none, what it leaves agrees with every path, and has no height that another such
/// map hasn't: so no instruction has one that no path comes to.
#[tactic(auto, using(crate::proofs::MapLaws::found_map, crate::proofs::MapLaws::least_map))]
pub fn search_finds_least_map()
    ensures agrees { (effect : Instr → Effect) (b : Body) (ms : List Mark) → SearchFinds effect b (Ok ms) → Agrees effect b (height_at ms) }
    ensures least { (effect : Instr → Effect) (b : Body) (height : ℕ → Option ℕ) → Agrees effect b height → (ms : List Mark) → SearchFinds effect b (Ok ms) → (q h : ℕ) → height_at ms q ≡ Some h → height q ≡ Some h }
{}

/// The table of instructions says of each how many values the machine's act takes and leaves.
#[tactic(auto, using(crate::proofs::CountLaws::table_agrees))]
pub fn table_agrees_with_counts()
    ensures { list_all row_agrees the_opcodes ≡ true }
{}

/// What the machine's act of each class takes from the stack and leaves there, where it goes on in
/// its frame.
#[tactic(auto, using(crate::proofs::ActLaws::act_leaves))]
pub fn act_keeps_count()
    ensures { (p : Program) (here : Here) (i : Instr) (w : World) (l : Local) (c : Class) → TakesAndLeaves (counts c) l (act_of_class p here i w l c) }
{}
