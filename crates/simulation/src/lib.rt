//! Copied instructions, and exceptions that go down the frames, in the run of an input with its
//! contracts and in the plain run of the written program.
#![tactic(auto)]

ghost use Rattle.std.specs.Prelude.{List, ◌≡◌, ℕ, length};
ghost use Rattle.cil_model.specs.declared.body.Instr.{Instr};
ghost use Rattle.cil_model.specs.declared.contract.Contracts.{Contracts};
ghost use Rattle.cil_model.specs.declared.program.MethodDesc.{MethodDesc};
ghost use Rattle.cil_model.specs.declared.program.Program.{Program};
ghost use Rattle.cil_semantics.specs.Checks.{AddedNumbers};
ghost use Rattle.cil_semantics.specs.Instructions.{act};
ghost use Rattle.cil_semantics.specs.Tokens.{Here};
ghost use Rattle.cil_semantics.specs.declared.state.Cell.{Cell};
ghost use Rattle.cil_semantics.specs.declared.state.Local.{Local};
ghost use Rattle.cil_semantics.specs.declared.state.Statics.{Statics};
ghost use Rattle.cil_semantics.specs.declared.state.World.{World};
ghost use Rattle.il_opcodes.specs.Opcodes.{class_of};
ghost use Rattle.splice_facts.specs.Bodies.{with_methods, SameMethods};
ghost use Rattle.splice_facts.specs.Grown.{grow, beside, grow_act, IsCopy, NamesLocals};
ghost use Rattle.splice_facts.specs.Related.{Rewritten, Unwinds_alike};
ghost use Rattle.simulation.specs.Alike.{ArrivesAlike, PushesAlike};

/// What a copied instruction wants in the grown frame is what the old one wants, grown.
#[tactic(auto, using(crate::proofs::ActLaws::act_grow))]
pub fn copies_act_alike()
    ensures { (p : Program) (ms : List MethodDesc) (to : ℕ → ℕ) (ex : List Cell) (ss : List Statics) (here : Here) (i i' : Instr) (w : World) (l : Local) → SameMethods p ms → IsCopy p (with_methods p ms) here.method to i i' → NamesLocals (length l.locals) (class_of i.op) i.operand
        → act (with_methods p ms) here i' (beside ss w) (grow ex l) ≡ grow_act to ex (act p here i w l) }
{}

/// Over a written program: a frame arrives at a place, an exception goes down the frames, and a value
/// is pushed in the frame below, in both runs alike.

pub fn frames_go_alike()
    ensures arriving { (p : Program) (k : Contracts) (ms : List MethodDesc) (g : AddedNumbers) (r : Rewritten p k ms g) → ArrivesAlike p k ms g r }
    ensures unwinding { (p : Program) (k : Contracts) (ms : List MethodDesc) (g : AddedNumbers) (r : Rewritten p k ms g) → Unwinds_alike p k ms g r }
    ensures pushing { (p : Program) (k : Contracts) (ms : List MethodDesc) (g : AddedNumbers) (r : Rewritten p k ms g) → PushesAlike p k ms g r }
{}
