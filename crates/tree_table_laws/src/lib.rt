//! Laws of the table of a tree: it breaks no rule on regions.
#![tactic(auto)]

ghost use Rattle.std.specs.Prelude.{◌≡◌, ◌≤◌, ◌+◌, ◌++◌, ◌∷◌, [], ℕ, List, All, Some, false, length, slice_get};
ghost use Rattle.cil_base.specs.declared.refusal.Place.{Place};
ghost use Rattle.cil_base.specs.Refusals.{NoneBroken};
ghost use Rattle.cil_model.specs.declared.body.Body.{Body};
ghost use Rattle.cil_model.specs.declared.body.Instr.{Instr};
ghost use Rattle.cil_model.specs.declared.tree.Block.{Block};
ghost use Rattle.cil_model.specs.declared.tree.Block.TheVariants.{Code};
ghost use Rattle.cil_model.specs.declared.tree.Tree.{Tree};
ghost use Rattle.il_flow.specs.Successors.{successors};
ghost use Rattle.region_tree.specs.Trees.{StandsForBody, body_of_tree, clauses, code};
ghost use Rattle.region_tree.specs.Rules.{BreaksControl, is_filter};
ghost use Rattle.region_tree.specs.Wrapping.{Wraps};
ghost use Rattle.tree_table_laws.specs.Flow.{ControlStays};
ghost use Rattle.tree_table_laws.specs.Tables.{BreaksNesting, HaveCode, LieWithin, height};
ghost use Rattle.tree_table_laws.specs.Wrapped.{FitsWrapping, StaysBehind};
ghost use Rattle.cil_model.specs.declared.tree.Handler.{Handler};

/// The table of a tree breaks no rule on how regions lie, where each try and each handler has code, and none lies
/// over 1,000 deep (ECMA-335, I.12.4.2.7).
#[tactic(auto, using(crate::proofs::TableLaws::none_broken))]
pub fn tree_tables_nest()
    ensures { (place : Place) (t : Tree) → HaveCode (clauses 0 t.blocks) → LieWithin 1000 (clauses 0 t.blocks) → NoneBroken (BreaksNesting place (body_of_tree t)) }
{}

/// The body of a tree breaks none of X1 to X4 where besides it has no filter, and control stays in it
/// (ECMA-335, III.1.7.5).
#[tactic(auto, using(crate::proofs::BodyFlowLaws::none_broken))]
pub fn tree_tables_break_nothing()
    ensures { (place : Place) (t : Tree) → HaveCode (clauses 0 t.blocks) → LieWithin 1000 (clauses 0 t.blocks) → All (λ r. is_filter r.kind ≡ false) (clauses 0 t.blocks) → ControlStays t.blocks → NoneBroken (BreaksControl place (body_of_tree t)) }
{}

/// Where a tree's body breaks none of X1 to X4, and control goes to places of the code or to its end alone, control
/// stays in it.
pub fn control_stays_in_unbroken_trees()
    ensures { (place : Place) (t : Tree) → NoneBroken (BreaksControl place (body_of_tree t)) → ((k : ℕ) (i : Instr) → slice_get (code t.blocks) k ≡ Some i → All (λ s. s ≤ length (code t.blocks)) (successors k i)) → ControlStays t.blocks }
{}

/// No clause lies deeper than so many protected blocks of the tree lie in one another.
#[tactic(auto, using(crate::proofs::HeightLaws::within_height))]
pub fn depths_are_within_height()
    ensures { (at : ℕ) (bs : List Block) → HaveCode (clauses at bs) → LieWithin (height bs) (clauses at bs) }
{}

/// Of a body that breaks none of X1 to X4 the tree's own body breaks none either, and no clause lies deeper in its
/// table.
pub fn trees_of_bodies_break_nothing()
    ensures unbroken { (place : Place) (t : Tree) (b : Body) → StandsForBody t b → NoneBroken (BreaksControl place b) → NoneBroken (BreaksControl place (body_of_tree t)) }
    ensures depths { (place : Place) (t : Tree) (b : Body) (most : ℕ) → StandsForBody t b → NoneBroken (BreaksControl place b) → LieWithin most b.regions → LieWithin most (clauses 0 t.blocks) }
{}

/// Where a tree's body breaks none of X1 to X4, neither does the body whose code from a place on is wrapped
/// (ECMA-335, III.1.7.5).
#[tactic(auto, using(crate::proofs::WrappedLaws::none_broken))]
pub fn wrapping_breaks_nothing()
    ensures { (place : Place) (t new : Tree) (from : ℕ) (h : Handler) → FitsWrapping t from h → Wraps t from h new → NoneBroken (BreaksControl place (body_of_tree t)) → NoneBroken (BreaksControl place (body_of_tree new)) }
{}

/// Straight code behind the code of a tree, as that to which a wrapped part leaves, breaks nothing either.
#[tactic(auto, using(crate::proofs::AppendedLaws::none_broken))]
pub fn code_behind_breaks_nothing()
    ensures { (place : Place) (t new : Tree) (more : List Instr) → new.blocks ≡ t.blocks ++ Code more ∷ [] → ((k : ℕ) (i : Instr) → slice_get more k ≡ Some i → StaysBehind (length (code t.blocks)) (length (code t.blocks) + k) i) → NoneBroken (BreaksControl place (body_of_tree t)) → NoneBroken (BreaksControl place (body_of_tree new)) }
{}
