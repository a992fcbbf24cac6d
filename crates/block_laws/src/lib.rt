//! Laws of finished blocks to which one more clause is added.
#![tactic(auto)]

ghost use Rattle.std.specs.Prelude.{◌≡◌, ◌+◌, ℕ, List, [], ◌∷◌, ◌++◌, All, IsPermutation, filter, length, true};
ghost use Rattle.cil_model.specs.declared.body.Region.{Region};
ghost use Rattle.cil_model.specs.declared.body.RegionKind.{RegionKind};
ghost use Rattle.cil_model.specs.declared.tree.Block.{Block};
ghost use Rattle.cil_model.specs.declared.tree.Block.TheVariants.{Guarded};
ghost use Rattle.cil_model.specs.declared.tree.Handler.{Handler};
ghost use Rattle.region_tree.specs.Nesting.{handler_start, have_same_try, is_misplaced, is_nested};
ghost use Rattle.region_tree.specs.Trees.{HandlerPart, clauses, code, handler_parts, handlers_code, own_clauses, part};
ghost use Rattle.block_laws.specs.Blocks.{CutsNothing, HasParts, LiesWhole, MayPrecede};
ghost use Rattle.block_laws.specs.Growth.{SearchesLike, clause_behind};

/// A block whose clauses may all come before another one lies whole in a part of it, or outside of both, and no
/// part of the later clause begins or ends within the block.
#[tactic(auto, using(crate::proofs::BlockLaws::block_lies_whole, crate::proofs::BlockLaws::cuts_nothing))]
pub fn blocks_lie_whole()
    ensures whole { (r : Region) (from : ℕ) (inner : List Block) (h : Handler) (hs : List Handler) → HasParts r → All (MayPrecede r) (own_clauses from (from + length (code inner)) (from + length (code inner)) (handler_parts (h ∷ hs))) → LiesWhole r from (from + length (part (Guarded inner (h ∷ hs))).code) }
    ensures cuts { (r : Region) (from to : ℕ) → HasParts r → LiesWhole r from to → CutsNothing r from to }
{}

/// Where the earlier clauses of a try are a block's own, the next handler begins at the block's end.
#[tactic(auto, using(crate::proofs::BlockLaws::handler_follows))]
pub fn handlers_follow()
    ensures { (r : Region) (earlier : List Region) (from : ℕ) (hs : List HandlerPart) → filter (λ d. have_same_try d r) earlier ≡ own_clauses from r.try_to r.try_to hs → handler_start earlier r ≡ r.try_to + length (handlers_code hs) }
{}

/// A clause of the same try comes before any in which its try's block is nested.
#[tactic(auto, using(crate::proofs::NestedLaws::stays_outmost))]
pub fn tries_stay_outmost()
    ensures { (earlier around r : Region) → HasParts earlier → HasParts around → HasParts r → is_nested earlier around ≡ true → have_same_try earlier r ≡ true → is_misplaced around r ≡ true }
{}

/// Where blocks become a protected block and its first handler, or one more handler of a block in front of them, a
/// search takes the handlers that it took, and then the new one (ECMA-335, I.12.4.2.5).
#[tactic(auto, using(crate::proofs::GrowthLaws::first_handler, crate::proofs::GrowthLaws::another_handler))]
pub fn searches_grow()
    ensures first { (kind : RegionKind) (front inner own back : List Block) (rows : List Region) → SearchesLike (front ++ (inner ++ (own ++ back))) rows → SearchesLike (front ++ Guarded inner (record { kind = kind; blocks = own } ∷ []) ∷ back) (rows ++ clause_behind kind front inner [] own ∷ []) }
    ensures another { (kind : RegionKind) (front inner own back : List Block) (hs : List Handler) (rows : List Region) → SearchesLike (front ++ Guarded inner hs ∷ (own ++ back)) rows → SearchesLike (front ++ Guarded inner (hs ++ record { kind = kind; blocks = own } ∷ []) ∷ back) (rows ++ clause_behind kind front inner hs own ∷ []) }
{}

/// The code stays as it was.
#[tactic(auto, using(crate::proofs::CodeLaws::first_keeps_code, crate::proofs::CodeLaws::another_keeps_code))]
pub fn code_stays()
    ensures first { (kind : RegionKind) (front inner own back : List Block) → code (front ++ Guarded inner (record { kind = kind; blocks = own } ∷ []) ∷ back) ≡ code (front ++ (inner ++ (own ++ back))) }
    ensures another { (kind : RegionKind) (front inner own back : List Block) (hs : List Handler) → code (front ++ Guarded inner (hs ++ record { kind = kind; blocks = own } ∷ []) ∷ back) ≡ code (front ++ Guarded inner hs ∷ (own ++ back)) }
{}

/// The clauses of the blocks are those that they had and the new one.
#[tactic(auto, using(crate::proofs::ClauseLaws::first_keeps_clauses, crate::proofs::ClauseLaws::another_keeps_clauses))]
pub fn clauses_grow()
    ensures first { (kind : RegionKind) (front inner own back : List Block) → IsPermutation (clauses 0 (front ++ (inner ++ (own ++ back))) ++ clause_behind kind front inner [] own ∷ []) (clauses 0 (front ++ Guarded inner (record { kind = kind; blocks = own } ∷ []) ∷ back)) }
    ensures another { (kind : RegionKind) (front inner own back : List Block) (hs : List Handler) → IsPermutation (clauses 0 (front ++ Guarded inner hs ∷ (own ++ back)) ++ clause_behind kind front inner hs own ∷ []) (clauses 0 (front ++ Guarded inner (hs ++ record { kind = kind; blocks = own } ∷ []) ∷ back)) }
{}
