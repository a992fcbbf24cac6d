// How far steps lead where no node leads back to itself.
ghost use Rattle.std.specs.Prelude.{◌≡◌, ◌==◌, ℕ, ◌<◌, true, false, List};
ghost use Rattle.set_names.specs.Cycles.{any, reaches, is_deep};

/// Where no node leads back to itself, and each leads to some of the first so many, not so many steps lead from one of these.
#[tactic(auto, using(crate::proofs::DepthLaws::shallow))]
pub fn no_circle_is_shallow()
    ensures { (next : ℕ → List ℕ) (n : ℕ) → ((k j : ℕ) → any (λ i. i == j) (next k) ≡ true → j < n) → ((k : ℕ) → reaches next n k k ≡ false) → (k : ℕ) → k < n → is_deep next n k ≡ false }
{}
