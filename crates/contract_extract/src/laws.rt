// Laws on own contracts.

ghost use Rattle.std.specs.Prelude.{◌≡◌, ℕ};
ghost use Rattle.cil_base.specs.declared.refusal.Refusal.{Refusal};
ghost use Rattle.cil_model.specs.declared.contract.Contract.{Contract};
ghost use Rattle.cil_model.specs.declared.program.Program.{Program};
ghost use Rattle.contract_extract.specs.Methods.{HasContract, BreaksContract};

/// A method has at most one contract, and none where it breaks a rule.
pub fn contract_is_unique()
    ensures one { (p : Program) (m : ℕ) (x y : Contract) → HasContract p m x → HasContract p m y → x ≡ y }
    ensures unbroken { (p : Program) (m : ℕ) (x : Contract) (r : Refusal) → HasContract p m x → BreaksContract p m r → ⊥ }
{}
