// Which definition a closed type is of.

ghost use Rattle.std.specs.Prelude.{◌≡◌, false, is_some};
ghost use Rattle.cil_model.specs.declared.ty.Ty.{out-Ty};
ghost use Rattle.cil_semantics.specs.Lookups.{type_of, method_of};
ghost use Rattle.cil_semantics.specs.Types.{is_prim, is_outside};
ghost use Rattle.cil_semantics.specs.Words.{maybe};
ghost use Rattle.contract_parts.specs.Parts.{type_number, same_definition, is_it, is_own_or_base, is_constructor_name, is_nested_generated};

use crate::locals::is_it;
use cil_model::{Program, Ty};

/// The number of a type of the set.
pub fn type_number(ty: &Ty) -> Option<u32>
    ensures { result ≡ type_number ty.now }
{
    match ty {
        Ty::Known(k) => Some(*k),
        Ty::Inst { ty, .. } => Some(*ty),
        _ => None,
    }
}

fn is_prim(code: u8, ty: &Ty) -> bool
    ensures { result ≡ is_prim code (out-Ty ty.now) }
{
    match ty {
        Ty::Prim(other) => code == *other,
        _ => false,
    }
}

/// The type is System.Object.
pub(crate) fn is_object(ty: &Ty) -> bool
    ensures { result ≡ is_prim 0x1C (out-Ty ty.now) }
{
    is_prim(0x1C, ty)
}

fn is_outside(name: &[u8], ty: &Ty) -> bool
    ensures { result ≡ is_outside name.now (out-Ty ty.now) }
{
    match ty {
        Ty::Outside { name: other, .. } => name == other.as_slice(),
        _ => false,
    }
}

fn same_definition(a: &Ty, b: &Ty) -> bool
    ensures { result ≡ same_definition (out-Ty a.now) (out-Ty b.now) }
{
    match a {
        Ty::Prim(code) => is_prim(*code, b),
        Ty::Outside { name, .. } => is_outside(name.as_slice(), b),
        Ty::Known(k) => is_it(*k, type_number(b)),
        Ty::Inst { ty, .. } => is_it(*ty, type_number(b)),
        _ => false,
    }
}

/// The owner is the base of a type.
fn is_base(p: &Program, k: u32, owner: &Ty) -> bool
    ensures { result ≡ maybe false (λ base. same_definition (out-Ty base) (out-Ty owner.now)) (type_of p.now k).base }
{
    match p.types.get(k as usize) {
        Some(desc) => match &desc.base {
            Some(base) => same_definition(base, owner),
            None => false,
        },
        None => is_outside(b"System.Exception", owner),
    }
}

/// The owner is a type or its base.
pub(crate) fn is_own_or_base(p: &Program, k: u32, owner: &Ty) -> bool
    ensures { result ≡ is_own_or_base p.now k owner.now }
{
    is_it(k, type_number(owner)) || is_base(p, k, owner)
}

/// A nested type that a compiler made.
#[tactic(auto, unfolding(cil_semantics::specs::Lookups::contract_exception))]
pub(crate) fn is_nested_generated(p: &Program, k: u32) -> bool
    ensures { result ≡ is_nested_generated p.now k }
{
    match p.types.get(k as usize) {
        Some(desc) => desc.generated && desc.enclosing.is_some(),
        None => false,
    }
}
