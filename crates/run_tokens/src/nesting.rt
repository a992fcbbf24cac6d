// How deep types nest.

ghost use Rattle.std.specs.Prelude.{◌≡◌, nat_le};
ghost use Rattle.cil_semantics.specs.Types.{nesting};
ghost use Rattle.cil_semantics.specs.Words.{all};

use cil_model::Ty;

/// Whether a type nests at most so deep.
#[cycle(nesting)]
pub fn nests_within(ty: &Ty, depth: u32) -> bool
    ensures { result ≡ nat_le (nesting ty.now) depth }
{
    if depth == 0 {
        return false;
    }
    match ty {
        Ty::Array(item) => nests_within(item.get(), depth - 1),
        Ty::ByRef(item) => nests_within(item.get(), depth - 1),
        Ty::Inst { args, .. } => all_nest_within(args.as_slice(), depth - 1),
        _ => true,
    }
}

/// Whether each type nests at most so deep.
#[cycle(nesting)]
pub fn all_nest_within(tys: &[Ty], depth: u32) -> bool
    ensures { result ≡ all (λ t. nat_le (nesting t) depth) tys.now }
{
    for ty in tys {
        if !nests_within(ty, depth) {
            return false;
        }
    }
    true
}
