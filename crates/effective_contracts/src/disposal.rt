// Dispose of System.IDisposable.

ghost use Rattle.std.specs.Prelude.{◌≡◌, ◌==◌, ◌&&◌, ◌||◌, codes, filter};
ghost use Rattle.cil_model.specs.declared.ty.Ty.{out-Ty};
ghost use Rattle.cil_model.specs.declared.program.Impl.{Impl};
ghost use Rattle.cil_semantics.specs.Dispatch.{is_virtual};
ghost use Rattle.cil_semantics.specs.Lookups.{method_of, type_of};
ghost use Rattle.cil_semantics.specs.Types.{is_outside};
ghost use Rattle.cil_semantics.specs.Words.{any};
ghost use Rattle.effective_contracts.specs.Invariants.{disposes, dispose_rows, has_no_row, is_bare, is_disposable, is_dispose_row, is_like_dispose};

use crate::facts::{is_bare, is_public};
use cil_model::{Impl, MethodDesc, Program, Ty, TypeDesc};

fn is_outside(name: &[u8], ty: &Ty) -> bool
    ensures { result ≡ is_outside name.now (out-Ty ty.now) }
{
    match ty {
        Ty::Outside { name: other, .. } => name == other.as_slice(),
        _ => false,
    }
}

fn is_disposable(ty: &Ty) -> bool
    ensures { result ≡ is_disposable ty.now }
{
    is_outside(b"System.IDisposable", ty)
}

fn is_any_disposable(types: &[Ty]) -> bool
    ensures { result ≡ any is_disposable types.now }
{
    for ty in types {
        if is_disposable(ty) {
            return true;
        }
    }
    false
}

#[tactic(auto, unfolding(cil_semantics::specs::Lookups::no_method))]
fn is_called_dispose(program: &Program, m: u32) -> bool
    ensures { result ≡ is_bare (codes "Dispose") (method_of program.now m) }
{
    match program.methods.get(m as usize) {
        Some(method) => is_bare(b"Dispose", method),
        None => false,
    }
}

fn is_dispose_row(program: &Program, row: &Impl) -> bool
    ensures { result ≡ is_dispose_row program.now row.now }
{
    is_disposable(&row.owner) && is_called_dispose(program, row.declaration)
}

/// Whether a row for Dispose names the method.
fn is_named(program: &Program, rows: &[Impl], m: u32) -> bool
    ensures { result ≡ any (λ (i : Impl). i.body == m) (filter (is_dispose_row program.now) rows.now) }
{
    for row in rows {
        if is_dispose_row(program, row) && row.body == m {
            return true;
        }
    }
    false
}

fn has_no_row(program: &Program, rows: &[Impl]) -> bool
    ensures { result ≡ has_no_row (filter (is_dispose_row program.now) rows.now) }
{
    for row in rows {
        if is_dispose_row(program, row) {
            return false;
        }
    }
    true
}

fn is_virtual(method: &MethodDesc) -> bool
    ensures { result ≡ is_virtual method.now }
{
    method.flags / 64 % 2 == 1
}

fn is_like_dispose(method: &MethodDesc) -> bool
    ensures { result ≡ is_like_dispose method.now }
{
    is_public(method)
        && is_virtual(method)
        && !method.is_static
        && method.generics == 0
        && matches!(method.result, Ty::Prim(0x01))
}

fn disposes_in(program: &Program, m: u32, method: &MethodDesc, desc: &TypeDesc) -> bool
    ensures { result ≡ (any (λ (i : Impl). i.body == m) (dispose_rows program.now desc.now) || (has_no_row (dispose_rows program.now desc.now) && (any is_disposable desc.now.interfaces && is_like_dispose method.now))) }
{
    let rows = desc.impls.as_slice();
    is_named(program, rows, m)
        || has_no_row(program, rows)
            && is_any_disposable(desc.interfaces.as_slice())
            && is_like_dispose(method)
}

/// Whether a method implements System.IDisposable.Dispose.
#[tactic(auto, unfolding(cil_semantics::specs::Lookups::contract_exception))]
pub(crate) fn disposes(program: &Program, m: u32, method: &MethodDesc) -> bool
    requires { method.now ≡ method_of program.now m }
    ensures { result ≡ disposes program.now m }
{
    if !is_bare(b"Dispose", method) {
        return false;
    }
    match program.types.get(method.owner as usize) {
        Some(desc) => disposes_in(program, m, method, desc),
        None => false,
    }
}
