// Initializers that end with an exception (ECMA-335, II.10.5.3.1).

ghost use Rattle.std.specs.Prelude.{ℕ, ◌≡◌, ◌∷◌, ◌++◌, [], ◌<◌, length, slice_get, slice_set, Some, OnOk};
ghost use Rattle.cil_semantics.specs.Unwind.{with_failed};
ghost use Rattle.cil_semantics.specs.declared.Statics.{Statics as StaticsOf};
ghost use Rattle.cil_semantics.specs.declared.Init.TheVariants.{Failed};
ghost use Rattle.run_unwind.specs.Unwound.{failed_statics};

use cil_model::Ty;
use cil_semantics::{Cells, Init, Statics, StaticsList, World};
use run_places::place_of_owner;
use std::alloc::{AllocError, Global};

fn push_failed(
    alloc: Global,
    ty: &Ty,
    exception: u32,
    statics: &mut StaticsList,
) -> Result<(), AllocError>
    ensures { OnOk result (statics.new ≡ statics.old ++ record { owner = ty.now; init = Some (Failed exception); cells = [] } ∷ []) }
{
    statics.push(Statics {
        owner: ty.copied(alloc)?,
        init: Some(Init::Failed(exception)),
        cells: Cells::new(alloc),
    })?;
    Ok(())
}

fn fail_in(
    alloc: Global,
    ty: &Ty,
    exception: u32,
    statics: &mut StaticsList,
) -> Result<(), AllocError>
    ensures { OnOk result (statics.new ≡ failed_statics ty.now exception statics.old) }
{
    match place_of_owner(statics.as_slice(), ty) {
        None => push_failed(alloc, ty, exception, statics)?,
        Some(owner) => statics.set_init(owner, Init::Failed(exception)),
    }
    Ok(())
}

/// The initializer of a closed type ended with an exception: from now on uses throw this object.
pub fn fail_initializer(
    alloc: Global,
    ty: &Ty,
    exception: u32,
    world: &mut World,
) -> Result<(), AllocError>
    ensures { OnOk result (world.new ≡ with_failed ty.now exception world.old) }
{
    fail_in(alloc, ty, exception, &mut world.statics)?;
    Ok(())
}
