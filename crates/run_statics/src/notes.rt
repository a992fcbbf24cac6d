// What a run notes of initializers (ECMA-335, II.10.5.3.1).

ghost use Rattle.std.specs.Prelude.{ℕ, ◌≡◌, ◌<◌, ◌++◌, ◌∷◌, [], length, map, slice_get, slice_set, Some, IfOk, OnOk};
ghost use Rattle.cil_model.specs.declared.ty.Ty.{Ty as TyOf};
ghost use Rattle.cil_semantics.specs.Frames.{with_begun};
ghost use Rattle.cil_semantics.specs.Places.{default_cells, static_layout};
ghost use Rattle.cil_semantics.specs.declared.state.Init.TheVariants as init;
ghost use Rattle.cil_semantics.specs.declared.Statics.{Statics as StaticsOf};
ghost use Rattle.run_statics.specs.Noted.{begun};

use crate::copies::{append_copies, copied_cells};
use cil_model::{Program, Ty};
use cil_semantics::{Cells, Init, Statics, StaticsList, World};
use run_places::{default_statics, place_of_owner};
use std::alloc::{AllocError, Global};

fn push_begun(
    alloc: Global,
    statics: &mut StaticsList,
    ty: &Ty,
    cells: Cells,
) -> Result<(), AllocError>
    ensures { OnOk result (statics.new ≡ statics.old ++ record { owner = ty.now; init = Some init.Begun; cells = cells } ∷ []) }
{
    let owner = ty.copied(alloc)?;
    statics.push(Statics {
        owner,
        init: Some(Init::Begun),
        cells,
    })?;
    Ok(())
}

// The statics, where those at a place are of this type as it is written now, and begun.
fn begun_at(
    alloc: Global,
    list: &[Statics],
    owner: usize,
    ty: &Ty,
) -> Result<StaticsList, AllocError>
    requires { owner < length list.now }
    ensures { (s : StaticsOf) → slice_get list.now owner ≡ Some s → IfOk result (λ all. all ≡ slice_set list.now owner (record { owner = ty.now; init = Some init.Begun; cells = s.cells })) }
{
    let mut all = StaticsList::new(alloc);
    append_copies(alloc, &mut all, &list[..owner])?;
    let cells = copied_cells(alloc, &list[owner].cells)?;
    push_begun(alloc, &mut all, ty, cells)?;
    append_copies(alloc, &mut all, &list[owner + 1..])?;
    Ok(all)
}

fn begin_at(
    alloc: Global,
    statics: &mut StaticsList,
    owner: usize,
    ty: &Ty,
) -> Result<(), AllocError>
    requires { owner < length statics.old }
    ensures { (s : StaticsOf) → slice_get statics.old owner ≡ Some s → OnOk result (statics.new ≡ slice_set statics.old owner (record { owner = ty.now; init = Some init.Begun; cells = s.cells })) }
{
    let all = begun_at(alloc, statics.as_slice(), owner, ty)?;
    *statics = all;
    Ok(())
}

fn begin_first(
    alloc: Global,
    program: &Program,
    statics: &mut StaticsList,
    ty: &Ty,
) -> Result<(), AllocError>
    ensures { OnOk result (statics.new ≡ statics.old ++ record { owner = ty.now; init = Some init.Begun; cells = default_cells program.now (map (λ (x : ℕ × TyOf). x.1) (static_layout program.now ty.now)) } ∷ []) }
{
    let cells = default_statics(alloc, program, ty)?;
    push_begun(alloc, statics, ty, cells)?;
    Ok(())
}

fn note_begun_in(
    alloc: Global,
    program: &Program,
    statics: &mut StaticsList,
    ty: &Ty,
) -> Result<(), AllocError>
    ensures { OnOk result (statics.new ≡ begun program.now ty.now statics.old) }
{
    match place_of_owner(statics.as_slice(), ty) {
        None => begin_first(alloc, program, statics, ty),
        Some(owner) => begin_at(alloc, statics, owner, ty),
    }
}

/// Notes that the initializer of a closed type has begun; its static fields are at their default values where none was stored yet.
pub fn note_begun(
    alloc: Global,
    program: &Program,
    world: &mut World,
    ty: &Ty,
) -> Result<(), AllocError>
    ensures { OnOk result (world.new ≡ with_begun program.now ty.now world.old) }
{
    note_begun_in(alloc, program, &mut world.statics, ty)?;
    Ok(())
}
