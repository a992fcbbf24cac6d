// Static fields of the set (ECMA-335, III.4.14, 4.15 and 4.30).

ghost use Rattle.std.specs.Prelude.{◌≡◌, [], IfOk};
ghost use Rattle.std.specs.Option.{option_copied};
ghost use Rattle.cil_model.specs.declared.ty.Ty.{Ty as TyOf};
ghost use Rattle.cil_model.specs.declared.value.Pointer.{Pointer as PointerOf};
ghost use Rattle.cil_semantics.specs.Acts as acts;
ghost use Rattle.cil_semantics.specs.Acts.{Act};
ghost use Rattle.cil_semantics.specs.Lookups.{field_of};
ghost use Rattle.cil_semantics.specs.declared.Access.{Access as AccessOf};
ghost use Rattle.cil_semantics.specs.declared.Local.{Local as LocalOf};
ghost use Rattle.frame_acts.specs.Meant.{meant};
ghost use Rattle.object_acts.specs.Found.{static_act};

use cil_base::U32s;
use cil_model::{Meaning, Pointer, Program, Ty, Value};
use cil_semantics::{Access, Local};
use frame_acts::Wanted;
use look_ups::definition_of;
use std::alloc::{AllocError, Global};

/// A static field: its closed type, and its place.
#[derive(Drop)]
pub struct StaticPlace {
    pub owner: Ty,
    pub place: Pointer,
}

#[tactic(auto, unfolding(cil_semantics::specs::Lookups::no_field))]
fn is_static(program: &Program, field: u32) -> bool
    ensures { result ≡ (field_of program.now field).is_static }
{
    match program.fields.get(field as usize) {
        Some(desc) => desc.is_static,
        None => false,
    }
}

fn static_place(alloc: Global, owner: &Ty, field: u32) -> Result<StaticPlace, AllocError>
    ensures { IfOk result (λ s. (s.owner ≡ owner.now) × (s.place ≡ PointerOf.Static owner.now field [])) }
{
    let place = Pointer::Static {
        owner: owner.copied(alloc)?,
        field,
        path: U32s::new(alloc),
    };
    let owner = owner.copied(alloc)?;
    Ok(StaticPlace { owner, place })
}

fn find_static(
    alloc: Global,
    program: &Program,
    meaning: Option<&Meaning>,
) -> Result<Option<StaticPlace>, AllocError>
    ensures { (go : TyOf → PointerOf → Act) → IfOk result (λ found. static_act found go ≡ acts.on_static program.now (option_copied meaning.entry) go) }
{
    let Some(Meaning::OfField { owner, field }) = meaning else {
        return Ok(None);
    };
    if !is_static(program, *field) {
        return Ok(None);
    }
    match definition_of(owner) {
        None => Ok(None),
        Some(_) => Ok(Some(static_place(alloc, owner, *field)?)),
    }
}

fn read(found: Option<StaticPlace>) -> Wanted
    ensures { (l : LocalOf) → meant result l ≡ static_act found (λ t q. Act.UseStatic t (AccessOf.Read q) l) }
{
    match found {
        None => Wanted::Stuck,
        Some(StaticPlace { owner, place }) => Wanted::UseStatic(owner, Access::Read(place)),
    }
}

fn point_to(found: Option<StaticPlace>) -> Wanted
    ensures { (l : LocalOf) → meant result l ≡ static_act found (λ t q. Act.UseStatic t (AccessOf.PointTo q) l) }
{
    match found {
        None => Wanted::Stuck,
        Some(StaticPlace { owner, place }) => Wanted::UseStatic(owner, Access::PointTo(place)),
    }
}

fn write(found: Option<StaticPlace>, v: Value) -> Wanted
    ensures { (l : LocalOf) → meant result l ≡ static_act found (λ t q. Act.UseStatic t (AccessOf.Write q v) l) }
{
    match found {
        None => Wanted::Stuck,
        Some(StaticPlace { owner, place }) => Wanted::UseStatic(owner, Access::Write(place, v)),
    }
}

/// `ldsfld`
pub fn load_static(
    alloc: Global,
    program: &Program,
    meaning: Option<&Meaning>,
) -> Result<Wanted, AllocError>
    ensures { (l : LocalOf) → IfOk result (λ a. meant a l ≡ acts.on_static program.now (option_copied meaning.entry) (λ t q. Act.UseStatic t (AccessOf.Read q) l)) }
{
    let found = find_static(alloc, program, meaning)?;
    Ok(read(found))
}

/// `ldsflda`
pub fn point_to_static(
    alloc: Global,
    program: &Program,
    meaning: Option<&Meaning>,
) -> Result<Wanted, AllocError>
    ensures { (l : LocalOf) → IfOk result (λ a. meant a l ≡ acts.on_static program.now (option_copied meaning.entry) (λ t q. Act.UseStatic t (AccessOf.PointTo q) l)) }
{
    let found = find_static(alloc, program, meaning)?;
    Ok(point_to(found))
}

/// `stsfld`
pub fn store_static(
    alloc: Global,
    program: &Program,
    meaning: Option<&Meaning>,
    local: &mut Local,
) -> Result<Wanted, AllocError>
    ensures { IfOk result (λ a. meant a local.new ≡ acts.on_top local.old.stack (λ v rest. acts.on_static program.now (option_copied meaning.entry) (λ t q. Act.UseStatic t (AccessOf.Write q v) (record local.old { stack = rest })))) }
{
    let Some(v) = local.stack.pop() else {
        return Ok(Wanted::Stuck);
    };
    let found = find_static(alloc, program, meaning)?;
    Ok(write(found, v))
}
