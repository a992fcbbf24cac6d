// What stands for type parameters, one behind another.

ghost use Rattle.std.specs.Prelude.{◌≡◌, ◌++◌, IfOk, OnOk};
ghost use Rattle.clause_types.specs.ClauseTypes.{joined, within};

use cil_model::{Instance, Instances, Under};
use look_ups::all_under;
use sqlite_items::Boxed;
use std::alloc::{AllocError, Global};

/// Appends equal instances.
pub fn push_instances(
    alloc: Global,
    out: &mut Instances,
    more: &[Instance],
) -> Result<(), AllocError>
    ensures { OnOk result (out.new ≡ out.old ++ more.now) }
{
    for instance in more {
        out.push(instance.copied(alloc)?)?;
    }
    Ok(())
}

fn within(alloc: Global, outer: &Under, inner: &Under) -> Result<Under, AllocError>
    ensures { IfOk result (λ it. it ≡ within outer.now inner.now) }
{
    let type_args = outer.type_args.as_slice();
    let method_args = outer.method_args.as_slice();
    let mut under = Under {
        type_args: all_under(alloc, inner.type_args.as_slice(), type_args, method_args)?,
        method_args: all_under(alloc, inner.method_args.as_slice(), type_args, method_args)?,
        instances: Instances::new(alloc),
    };
    push_instances(alloc, &mut under.instances, inner.instances.as_slice())?;
    push_instances(alloc, &mut under.instances, outer.instances.as_slice())?;
    Ok(under)
}

fn boxed_copy(alloc: Global, under: &Under) -> Result<Option<Boxed<Under>>, AllocError>
    ensures { IfOk result (λ it. it ≡ Some under.now) }
{
    let copy = under.copied(alloc)?;
    Ok(Some(Boxed::new(alloc, copy)?))
}

fn boxed_within(
    alloc: Global,
    outer: &Under,
    inner: &Under,
) -> Result<Option<Boxed<Under>>, AllocError>
    ensures { IfOk result (λ it. it ≡ Some (within outer.now inner.now)) }
{
    let both = within(alloc, outer, inner)?;
    Ok(Some(Boxed::new(alloc, both)?))
}

/// What stands for the type parameters of tokens that have their own, where these stand for those that
/// they name.
pub fn joined(
    alloc: Global,
    outer: &Option<Boxed<Under>>,
    inner: &Option<Boxed<Under>>,
) -> Result<Option<Boxed<Under>>, AllocError>
    ensures { IfOk result (λ it. it ≡ joined outer.now inner.now) }
{
    match outer {
        None => match inner {
            None => Ok(None),
            Some(inner) => boxed_copy(alloc, inner.get()),
        },
        Some(outer) => match inner {
            None => boxed_copy(alloc, outer.get()),
            Some(inner) => boxed_within(alloc, outer.get(), inner.get()),
        },
    }
}
