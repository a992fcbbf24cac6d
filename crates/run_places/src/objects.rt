// Places in objects of the heap (ECMA-335, I.12.3 and I.12.1.1.2).

ghost use Rattle.std.specs.Prelude.{◌≡◌, ◌∷◌, false, option_and_then, option_map, slice_get, slice_set, IfOk};
ghost use Rattle.std.specs.Option.{option_copied};
ghost use Rattle.cil_semantics.specs.Frames.{cell_in, set_in, set_object};
ghost use Rattle.cil_semantics.specs.State.{object_at};
ghost use Rattle.cil_semantics.specs.declared.Object.{Object as ObjectOf};
ghost use Rattle.run_places.specs.Done.{heap_if, world_if};

use crate::cells::{read_in, stored_at};
use cil_model::{Program, Value};
use cil_semantics::{Cells, Objects, World};
use run_heap::object_of;
use std::alloc::{AllocError, Global};

fn read_cells<'a>(cells: &'a Cells, path: &[u32]) -> Option<&'a Value>
    ensures { option_copied result ≡ cell_in cells.now path.now }
{
    if path.is_empty() {
        return None;
    }
    read_in(cells, path[0] as usize, &path[1..])
}

/// What stands in an object where a path leads.
pub(crate) fn read_object<'a>(world: &'a World, k: u32, path: &[u32]) -> Option<&'a Value>
    ensures { option_copied result ≡ option_and_then (λ (o : ObjectOf). cell_in o.cells path.now) (object_at world.now k) }
{
    match object_of(world, k) {
        None => None,
        Some(o) => read_cells(&o.cells, path),
    }
}

fn put_in_object(
    alloc: Global,
    program: &Program,
    heap: &mut Objects,
    at: usize,
    path: &[u32],
    v: Value,
) -> Result<bool, AllocError>
    ensures done { IfOk result (λ done. heap_if done heap.new ≡ option_and_then (λ (o : ObjectOf). option_map (λ cs. slice_set heap.old at (record o { cells = cs })) (set_in program.now path.now v o.cells)) (slice_get heap.old at)) }
    ensures kept { IfOk result (λ done. done ≡ false → heap.new ≡ heap.old) }
{
    let Some(o) = heap.get(at) else {
        return Ok(false);
    };
    if path.is_empty() {
        return Ok(false);
    }
    let place = path[0] as usize;
    match stored_at(alloc, program, &o.cells, place, &path[1..], v)? {
        None => Ok(false),
        Some(left) => {
            heap.put(at, place, left);
            Ok(true)
        }
    }
}

/// Stores into an object where a path leads, and answers whether that may be done.
pub(crate) fn write_object(
    alloc: Global,
    program: &Program,
    world: &mut World,
    k: u32,
    path: &[u32],
    v: Value,
) -> Result<bool, AllocError>
    ensures done { IfOk result (λ done. world_if done world.new ≡ option_and_then (λ (o : ObjectOf). option_map (λ cs. set_object world.old k cs) (set_in program.now path.now v o.cells)) (object_at world.old k)) }
    ensures kept { IfOk result (λ done. done ≡ false → world.new ≡ world.old) }
{
    if k == 0 {
        return Ok(false);
    }
    let done = put_in_object(alloc, program, &mut world.heap, (k - 1) as usize, path, v)?;
    Ok(done)
}
