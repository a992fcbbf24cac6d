// The search for a handler of an exception (ECMA-335, I.12.4.2.5).

ghost use Rattle.std.specs.Prelude.{◌≡◌, if◌then◌else◌, None, option_map, IfOk};
ghost use Rattle.cil_semantics.specs.Unwind.{body_of, caught_type, fits_type, found_in, in_try, search_from, searched};
ghost use Rattle.run_handlers.specs.Found.{found_by};

use crate::catching::is_caught;
use crate::regions::{is_in_try, regions_of};
use cil_model::{Program, Region, RegionKind};
use cil_semantics::{Frame, ProgramPoint, World};
use std::alloc::{AllocError, Global};

/// Where a search for handlers ends: nowhere, at a catch, or at a finally or fault; with the number of the region and the place where
/// its handler begins.
#[derive(Clone, Copy)]
pub enum Sought {
    Nowhere,
    Catch(usize, u32),
    Cleanup(usize, u32),
}

// What a region at a number does for an exception that is thrown in its try block.
fn sought_in(
    alloc: Global,
    program: &Program,
    frame: &Frame,
    world: &World,
    exception: u32,
    region: &Region,
    k: usize,
) -> Result<Option<Sought>, AllocError>
    ensures { IfOk result (λ sought. option_map found_by sought ≡ found_in (λ token. fits_type program.now world.now exception (caught_type program.now frame.now token)) region.now k region.now.kind) }
{
    match &region.kind {
        RegionKind::Catch(token) => {
            if is_caught(alloc, program, frame, world, exception, *token)? {
                Ok(Some(Sought::Catch(k, region.handler_from)))
            } else {
                Ok(None)
            }
        }
        RegionKind::Filter(_) => Ok(None),
        RegionKind::Finally => Ok(Some(Sought::Cleanup(k, region.handler_from))),
        RegionKind::Fault => Ok(Some(Sought::Cleanup(k, region.handler_from))),
    }
}

// The same of an exception that is thrown at a place.
fn sought_at(
    alloc: Global,
    program: &Program,
    frame: &Frame,
    world: &World,
    exception: u32,
    region: &Region,
    k: usize,
    q: u32,
) -> Result<Option<Sought>, AllocError>
    ensures { IfOk result (λ sought. option_map found_by sought ≡ (if in_try region.now q then found_in (λ token. fits_type program.now world.now exception (caught_type program.now frame.now token)) region.now k region.now.kind else None)) }
{
    if !is_in_try(region, q) {
        return Ok(None);
    }
    let sought = sought_in(alloc, program, frame, world, exception, region, k)?;
    Ok(sought)
}

/// The first region from a number on that holds a place and takes an exception.
pub fn find_handler(
    alloc: Global,
    program: &Program,
    frame: &Frame,
    world: &World,
    exception: u32,
    regions: &[Region],
    skip: usize,
    q: u32,
) -> Result<Sought, AllocError>
    ensures { IfOk result (λ sought. found_by sought ≡ search_from (λ token. fits_type program.now world.now exception (caught_type program.now frame.now token)) skip 0 q regions.now) }
{
    for k in skip..regions.len() {
        let sought = sought_at(alloc, program, frame, world, exception, &regions[k], k, q)?;
        if let Some(sought) = sought {
            return Ok(sought);
        }
    }
    Ok(Sought::Nowhere)
}

/// The handler of a frame, from a region's number on, for an exception that is thrown at the place `q` of the frame's part `at`. A piece
/// of a contract has no handlers.
pub fn find_at(
    alloc: Global,
    program: &Program,
    frame: &Frame,
    world: &World,
    exception: u32,
    skip: usize,
    q: u32,
    at: ProgramPoint,
) -> Result<Sought, AllocError>
    ensures { IfOk result (λ sought. found_by sought ≡ searched program.now frame.now world.now exception skip q at) }
{
    let regions = regions_of(program, frame.method);
    match at {
        ProgramPoint::LeadIn(_) => {
            let sought = find_handler(alloc, program, frame, world, exception, regions, skip, q)?;
            Ok(sought)
        }
        ProgramPoint::InGroup(_, _, _) => Ok(Sought::Nowhere),
        ProgramPoint::Rest(_) => {
            let sought = find_handler(alloc, program, frame, world, exception, regions, skip, q)?;
            Ok(sought)
        }
    }
}
