// A body of many instructions and regions, looked at again and again.
ghost use Rattle.std.specs.Prelude.{◌<◌, ◌^◌, length};

use cil_base::{Fault, Name, Place, U32s};
use cil_model::{
    Body, FieldDescs, Instr, Instrs, MethodDesc, MethodDescs, Operand, Program, Region, RegionKind,
    Regions, TokenRows, Ty, TypeDescs, Tys,
};
use il_flow::{boundaries, heights_of};
use region_tree::control_fault;
use std::alloc::{AllocError, Global};
use tree_building::to_tree;

/// What is done with the body.
#[derive(Clone, Copy)]
pub enum Step {
    Nothing,
    Heights,
    Boundaries,
    Control,
    Tree,
}

fn plain(op: u16) -> Instr {
    Instr {
        op,
        operand: Operand::Nothing,
        constrained: None,
        prefixes: 0,
        under: None,
    }
}

fn leave(target: u32) -> Instr {
    Instr {
        op: 0xDD,
        operand: Operand::Target(target),
        constrained: None,
        prefixes: 0,
        under: None,
    }
}

/// So many times a number that is pushed and taken away.
fn push_pairs(instrs: &mut Instrs, pairs: u32) -> Result<(), AllocError> {
    for _k in 0..pairs {
        instrs.push(plain(0x16))?;
        instrs.push(plain(0x26))?;
    }
    Ok(())
}

/// A try with a finally behind what stands there, each with so many pairs.
fn push_block(body: &mut Body, from: u32, pairs: u32) -> Result<u32, AllocError> {
    let middle = from
        .saturating_add(pairs.saturating_mul(2))
        .saturating_add(1);
    let end = middle
        .saturating_add(pairs.saturating_mul(2))
        .saturating_add(1);
    push_pairs(&mut body.instrs, pairs)?;
    body.instrs.push(leave(end))?;
    push_pairs(&mut body.instrs, pairs)?;
    body.instrs.push(plain(0xDC))?;
    body.regions.push(Region {
        kind: RegionKind::Finally,
        try_from: from,
        try_to: middle,
        handler_from: middle,
        handler_to: end,
    })?;
    Ok(end)
}

fn push_offsets(body: &mut Body) -> Result<(), AllocError> {
    let mut offset = 0u32;
    for _k in 0..body.instrs.len() {
        body.offsets.push(offset)?;
        offset = offset.saturating_add(1);
    }
    Ok(())
}

/// A body of about so many instructions, with so many blocks one behind another.
fn body_of(alloc: Global, count: u32, blocks: u32) -> Result<Body, AllocError> {
    let mut body = Body {
        instrs: Instrs::new(alloc),
        offsets: U32s::new(alloc),
        regions: Regions::new(alloc),
        locals: None,
        max_stack: 8,
        init: false,
    };
    let pairs = count / blocks.max(1) / 4;
    let mut at = 0;
    for _k in 0..blocks {
        at = push_block(&mut body, at, pairs)?;
    }
    body.instrs.push(plain(0x2A))?;
    push_offsets(&mut body)?;
    Ok(body)
}

fn empty_program(alloc: Global) -> Program {
    Program {
        types: TypeDescs::new(alloc),
        fields: FieldDescs::new(alloc),
        methods: MethodDescs::new(alloc),
        tokens: TokenRows::new(alloc),
    }
}

/// A static method without parameters or result.
fn method(alloc: Global) -> MethodDesc {
    MethodDesc {
        assembly: 0,
        row: 1,
        owner: 0,
        name: Name::new(alloc),
        params: Tys::new(alloc),
        result: Ty::Prim(1),
        sig: 0,
        is_static: true,
        flags: 0,
        outside: false,
        abbreviator: false,
        invariant: false,
        generated: false,
        body: None,
        generics: 0,
    }
}

/// How much the heights and the boundaries of a body are.
fn measure_heights(alloc: Global, body: &Body, place: Place, step: Step) -> Result<usize, Fault>
    requires { length body.now.instrs < 2 ^ 32 }
{
    let program = empty_program(alloc);
    let own = method(alloc);
    let found = heights_of(alloc, &program, &own, body, place)?;
    match step {
        Step::Boundaries if found.heights.len() == body.instrs.len() => {
            let places = boundaries(alloc, body, &found.heights)?;
            Ok(places.len())
        }
        _ => Ok(found.heights.len()),
    }
}

fn measure_once(alloc: Global, body: &Body, step: Step) -> Result<usize, Fault>
    requires { length body.now.instrs < 2 ^ 32 }
{
    let place = Place {
        assembly: 0,
        table: 6,
        row: 1,
    };
    match step {
        Step::Nothing => Ok(body.instrs.len()),
        Step::Heights | Step::Boundaries => measure_heights(alloc, body, place, step),
        Step::Control => match control_fault(alloc, body, place)? {
            Some(refusal) => Err(Fault::Refused(refusal)),
            None => Ok(body.regions.len()),
        },
        Step::Tree => {
            let tree = to_tree(alloc, body, place)?;
            Ok(tree.blocks.len())
        }
    }
}

/// What a step answers of a body of about so many instructions with so many regions, after it was done
/// so often: how many heights, boundaries, regions or blocks there are. None where the body is too long.
pub fn repeat_step(
    alloc: Global,
    instrs: u32,
    regions: u32,
    step: Step,
    times: u32,
) -> Result<Option<usize>, Fault> {
    let body = body_of(alloc, instrs, regions)?;
    if body.instrs.len() > u32::MAX as usize {
        return Ok(None);
    }
    let mut count = 0;
    for _k in 0..times {
        count = measure_once(alloc, &body, step)?;
    }
    Ok(Some(count))
}
