// Bodies for the tests.
ghost use Rattle.std.specs.Prelude.{◌<◌};

use cil_base::{Place, Token, U32s};
use cil_model::{Body, Instr, Instrs, Operand, Region, RegionKind, Regions};
use std::alloc::{AllocError, Global};

pub fn here() -> Place {
    Place {
        assembly: 3,
        table: 6,
        row: 9,
    }
}

/// The first row of a table.
pub fn first_row(table: u8) -> Token {
    Token { table, row: 1 }
}

/// An instruction without an operand.
pub fn nop_like(op: u16) -> Instr {
    Instr {
        op,
        operand: Operand::Nothing,
        constrained: None,
        prefixes: 0,
        under: None,
    }
}

fn nops(alloc: Global, count: u16) -> Result<Instrs, AllocError> {
    let mut instrs = Instrs::new(alloc);
    for _ in 0..count {
        instrs.push(nop_like(0))?;
    }
    Ok(instrs)
}

/// Catches by the places where try and handler begin and end.
fn regions_of(alloc: Global, rows: &[[u32; 4]]) -> Result<Regions, AllocError> {
    let mut regions = Regions::new(alloc);
    for row in rows {
        regions.push(Region {
            kind: RegionKind::Catch(first_row(1)),
            try_from: row[0],
            try_to: row[1],
            handler_from: row[2],
            handler_to: row[3],
        })?;
    }
    Ok(regions)
}

/// So many nops, with catches.
pub fn body_with(alloc: Global, count: u16, rows: &[[u32; 4]]) -> Result<Body, AllocError> {
    Ok(Body {
        instrs: nops(alloc, count)?,
        offsets: U32s::new(alloc),
        regions: regions_of(alloc, rows)?,
        locals: None,
        max_stack: 8,
        init: false,
    })
}

/// Whether a try or a handler ends behind an instruction.
fn ends_part(rows: &[[u32; 4]], at: u32) -> bool
    requires { at < 1000 }
{
    for row in rows {
        if row[1] == at + 1 || row[3] == at + 1 {
            return true;
        }
    }
    false
}

/// So many instructions with catches. Each try and each handler ends by a `leave` to the `ret` that ends
/// the code, and the others are nops.
pub fn body_that_leaves(alloc: Global, count: u16, rows: &[[u32; 4]]) -> Result<Body, AllocError>
    requires some { 0 < count }
    requires few { count < 1000 }
{
    let mut body = body_with(alloc, 0, rows)?;
    let last = (count - 1) as u32;
    for k in 0..last {
        let mut i = nop_like(0);
        if ends_part(rows, k) {
            i.op = 0xDD;
            i.operand = Operand::Target(last);
        }
        body.instrs.push(i)?;
    }
    body.instrs.push(nop_like(0x2A))?;
    Ok(body)
}

fn is_row(region: &Region, row: [u32; 4]) -> bool {
    region.try_from == row[0]
        && region.try_to == row[1]
        && region.handler_from == row[2]
        && region.handler_to == row[3]
}

/// Whether the body's regions are these.
pub fn has_rows(body: &Body, rows: &[[u32; 4]]) -> bool {
    let regions = body.regions.as_slice();
    if regions.len() != rows.len() {
        return false;
    }
    for k in 0..rows.len() {
        if !is_row(&regions[k], rows[k]) {
            return false;
        }
    }
    true
}
