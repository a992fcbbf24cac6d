// Bodies for the tests.
ghost use Rattle.std.specs.Prelude.{◌<◌, ◌^◌, length, IfSome};

use cil_base::{Place, Token};
use cil_model::{Body, Region, RegionKind, Regions};
use il_code::decode_body;
use std::alloc::{AllocError, Global};

pub fn here() -> Place {
    Place {
        assembly: 3,
        table: 6,
        row: 9,
    }
}

/// The first row of a table.
pub fn first_row(table: u8) -> Token {
    Token { table, row: 1 }
}

fn tiny(alloc: Global, code: &[u8]) -> Result<Vec<u8>, AllocError> {
    let mut bytes = Vec::new(alloc);
    bytes.push(if code.len() < 64 {
        code.len() as u8 * 4 + 2
    } else {
        0
    })?;
    bytes.extend_from_slice(code)?;
    Ok(bytes)
}

pub fn decoded(alloc: Global, bytes: &[u8]) -> Option<Body>
    ensures { IfSome result (λ body. length body.instrs < 2 ^ 32) }
{
    if bytes.len() > 1000 {
        return None;
    }
    let body = decode_body(alloc, bytes, here()).ok()?;
    if body.instrs.len() < 1000 {
        Some(body)
    } else {
        None
    }
}

/// The body of a code of under 64 bytes.
fn code_body(alloc: Global, code: &[u8]) -> Option<Body>
    ensures { IfSome result (λ body. length body.instrs < 2 ^ 32) }
{
    let bytes = tiny(alloc, code).ok()?;
    decoded(alloc, &bytes)
}

fn kind_of(finally: bool) -> RegionKind {
    if finally {
        RegionKind::Finally
    } else {
        RegionKind::Catch(first_row(1))
    }
}

/// Regions by the places where try and handler begin and end.
fn regions_of(alloc: Global, finally: bool, rows: &[[u32; 4]]) -> Result<Regions, AllocError> {
    let mut regions = Regions::new(alloc);
    for row in rows {
        regions.push(Region {
            kind: kind_of(finally),
            try_from: row[0],
            try_to: row[1],
            handler_from: row[2],
            handler_to: row[3],
        })?;
    }
    Ok(regions)
}

/// A code with regions that have catches or finally handlers.
pub fn body_with(alloc: Global, code: &[u8], finally: bool, rows: &[[u32; 4]]) -> Option<Body>
    ensures { IfSome result (λ body. length body.instrs < 2 ^ 32) }
{
    let mut body = code_body(alloc, code)?;
    body.regions = regions_of(alloc, finally, rows).ok()?;
    Some(body)
}

/// A code with one region.
pub fn body_with_kind(alloc: Global, code: &[u8], kind: RegionKind, row: [u32; 4]) -> Option<Body>
    ensures { IfSome result (λ body. length body.instrs < 2 ^ 32) }
{
    let mut body = body_with(alloc, code, false, &[])?;
    let region = Region {
        kind,
        try_from: row[0],
        try_to: row[1],
        handler_from: row[2],
        handler_to: row[3],
    };
    body.regions.push(region).ok()?;
    Some(body)
}

/// So many regions in one another, the inner ones first, all from place 0 on.
pub fn nested_rows(alloc: Global, count: u32) -> Result<Vec<[u32; 4]>, AllocError>
    requires { count < 2000 }
{
    let mut rows = Vec::new(alloc);
    for k in 0..count {
        rows.push([0, k + 1, k + 1, k + 2])?;
    }
    Ok(rows)
}
