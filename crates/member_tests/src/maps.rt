// The PropertyMap rows that own rows of Property (ECMA-335, II.22.35).
ghost use Rattle.std.specs.Prelude.{◌≡◌, ◌-◌, ◌≤◌, min, length, replicate, IfOk};
ghost use Rattle.set_rows.specs.Sets.{count_in};
ghost use Rattle.set_rows.specs.Owners.{IsFilled};
ghost use Rattle.member_tests.specs.PropertyMaps.{ArePropertyMaps, property_end};

use cil_base::tables::{PROPERTY, PROPERTY_MAP};
use set_rows::Rows;
use std::alloc::{AllocError, Global};

/// Writes a row from one place up to another.
fn fill(maps: &mut Vec<u32>, from: usize, to: usize, row: u32)
    requires { to ≤ length maps.old.items }
    ensures { IsFilled maps.old.items maps.new.items from to row }
{
    if to <= from {
        return;
    }
    for i in from..to {
        maps[i] = row;
    }
}

/// One past the place of the last row that a PropertyMap row owns.
fn end_place(rows: &Rows<'_>, row: u32) -> u32
    ensures { result ≡ min (property_end rows.now row - 1) (count_in rows.now PROPERTY) }
{
    if row < rows.count(PROPERTY_MAP) {
        return rows
            .cell(PROPERTY_MAP, row + 1, 1)
            .saturating_sub(1)
            .min(rows.count(PROPERTY));
    }
    rows.count(PROPERTY)
}

/// No row for each row of Property.
fn no_maps(alloc: Global, count: u32) -> Result<Vec<u32>, AllocError>
    ensures { IfOk result (λ v. v.items ≡ replicate count 0) }
{
    let mut maps = Vec::new(alloc);
    for _k in 0..count {
        maps.push(0)?;
    }
    Ok(maps)
}

/// By row of Property from 0: the row of PropertyMap that owns it, or 0.
pub fn property_maps(alloc: Global, rows: &Rows<'_>) -> Result<Vec<u32>, AllocError>
    ensures { IfOk result (λ v. ArePropertyMaps rows.now v.items) }
{
    let owners = rows.count(PROPERTY_MAP);
    let mut maps = no_maps(alloc, rows.count(PROPERTY))?;
    for k in 0..owners {
        // The first owner counts, so they are gone through from the last on.
        let row = owners - k;
        let from = rows.cell(PROPERTY_MAP, row, 1).saturating_sub(1);
        let to = end_place(rows, row);
        fill(&mut maps, from as usize, to as usize, row);
    }
    Ok(maps)
}
