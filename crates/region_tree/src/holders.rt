// The first region of a table that holds each place.
ghost use Rattle.std.specs.Prelude.{◌≡◌, ◌+◌, ◌≤◌, ◌<◌, ◌^◌, [], length, IfOk};
ghost use Rattle.region_tree.specs.Holders.{AddsHolder, AreHolders, AreJumps, Fills};

use cil_model::Region;
use std::alloc::{AllocError, Global};

/// Notes a number for the places of a part that have none. What has one is gone over by jumps.
fn fill(holders: &mut [u32], jumps: &[u32], from: usize, to: u32, number: u32)
    requires size { length jumps.now ≡ length holders.old }
    requires jumps { AreJumps holders.old jumps.now }
    ensures { Fills from to number holders.old holders.new }
{
    let end = (to as usize).min(holders.len());
    let mut q = from;
    while q < end {
        if holders[q] == 0 {
            holders[q] = number;
            q += 1;
        } else {
            q = (jumps[q] as usize).max(q + 1).min(end);
        }
    }
}

/// Notes a number for the places of a part, and that they are to be gone over from now on.
#[tactic(auto, using(crate::proofs::HolderLaws::jumps_set, crate::proofs::HolderLaws::jumps_kept))]
fn fill_part(holders: &mut [u32], jumps: &mut [u32], from: usize, to: u32, number: u32)
    requires size { length jumps.old ≡ length holders.old }
    requires jumps { AreJumps holders.old jumps.old }
    requires some { 0 < number }
    ensures filled { Fills from to number holders.old holders.new }
    ensures jumps { AreJumps holders.new jumps.new }
    ensures size { length jumps.new ≡ length holders.new }
{
    fill(holders, jumps, from, to, number);
    if from < jumps.len() {
        jumps[from] = to;
    }
}

fn fill_region(holders: &mut [u32], jumps: &mut [u32], skip: usize, region: &Region, number: u32)
    requires size { length jumps.old ≡ length holders.old }
    requires jumps { AreJumps holders.old jumps.old }
    requires some { 0 < number }
    requires skip { skip ≤ 1 }
    ensures added { AddsHolder skip region.now number holders.old holders.new }
    ensures jumps { AreJumps holders.new jumps.new }
    ensures size { length jumps.new ≡ length holders.new }
    ensures same { length holders.new ≡ length holders.old }
{
    let from = region.try_from as usize + skip;
    fill_part(holders, jumps, from, region.try_to, number);
    fill_part(
        holders,
        jumps,
        region.handler_from as usize,
        region.handler_to,
        number,
    );
}

fn fill_regions(holders: &mut [u32], jumps: &mut [u32], skip: usize, regions: &[Region])
    requires size { length jumps.old ≡ length holders.old }
    requires jumps { AreJumps holders.old jumps.old }
    requires skip { skip ≤ 1 }
    requires few { length regions.now < 2 ^ 32 }
    requires blank { AreHolders skip [] (length holders.old) holders.old }
    ensures { AreHolders skip regions.now (length holders.old) holders.new }
{
    for k in 0..regions.len() {
        fill_region(holders, jumps, skip, &regions[k], k as u32 + 1);
    }
}

/// The first region that holds each of so many places, in its handler or in its try behind so many of
/// its first instructions.
pub(crate) fn holders_of(
    alloc: Global,
    skip: usize,
    regions: &[Region],
    count: usize,
) -> Result<Vec<u32>, AllocError>
    requires skip { skip ≤ 1 }
    requires few { length regions.now < 2 ^ 32 }
    ensures { IfOk result (λ holders. AreHolders skip regions.now count holders.items) }
{
    let mut holders = vec![in alloc; 0u32; count]?;
    let mut jumps = vec![in alloc; 0u32; count]?;
    fill_regions(&mut holders, &mut jumps, skip, regions);
    Ok(holders)
}
