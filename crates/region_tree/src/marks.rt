// The places at which a part of a region begins or ends.
ghost use Rattle.std.specs.Prelude.{◌≡◌, [], length, IfOk};
ghost use Rattle.region_tree.specs.Marks.{AddsMark, AddsMarks, AreMarks};

use cil_model::Region;
use std::alloc::{AllocError, Global};

#[tactic(auto, using(crate::proofs::MarkLaws::mark_set, crate::proofs::MarkLaws::mark_past))]
fn mark(marks: &mut [bool], place: u32)
    ensures { AddsMark place marks.old marks.new }
{
    let at = place as usize;
    if at < marks.len() {
        marks[at] = true;
    }
}

#[tactic(auto, using(crate::proofs::MarkLaws::mark_four))]
fn mark_region(marks: &mut [bool], region: &Region)
    ensures { AddsMarks region.now marks.old marks.new }
{
    mark(marks, region.try_from);
    mark(marks, region.try_to);
    mark(marks, region.handler_from);
    mark(marks, region.handler_to);
}

fn mark_regions(marks: &mut [bool], regions: &[Region])
    requires { AreMarks [] (length marks.old) marks.old }
    ensures { AreMarks regions.now (length marks.old) marks.new }
{
    for region in regions {
        mark_region(marks, region);
    }
}

/// For each of so many places whether a part of a region begins or ends there.
pub fn marks_of(alloc: Global, regions: &[Region], count: usize) -> Result<Vec<bool>, AllocError>
    ensures { IfOk result (λ marks. AreMarks regions.now count marks.items) }
{
    let mut marks = vec![in alloc; false; count]?;
    mark_regions(&mut marks, regions);
    Ok(marks)
}
