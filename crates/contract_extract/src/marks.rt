// What is known of a block's places and locals from one pass over its body.

ghost use Rattle.std.specs.Prelude.{◌≡◌, ◌<◌, ◌+◌, ◌||◌, length};
ghost use Rattle.std.specs.List.{list_any};
ghost use Rattle.contract_parts.specs.Flow.{placed};
ghost use Rattle.contract_extract.specs.Rules.{crosses, has_place, meets, lead_writes, lead_stores, block_writes, rest_stores};

use crate::block::Block;
use crate::reach::end_at;

impl<'a> Block<'a> {
    /// Some branch crosses a call at a place.
    #[tactic(auto, using(crate::proofs::ReachLaws::crossed_at))]
    pub(crate) fn is_crossed(&self, place: u32) -> bool
        requires { place < length self.now.body.instrs }
        ensures { result ≡ list_any (crosses place) (placed self.now) }
    {
        place < end_at(&self.reach.crossed, place)
    }

    /// The instruction at a place is part of a region.
    #[tactic(auto, using(crate::proofs::ReachLaws::in_region_at))]
    pub(crate) fn is_in_region(&self, place: u32) -> bool
        requires { place < length self.now.body.instrs }
        ensures { result ≡ list_any (has_place place) self.now.body.regions }
    {
        place < end_at(&self.reach.regions, place)
    }

    /// A region has a part in the places from one on up to another.
    #[tactic(auto, using(crate::proofs::ReachLaws::meets_at))]
    pub(crate) fn meets_region(&self, from: u32, at: u32) -> bool
        requires { at < length self.now.body.instrs }
        ensures { result ≡ list_any (meets from (at + 1)) self.now.body.regions }
    {
        from < end_at(&self.reach.regions, at)
    }

    pub(crate) fn lead_writes(&self, k: u32) -> bool
        ensures { result ≡ lead_writes self.now k }
    {
        self.locals.lead_written.has(k)
    }

    pub(crate) fn block_writes(&self, k: u32) -> bool
        ensures { result ≡ block_writes self.now k }
    {
        self.locals.block_written.has(k)
    }

    /// Whether the lead-in or the rest stores a local.
    pub(crate) fn stores_outside(&self, k: u32) -> bool
        ensures { result ≡ (lead_stores self.now k || rest_stores self.now k) }
    {
        self.locals.stored_outside.has(k)
    }
}
