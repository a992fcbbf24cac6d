// The contract block of a body: its parts, the ranges of its old values, and its closure locals.

ghost use Rattle.std.specs.Prelude.{◌≡◌, ◌<◌, ◌^◌, length, option_copied};
ghost use Rattle.contract_parts.specs.Flow.{last_argument};
ghost use Rattle.contract_parts.specs.Parts.{lead_end, rest_from, segments};
ghost use Rattle.contract_parts.specs.Closures.{is_closure};
ghost use Rattle.contract_extract.specs.Rules.{segment_at, segment_from, is_in_block, read_breaks_6};
ghost use Rattle.contract_extract.specs.Marks.{AreLocals, IsReach};

use crate::halving::ended_before;
use crate::part_locals::PartLocals;
use crate::reach::Reach;
use cil_model::Instr;
use contract_parts::{Closures, Code, Segment};
use std::marker::Model;

/// The parts of a body: where its lead-in ends and its rest begins, its segments, its closure
/// locals, the locals that its parts store, and how far its branches and regions reach.
#[derive(Drop)]
pub struct Block<'a> {
    pub(crate) code: &'a Code<'a>,
    pub(crate) lead: u32,
    pub(crate) rest: u32,
    pub(crate) segment_list: &'a [Segment],
    pub(crate) closures: &'a Closures<'a>,
    pub(crate) locals: &'a PartLocals,
    pub(crate) reach: &'a Reach,
}

impl<'a> Model for Block<'a> {
    ghost use Rattle.std.specs.Prelude.{◌≡◌};
    ghost use Rattle.std.specs.Coded.{codes};
    ghost use Rattle.cil_model.specs.contracts.ty.Ty as ty;
    ghost use Rattle.contract_parts.specs.Flow.{Code};
    ghost use Rattle.contract_parts.specs.Parts.{lead_end, rest_from, segments};
    ghost use Rattle.contract_extract.specs.Marks.{AreLocals, IsReach};

    ghost Value = { Code };

    ghost coded = { Prim.hlevel (codes, ty.the_row.coded) };

    ghost view = { λ b. b.code.now };

    ghost invariant = { λ b.
        (b.lead ≡ lead_end b.code.now)
        × (b.rest ≡ rest_from b.code.now)
        × (b.segment_list.now ≡ segments b.code.now)
        × (b.closures.now ≡ b.code.now)
        × AreLocals b.code.now b.locals.now
        × IsReach b.code.now b.reach.now };
}

impl<'a> Block<'a> {
    /// A body with its parts.
    pub fn new(
        code: &'a Code<'a>,
        parts: (u32, u32),
        segment_list: &'a [Segment],
        closures: &'a Closures<'a>,
        locals: &'a PartLocals,
        reach: &'a Reach,
    ) -> Block<'a>
        requires lead { parts.0 ≡ lead_end code.now }
        requires rest { parts.1 ≡ rest_from code.now }
        requires segments { segment_list.now ≡ segments code.now }
        requires closures { closures.now ≡ code.now }
        requires locals { AreLocals code.now locals.now }
        requires reach { IsReach code.now reach.now }
        ensures { result ≡ code.entry.now }
    {
        let (lead, rest) = parts;
        Block {
            code,
            lead,
            rest,
            segment_list,
            closures,
            locals,
            reach,
        }
    }

    pub fn code(&self) -> &'a Code<'a>
        ensures { result.now ≡ self.now }
    {
        self.code
    }

    /// Where the lead-in ends.
    pub fn lead(&self) -> u32
        ensures { result ≡ lead_end self.now }
    {
        self.lead
    }

    /// Where the rest begins.
    pub fn rest(&self) -> u32
        ensures { result ≡ rest_from self.now }
    {
        self.rest
    }

    pub fn segments(&self) -> &'a [Segment]
        ensures { result.now ≡ segments self.now }
    {
        self.segment_list
    }

    pub fn closures(&self) -> &'a Closures<'a>
        ensures { result.now ≡ self.now }
    {
        self.closures
    }

    pub fn instrs(&self) -> &'a [Instr]
        ensures list { result.now ≡ self.now.body.instrs }
        ensures few { length result.now < 2 ^ 31 }
    {
        let code = self.code;
        code.instrs()
    }

    /// The segment in which a place lies.
    #[tactic(auto, using(crate::proofs::SegmentLaws::segments_rise))]
    pub fn segment_at(&self, place: u32) -> Option<&'a Segment>
        ensures { option_copied result ≡ segment_at self.now place }
    {
        let segments = self.segments();
        match segments.get(ended_before(segments, place)) {
            Some(segment) => {
                if segment.from <= place {
                    Some(segment)
                } else {
                    None
                }
            }
            None => None,
        }
    }

    /// The segment that begins at a place.
    #[tactic(auto, using(crate::proofs::SegmentLaws::segment_begins))]
    pub fn segment_from(&self, place: u32) -> Option<&'a Segment>
        ensures { option_copied result ≡ segment_from self.now place }
    {
        match self.segment_at(place) {
            Some(segment) => {
                if segment.from == place {
                    Some(segment)
                } else {
                    None
                }
            }
            None => None,
        }
    }

    /// C6 in the rest: a local is read that only segments store.
    pub fn read_breaks_6(&self, place: u32, k: u32) -> bool
        ensures { result ≡ read_breaks_6 self.now place k }
    {
        self.rest <= place && self.block_writes(k) && !self.stores_outside(k)
    }

    pub fn is_in_block(&self, place: u32) -> bool
        ensures { result ≡ is_in_block self.now place }
    {
        self.lead <= place && place < self.rest
    }

    pub fn is_closure(&self, k: u32) -> bool
        ensures { result ≡ is_closure self.now k }
    {
        self.closures().is_closure(k)
    }

    /// Where the last argument of the call at a place begins.
    pub fn last_argument(&self, at: u32) -> Option<usize>
        requires { at < length self.now.body.instrs }
        ensures { result ≡ last_argument self.now at }
    {
        self.code().last_argument(at)
    }
}
