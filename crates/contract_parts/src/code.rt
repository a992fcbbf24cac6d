// A body with what is known of its stack.

ghost use Rattle.std.specs.Prelude.{◌≡◌, ◌<◌, ◌^◌, ◌==◌, get_or, false, length, IfOk, All};
ghost use Rattle.cil_semantics.specs.Lookups.{method_of};
ghost use Rattle.contract_parts.specs.Flow.{argument, last_argument, boundaries, height_behind};
ghost use Rattle.contract_parts.specs.Parts.{prefixes};

use crate::call::{contract_call, is_prefix};
use cil_base::U32s;
use cil_model::{Body, Instr, MethodDesc, Program, Region};
use il_flow::{argument_before, effect_in};
use std::alloc::{AllocError, Global};
use std::marker::Model;

/// A body of a method, with the height before each instruction and whether a path reaches it.
#[derive(Drop)]
pub struct Code<'a> {
    pub(crate) program: &'a Program,
    pub(crate) method: u32,
    pub(crate) own: &'a MethodDesc,
    pub(crate) body: &'a Body,
    pub(crate) heights: &'a U32s,
    pub(crate) reached: &'a [bool],
}

impl<'a> Model for Code<'a> {
    ghost use Rattle.std.specs.Prelude.{◌≡◌, ◌<◌, ◌^◌, length};
    ghost use Rattle.std.specs.Coded.{codes};
    ghost use Rattle.cil_model.specs.contracts.ty.Ty as ty;
    ghost use Rattle.cil_semantics.specs.Lookups.{method_of};
    ghost use Rattle.contract_parts.specs.Flow.{Code};

    ghost Value = { Code };

    ghost coded = { Prim.hlevel (codes, ty.the_row.coded) };

    ghost view = { λ c. record { program = c.program.now; method = c.method; body = c.body.now; heights = c.heights.now; reached = c.reached.now } };

    ghost invariant = { λ c.
        (c.own.now ≡ method_of c.program.now c.method)
        × (length c.body.now.instrs < 2 ^ 31)
        × (length c.heights.now ≡ length c.body.now.instrs)
        × (length c.reached.now ≡ length c.body.now.instrs) };
}

impl<'a> Code<'a> {
    pub fn new(
        program: &'a Program,
        method: u32,
        own: &'a MethodDesc,
        body: &'a Body,
        heights: &'a U32s,
        reached: &'a [bool],
    ) -> Code<'a>
        requires own { own.now ≡ method_of program.now method }
        requires few { length body.now.instrs < 2 ^ 31 }
        requires whole { length heights.now ≡ length body.now.instrs }
        requires reached { length reached.now ≡ length body.now.instrs }
        ensures { result ≡ record { program = program.entry.now; method = method; body = body.entry.now; heights = heights.entry.now; reached = reached.entry.now } }
    {
        Code {
            program,
            method,
            own,
            body,
            heights,
            reached,
        }
    }

    pub fn program(&self) -> &'a Program
        ensures { result.now ≡ self.now.program }
    {
        self.program
    }

    pub fn method(&self) -> u32
        ensures { result ≡ self.now.method }
    {
        self.method
    }

    pub fn regions(&self) -> &'a [Region]
        ensures { result.now ≡ self.now.body.regions }
    {
        self.body.regions.as_slice()
    }

    pub fn is_reached(&self, place: u32) -> bool
        ensures { result ≡ get_or self.now.reached place false }
    {
        self.reached.get(place as usize).copied().unwrap_or(false)
    }

    /// The offset of the instruction at a place.
    pub fn offset(&self, place: u32) -> u32
        ensures { result ≡ get_or self.now.body.offsets place 0 }
    {
        self.body
            .offsets
            .as_slice()
            .get(place as usize)
            .copied()
            .unwrap_or(0)
    }

    /// The method's own description.
    pub fn own(&self) -> &'a MethodDesc
        ensures { result.now ≡ method_of self.now.program self.now.method }
    {
        self.own
    }

    pub fn body(&self) -> &'a Body
        ensures { result.now ≡ self.now.body }
    {
        self.body
    }

    /// The instructions.
    pub fn instrs(&self) -> &'a [Instr]
        ensures list { result.now ≡ self.now.body.instrs }
        ensures few { length result.now < 2 ^ 31 }
    {
        self.body.instrs.as_slice()
    }

    /// The places of the prefix calls, rising.
    pub fn prefixes(&self, alloc: Global) -> Result<Vec<u32>, AllocError>
        ensures places { IfOk result (λ places. places.items ≡ prefixes self.now) }
        ensures below { IfOk result (λ places. All (λ at. at < 2 ^ 31) places.items) }
    {
        let instrs = self.instrs();
        let mut places = Vec::new(alloc);
        let mut place = 0;
        for instr in instrs {
            if is_prefix(contract_call(self.program, instr)) {
                places.push(place)?;
            }
            place += 1;
        }
        Ok(places)
    }

    /// The boundaries, rising.
    pub fn boundaries(&self, alloc: Global) -> Result<U32s, AllocError>
        ensures { IfOk result (λ places. places ≡ boundaries self.now) }
    {
        il_flow::boundaries(alloc, self.body, self.heights)
    }

    /// The range of the argument that so many others follow, where the last of them ends at a place.
    pub fn argument(&self, others: usize, to: u32) -> Option<(usize, usize)>
        requires { to < length self.now.body.instrs }
        ensures { result ≡ argument self.now others to }
    {
        let heights = self.heights;
        argument_before(
            self.program,
            self.own,
            self.body,
            heights.as_slice(),
            others,
            to as usize,
        )
    }

    /// Where the last argument of the call at a place begins.
    pub fn last_argument(&self, at: u32) -> Option<usize>
        requires { at < length self.now.body.instrs }
        ensures { result ≡ last_argument self.now at }
    {
        match self.argument(0, at) {
            Some((from, _)) => Some(from),
            None => None,
        }
    }

    /// Whether the instruction at a place leaves nothing on the stack.
    pub fn leaves_none(&self, at: u32, instr: &Instr) -> bool
        ensures { result ≡ (height_behind self.now (at, instr.now) == 0) }
    {
        let effect = effect_in(self.program, self.own, instr);
        let height = self
            .heights
            .as_slice()
            .get(at as usize)
            .copied()
            .unwrap_or(0);
        effect.empties || (effect.leaves == 0 && height as usize <= effect.takes)
    }
}
