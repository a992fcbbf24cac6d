// The rules on contract blocks, each at a place.

ghost use Rattle.std.specs.Prelude.{◌≡◌, ◌<◌, ◌≤◌, ◌^◌, ◌+◌, ◌-◌, ◌&&◌, ◌||◌, false, not, length, IsTrue};
ghost use Rattle.std.specs.List.{list_any, slice_range};
ghost use Rattle.cil_base.specs.Refusals.{first_of};
ghost use Rattle.cil_semantics.specs.Lookups.{method_of, type_of};
ghost use Rattle.contract_parts.specs.Flow.{placed, last_argument};
ghost use Rattle.cil_semantics.specs.Words.{maybe};
ghost use Rattle.cil_semantics.specs.ContractCalls.{contract_call};
ghost use Rattle.contract_extract.specs.OwnContract.{ended_at};
ghost use Rattle.contract_parts.specs.Parts.{segment_instrs, segment_code, is_nop, is_throw, is_it, stored};
ghost use Rattle.contract_extract.specs.Rules.{is_generated, breaks_1, meets, is_ret, is_left_empty, drops_code, segment_breaks_2, breaks_2, breaks_3, breaks_5, may_name_result, is_ensures, is_postcondition, kind_at, outside_range, isnt_of_entry, is_stored_by, range_breaks_4, old_breaks_4, breaks_4, range_holds, named_breaks_6, is_in_old, breaks_6, segment_from, breaks_7, place_of, tests_at, tests};

use crate::block::Block;
use crate::clause::has_exception;
use crate::exceptions::has_wrong_type;
use cil_base::{Place, Refusal, Rule};
use cil_model::{ClauseKind, Instr, Program};
use cil_semantics::ContractCall;
use contract_parts::{
    Segment, contract_call, ended_kind, ends_block, has_result, is_it, is_nop, is_prefix, is_throw,
    named, part, read, stored,
};

fn is_ret(instr: &Instr) -> bool
    ensures { result ≡ is_ret instr.now }
{
    instr.op == 0x2A
}

fn is_ensures(kind: Option<ClauseKind>) -> bool
    ensures { result ≡ is_ensures kind }
{
    matches!(kind, Some(ClauseKind::Ensures))
}

fn is_postcondition(kind: Option<ClauseKind>) -> bool
    ensures { result ≡ is_postcondition kind }
{
    matches!(kind, Some(ClauseKind::Ensures | ClauseKind::Throws))
}

fn is_generated_type(p: &Program, k: u32) -> bool
    ensures { result ≡ (type_of p.now k).generated }
{
    match p.types.get(k as usize) {
        Some(ty) => ty.generated,
        None => false,
    }
}

fn is_generated(p: &Program, m: u32) -> bool
    ensures { result ≡ is_generated p.now m }
{
    match p.methods.get(m as usize) {
        Some(desc) => desc.generated || is_generated_type(p, desc.owner),
        None => is_generated_type(p, 0),
    }
}

fn may_name_result(p: &Program, m: u32) -> bool
    ensures { result ≡ may_name_result p.now m }
{
    match p.methods.get(m as usize) {
        Some(desc) => has_result(desc) || desc.abbreviator,
        None => false,
    }
}

fn is_invariant_method(p: &Program, m: u32) -> bool
    ensures { result ≡ (method_of p.now m).invariant }
{
    match p.methods.get(m as usize) {
        Some(desc) => desc.invariant,
        None => false,
    }
}

/// The row of a method.
fn place_of(p: &Program, m: u32) -> Place
    ensures { result ≡ place_of p.now m }
{
    match p.methods.get(m as usize) {
        Some(desc) => Place {
            assembly: desc.assembly,
            table: 6,
            row: desc.row,
        },
        None => Place {
            assembly: 0,
            table: 6,
            row: 0,
        },
    }
}

impl<'a> Block<'a> {
    pub fn call(&self, instr: &Instr) -> ContractCall
        ensures { result ≡ contract_call self.now.program instr.now }
    {
        let code = self.code;
        contract_call(code.program(), instr)
    }

    /// The kind of the clause that the call at a place ends.
    pub fn ended_at(&self, at: u32) -> Option<ClauseKind>
        ensures { result ≡ ended_at self.now at }
    {
        match self.instrs().get(at as usize) {
            Some(instr) => ended_kind(self.call(instr)),
            None => None,
        }
    }

    /// The kind of the clause in whose segment a place lies.
    fn kind_at(&self, place: u32) -> Option<ClauseKind>
        ensures { result ≡ kind_at self.now place }
    {
        match self.segment_at(place) {
            Some(segment) => self.ended_at(segment.at),
            None => None,
        }
    }

    /// C1: a prefix call inside a region, crossed by a branch, or in code that a compiler made.
    fn breaks_1(&self, place: u32, instr: &Instr) -> bool
        requires { place < length self.now.body.instrs }
        ensures { result ≡ breaks_1 self.now (place, instr.now) }
    {
        let code = self.code;
        is_prefix(self.call(instr))
            && (self.is_in_region(place)
                || self.is_crossed(place)
                || is_generated(code.program(), code.method()))
    }

    /// A path reaches the segment's prefix call, which leaves nothing on the stack.
    #[tactic(auto, using(crate::proofs::TestLaws::stands_within))]
    fn is_left_empty(&self, segment: &Segment) -> bool
        ensures told { result ≡ is_left_empty self.now segment.now }
        ensures within { IsTrue result → segment.now.at < length self.now.body.instrs }
    {
        let code = self.code;
        match self.instrs().get(segment.at as usize) {
            Some(instr) => code.is_reached(segment.at) && code.leaves_none(segment.at, instr),
            None => false,
        }
    }

    /// The segment holds a part of a region.
    fn holds_region(&self, segment: &Segment) -> bool
        requires { segment.now.at < length self.now.body.instrs }
        ensures { result ≡ list_any (meets segment.now.from (segment.now.at + 1)) self.now.body.regions }
    {
        self.meets_region(segment.from, segment.at)
    }

    fn holds_ret(&self, segment: &Segment) -> bool
        ensures { result ≡ list_any is_ret (segment_instrs self.now segment.now) }
    {
        self.segment_code(segment).iter().any(is_ret)
    }

    /// The call is EndContractBlock, which gives no clause, and code stands before it.
    fn drops_code(&self, segment: &Segment) -> bool
        ensures { result ≡ drops_code self.now segment.now }
    {
        match self.instrs().get(segment.at as usize) {
            Some(instr) => ends_block(self.call(instr)) && self.acts_before_call(segment),
            None => false,
        }
    }

    /// More than nops stands before the segment's call.
    fn acts_before_call(&self, segment: &Segment) -> bool
        ensures { result ≡ list_any (λ i. not (is_nop i)) (slice_range self.now.body.instrs segment.now.from segment.now.at) }
    {
        part(self.instrs(), segment.from as usize, segment.at as usize)
            .iter()
            .any(|instr| !is_nop(instr))
    }

    fn segment_breaks_2(&self, segment: &Segment) -> bool
        ensures { result ≡ segment_breaks_2 self.now segment.now }
    {
        !self.is_left_empty(segment)
            || self.holds_region(segment)
            || self.holds_ret(segment)
            || self.drops_code(segment)
    }

    /// C2: a segment that begins here isn't left empty, or holds a part of a region or a ret.
    fn breaks_2(&self, place: u32) -> bool
        ensures { result ≡ maybe false (segment_breaks_2 self.now) (segment_from self.now place) }
    {
        match self.segment_from(place) {
            Some(segment) => self.segment_breaks_2(segment),
            None => false,
        }
    }

    /// C3: a call that stands where it has no meaning.
    fn breaks_3(&self, place: u32, instr: &Instr) -> bool
        ensures { result ≡ breaks_3 self.now (place, instr.now) }
    {
        let code = self.code;
        let p = code.program();
        let m = code.method();
        match self.call(instr) {
            ContractCall::GivesResult => {
                !(is_ensures(self.kind_at(place)) && may_name_result(p, m))
            }
            ContractCall::TakesOld | ContractCall::ReadsArgument => {
                !is_postcondition(self.kind_at(place))
            }
            ContractCall::EndsClause(ClauseKind::Invariant) => !is_invariant_method(p, m),
            _ => false,
        }
    }

    /// C5: a segment that begins here holds a throw.
    fn breaks_5(&self, place: u32, instr: &Instr) -> bool
        ensures { result ≡ breaks_5 self.now (place, instr.now) }
    {
        match self.segment_from(place) {
            Some(segment) => self.holds_throw(segment),
            None => false,
        }
    }

    fn holds_throw(&self, segment: &Segment) -> bool
        ensures { result ≡ list_any is_throw (segment_instrs self.now segment.now) }
    {
        self.segment_code(segment)
            .iter()
            .any(|instr| is_throw(instr))
    }

    /// The instructions of a segment, its prefix call last.
    pub fn segment_code(&self, segment: &Segment) -> &'a [Instr]
        ensures list { result.now ≡ segment_instrs self.now segment.now }
        ensures few { length result.now < 2 ^ 31 }
        ensures within { length result.now ≤ 2 ^ 31 - segment.now.from }
    {
        part(
            self.instrs(),
            segment.from as usize,
            segment.at as usize + 1,
        )
    }

    /// Another instruction of the segment than those of a range stores a local.
    fn is_stored_outside(&self, segment: &Segment, from: usize, to: u32, k: u32) -> bool
        ensures { result ≡ list_any (λ j. is_it k (stored j)) (outside_range self.now segment.now from to) }
    {
        let code = self.segment_code(segment);
        let mut found = false;
        let mut place = segment.from as usize;
        for instr in code {
            if !(from <= place && place < to as usize) {
                found = found || is_it(k, stored(instr));
            }
            place += 1;
        }
        found
    }

    /// An instruction of an argument of OldValue that isn't to be evaluated at entry.
    fn isnt_of_entry(&self, segment: &Segment, from: usize, to: u32, instr: &Instr) -> bool
        ensures { result ≡ (isnt_of_entry (contract_call self.now.program instr.now) || is_stored_by (outside_range self.now segment.now from to) instr.now) }
    {
        match self.call(instr) {
            ContractCall::GivesResult | ContractCall::TakesOld | ContractCall::ReadsArgument =>
                true,
            _ => match read(instr) {
                Some(k) => self.is_stored_outside(segment, from, to, k),
                None => false,
            },
        }
    }

    fn range_breaks_4(&self, from: usize, to: u32, segment: &Segment) -> bool
        ensures { result ≡ range_breaks_4 self.now from to segment.now }
    {
        part(self.instrs(), from, to as usize)
            .iter()
            .any(|instr| self.isnt_of_entry(segment, from, to, instr))
    }

    /// The range of an argument of OldValue, at the place of its call, holds a place.
    fn range_holds(&self, place: u32, at: u32, instr: &Instr) -> bool
        requires { at < length self.now.body.instrs }
        ensures { result ≡ range_holds self.now place (at, instr.now) }
    {
        match self.call(instr) {
            ContractCall::TakesOld => match self.last_argument(at) {
                Some(from) => from <= place as usize && place < at,
                None => false,
            },
            _ => false,
        }
    }

    fn named_breaks_6(&self, place: u32, k: u32) -> bool
        requires { place < length self.now.body.instrs }
        ensures { result ≡ named_breaks_6 self.now place k }
    {
        self.is_in_block(place)
            && (if self.is_closure(k) {
                self.is_in_old(place)
            } else {
                self.lead_writes(k)
            })
    }

    fn is_in_old(&self, place: u32) -> bool
        ensures { result ≡ is_in_old self.now place }
    {
        match self.segment_at(place) {
            Some(segment) => self.old_holds(segment, place),
            None => false,
        }
    }

    fn old_holds(&self, segment: &Segment, place: u32) -> bool
        ensures { result ≡ list_any (range_holds self.now place) (segment_code self.now segment.now) }
    {
        let code = self.segment_code(segment);
        let mut found = false;
        let mut at = segment.from as usize;
        for instr in code {
            found = found || self.range_holds(place, at as u32, instr);
            at += 1;
        }
        found
    }

    /// C6: a local that isn't to be named here.
    fn breaks_6(&self, place: u32, instr: &Instr) -> bool
        requires { place < length self.now.body.instrs }
        ensures { result ≡ breaks_6 self.now (place, instr.now) }
    {
        let names = match named(instr) {
            Some(k) => self.named_breaks_6(place, k),
            None => false,
        };
        let reads = match read(instr) {
            Some(k) => self.read_breaks_6(place, k),
            None => false,
        };
        names || reads
    }

    /// C4: an OldValue call that no path reaches, or whose argument isn't to be evaluated at entry.
    fn breaks_4(&self, place: u32, instr: &Instr) -> bool
        requires { place < length self.now.body.instrs }
        ensures { result ≡ breaks_4 self.now (place, instr.now) }
    {
        let code = self.code;
        match self.call(instr) {
            ContractCall::TakesOld => !code.is_reached(place) || self.old_breaks_4(place),
            _ => false,
        }
    }

    fn old_breaks_4(&self, at: u32) -> bool
        requires { at < length self.now.body.instrs }
        ensures { result ≡ old_breaks_4 self.now at (last_argument self.now at) }
    {
        match self.last_argument(at) {
            Some(from) => match self.segment_at(at) {
                Some(segment) => self.range_breaks_4(from, at, segment),
                None => false,
            },
            None => true,
        }
    }

    /// C7: the exception of a contract can't be thrown, or made.
    fn breaks_7(&self, place: u32, instr: &Instr) -> bool
        ensures { result ≡ breaks_7 self.now (place, instr.now) }
    {
        let code = self.code();
        match ended_kind(self.call(instr)) {
            Some(kind) => {
                has_exception(kind)
                    && has_wrong_type(code.program(), code.method(), kind, &instr.operand)
            }
            None => false,
        }
    }

    /// The first rule that an instruction breaks at its place.
    fn first_at(&self, place: u32, instr: &Instr) -> Option<Refusal>
        requires { place < length self.now.body.instrs }
        ensures { result ≡ first_of (tests_at self.now (place, instr.now)) }
    {
        let rule = if self.breaks_1(place, instr) {
            Rule::C1
        } else if self.breaks_2(place) {
            Rule::C2
        } else if self.breaks_3(place, instr) {
            Rule::C3
        } else if self.breaks_4(place, instr) {
            Rule::C4
        } else if self.breaks_5(place, instr) {
            Rule::C5
        } else if self.breaks_6(place, instr) {
            Rule::C6
        } else if self.breaks_7(place, instr) {
            Rule::C7
        } else {
            return None;
        };
        let code = self.code;
        Some(place_of(code.program(), code.method()).refusal(rule, code.offset(place)))
    }

    /// The first rule that the body breaks, by place and then by rule.
    #[tactic(auto, unfolding(crate::specs::Rules::tests))]
    pub fn first_refusal(&self) -> Option<Refusal>
        ensures { result ≡ first_of (tests self.now) }
    {
        let instrs = self.instrs();
        let mut place = 0;
        for instr in instrs {
            let refusal = self.first_at(place, instr);
            if refusal.is_some() {
                return refusal;
            }
            place += 1;
        }
        None
    }
}
