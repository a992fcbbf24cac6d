// The locals of a lead-in that hold closures.

ghost use Rattle.std.specs.Prelude.{◌≡◌, ◌+◌, ◌<◌, ◌^◌, ◌==◌, length, option_and_then, option_copied, IfOk};
ghost use Rattle.std.specs.List.{list_any, slice_range};
ghost use Rattle.contract_parts.specs.Parts.{lead_end, statements};
ghost use Rattle.contract_parts.specs.Closures.{made_by, next_line, made_at, is_addressed, stores_of, is_stored_once, candidate, candidates, loads, is_constant, is_earlier, is_value, sets_field, loads_other, is_field_load, reads_fields, uses_well, is_well_used, well_used, closures};

use crate::code::Code;
use crate::lines::{first_line, is_nop, three_lines};
use crate::locals::{is_it, loaded, named, stored};
use crate::made::Made;
use crate::plain::makes_plain_closure;
use crate::slices::part;
use crate::statement::Statement;
use cil_model::Instr;
use std::alloc::{AllocError, Global};
use std::marker::Model;

/// A body with its statements and where its lead-in ends.
#[derive(Drop)]
pub struct LeadIn<'a> {
    code: &'a Code<'a>,
    end: u32,
    parts: &'a [Statement],
}

impl<'a> Model for LeadIn<'a> {
    ghost use Rattle.std.specs.Prelude.{◌≡◌};
    ghost use Rattle.std.specs.Coded.{codes};
    ghost use Rattle.cil_model.specs.contracts.ty.Ty as ty;
    ghost use Rattle.contract_parts.specs.Flow.{Code};
    ghost use Rattle.contract_parts.specs.Parts.{lead_end, statements};

    ghost Value = { Code };

    ghost coded = { Prim.hlevel (codes, ty.the_row.coded) };

    ghost view = { λ b. b.code.now };

    ghost invariant = { λ b. (b.end ≡ lead_end b.code.now) × (b.parts.now ≡ statements b.code.now) };
}

/// The local of a `stloc` at a place, for what an instruction at another place makes.
fn made_by(maker: u32, place: u32, instr: &Instr) -> Option<Made>
    ensures { result ≡ made_by maker (place, instr.now) }
{
    match stored(instr) {
        Some(local) => Some(Made {
            local,
            maker,
            place,
        }),
        None => None,
    }
}

/// What is made at a place goes into a local by the next instruction.
fn stored_next(code: &Code, maker: u32) -> Option<Made>
    requires { maker < length code.now.body.instrs }
    ensures { result ≡ option_and_then (made_by maker) (next_line code.now (maker + 1)) }
{
    let rest = &code.instrs()[maker as usize + 1..];
    let mut place = maker + 1;
    for instr in rest {
        if !is_nop(instr) {
            return made_by(maker, place, instr);
        }
        place += 1;
    }
    None
}

fn made_at(code: &Code, place: u32, instr: &Instr) -> Option<Made>
    requires { place < length code.now.body.instrs }
    ensures { result ≡ made_at code.now (place, instr.now) }
{
    if makes_plain_closure(code.program(), instr) {
        stored_next(code, place)
    } else {
        None
    }
}

fn is_addressed(k: u32, instr: &Instr) -> bool
    ensures { result ≡ is_addressed k instr.now }
{
    instr.op == 0xFE0D && is_it(k, named(instr))
}

fn takes_address(instrs: &[Instr], k: u32) -> bool
    ensures { result ≡ list_any (is_addressed k) instrs.now }
{
    instrs.iter().any(|instr| is_addressed(k, instr))
}

fn is_stored_in(instrs: &[Instr], k: u32) -> bool
    ensures { result ≡ (stores_of instrs.now k == 1) }
{
    instrs
        .iter()
        .filter(|instr| is_it(k, stored(instr)))
        .count()
        == 1
}

pub(crate) fn loads(k: u32, instr: &Instr) -> bool
    ensures { result ≡ loads k instr.now }
{
    is_it(k, loaded(instr))
}

fn is_constant(instr: &Instr) -> bool
    ensures { result ≡ is_constant instr.now }
{
    matches!(instr.op, 0xFE09 | 0x14 | 0x20 | 0x21 | 0x72)
}

fn is_earlier(made: &[Made], one: &Made, k: u32) -> bool
    ensures { result ≡ is_earlier made.now one.now k }
{
    made.iter()
        .any(|other| other.local == k && other.place < one.place)
}

fn is_value(made: &[Made], one: &Made, instr: &Instr) -> bool
    ensures { result ≡ is_value made.now one.now instr.now }
{
    is_constant(instr)
        || match loaded(instr) {
            Some(k) => is_earlier(made, one, k),
            None => false,
        }
}

fn loads_other(made: &[Made], k: u32, instr: &Instr) -> bool
    ensures { result ≡ loads_other made.now k instr.now }
{
    made.iter()
        .any(|other| other.local != k && loads(other.local, instr))
}

/// The statement sets a field of the local to a value that a closure may hold.
fn is_set_up(made: &[Made], one: &Made, instrs: &[Instr]) -> bool
    ensures { result ≡ sets_field (loads one.now.local) (is_value made.now one.now) instrs.now }
{
    match three_lines(instrs) {
        Some((of, value, store)) => {
            loads(one.local, of) && is_value(made, one, value) && store.op == 0x7D
        }
        None => false,
    }
}

/// The statement puts the local into a field of another one.
fn is_put(made: &[Made], k: u32, instrs: &[Instr]) -> bool
    ensures { result ≡ sets_field (loads_other made.now k) (loads k) instrs.now }
{
    match three_lines(instrs) {
        Some((of, value, store)) => {
            loads_other(made, k, of) && loads(k, value) && store.op == 0x7D
        }
        None => false,
    }
}

fn is_field_load(line: Option<&Instr>) -> bool
    ensures { result ≡ is_field_load (option_copied line.entry) }
{
    match line {
        Some(instr) => instr.op == 0x7B,
        None => false,
    }
}

/// Each `ldloc` of the local is followed by `ldfld`.
fn reads_fields(k: u32, instrs: &[Instr]) -> bool
    ensures { result ≡ reads_fields k instrs.now }
{
    for at in 0..instrs.len() {
        if loads(k, &instrs[at]) && !is_field_load(first_line(&instrs[at + 1..])) {
            return false;
        }
    }
    true
}

fn uses_well(made: &[Made], one: &Made, instrs: &[Instr]) -> bool
    ensures { result ≡ uses_well made.now one.now instrs.now }
{
    is_set_up(made, one, instrs)
        || is_put(made, one.local, instrs)
        || reads_fields(one.local, instrs)
}

impl<'a> LeadIn<'a> {
    /// A body with its statements and the end of its lead-in.
    pub fn new(code: &'a Code<'a>, end: u32, parts: &'a [Statement]) -> LeadIn<'a>
        requires end { end ≡ lead_end code.now }
        requires parts { parts.now ≡ statements code.now }
        ensures { result ≡ code.entry.now }
    {
        LeadIn { code, end, parts }
    }

    /// Where the lead-in ends.
    pub fn end(&self) -> u32
        ensures { result ≡ lead_end self.now }
    {
        self.end
    }

    /// The statements of the body.
    pub fn parts(&self) -> &'a [Statement]
        ensures { result.now ≡ statements self.now }
    {
        self.parts
    }

    pub fn code(&self) -> &'a Code<'a>
        ensures { result.now ≡ self.now }
    {
        self.code
    }

    pub(crate) fn instrs(&self) -> &'a [Instr]
        ensures list { result.now ≡ self.now.body.instrs }
        ensures few { length result.now < 2 ^ 31 }
    {
        let code = self.code;
        code.instrs()
    }

    /// Just one `stloc` stores the local, in the lead-in, and no `ldloca` names it.
    fn is_stored_once(&self, made: &Made) -> bool
        ensures { result ≡ is_stored_once self.now made.now }
    {
        made.place < self.end()
            && is_stored_in(self.instrs(), made.local)
            && !takes_address(self.instrs(), made.local)
    }

    fn candidate(&self, place: u32, instr: &Instr) -> Option<Made>
        requires { place < length self.now.body.instrs }
        ensures { result ≡ candidate self.now (place, instr.now) }
    {
        match made_at(self.code(), place, instr) {
            Some(made) => {
                if self.is_stored_once(&made) {
                    Some(made)
                } else {
                    None
                }
            }
            None => None,
        }
    }

    /// The locals that may hold a closure.
    fn candidates(&self, alloc: Global) -> Result<Vec<Made>, AllocError>
        ensures { IfOk result (λ made. made.items ≡ candidates self.now) }
    {
        let instrs = self.instrs();
        let mut made = Vec::new(alloc);
        let mut place = 0;
        for instr in instrs {
            if let Some(one) = self.candidate(place, instr) {
                made.push(one)?;
            }
            place += 1;
        }
        Ok(made)
    }

    fn uses_well(&self, made: &[Made], one: &Made, statement: &Statement) -> bool
        ensures { result ≡ uses_well made.now one.now (slice_range self.now.body.instrs statement.now.from statement.now.to) }
    {
        let instrs = self.instrs();
        uses_well(
            made,
            one,
            part(instrs, statement.from as usize, statement.to as usize),
        )
    }

    /// Where just these locals count as closure locals, one of them is used as they are.
    fn is_well_used(&self, made: &[Made], one: &Made) -> bool
        ensures { result ≡ is_well_used self.now made.now one.now }
    {
        let parts = self.parts();
        for statement in parts {
            if statement.to <= self.end() && !self.uses_well(made, one, statement) {
                return false;
            }
        }
        true
    }

    fn well_used(&self, alloc: Global, made: &[Made]) -> Result<Vec<Made>, AllocError>
        ensures { IfOk result (λ used. used.items ≡ well_used self.now made.now) }
    {
        let mut used = Vec::new(alloc);
        for one in made {
            if self.is_well_used(made, one) {
                used.push(*one)?;
            }
        }
        Ok(used)
    }

    /// The closure locals.
    pub fn closures(&self, alloc: Global) -> Result<Vec<Made>, AllocError>
        ensures { IfOk result (λ made. made.items ≡ closures self.now) }
    {
        let mut made = self.candidates(alloc)?;
        let passes = made.len();
        for pass in 0..passes {
            made = self.well_used(alloc, &made)?;
        }
        Ok(made)
    }
}
