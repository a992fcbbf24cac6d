// The code that sets a closure up anew for a clause.

ghost use Rattle.std.specs.Prelude.{◌≡◌, ◌++◌, ◌+◌, true, filter, IfOk, OnOk};
ghost use Rattle.std.specs.List.{list_any, flat_map, slice_range};
ghost use Rattle.contract_parts.specs.Parts.{no_nops};
ghost use Rattle.contract_parts.specs.Closures.{loads, sets_field, field_setting, own_setup, is_put_into, holds_local, is_with, with_inner, is_among, needed, setups, setup_of, lead_statements, closures, is_closure};

use crate::lead_in::{LeadIn, loads};
use crate::lines::{is_nop, three_lines};
use crate::made::Made;
use crate::slices::part;
use crate::statement::Statement;
use cil_model::{Instr, Instrs};
use std::alloc::{AllocError, Global};
use std::marker::Model;

/// A body with its lead-in and its closure locals.
#[derive(Drop)]
pub struct Closures<'a> {
    lead: &'a LeadIn<'a>,
    made: &'a [Made],
}

impl<'a> Model for Closures<'a> {
    ghost use Rattle.std.specs.Prelude.{◌≡◌};
    ghost use Rattle.std.specs.Coded.{codes};
    ghost use Rattle.cil_model.specs.contracts.ty.Ty as ty;
    ghost use Rattle.contract_parts.specs.Flow.{Code};
    ghost use Rattle.contract_parts.specs.Closures.{closures};

    ghost Value = { Code };

    ghost coded = { Prim.hlevel (codes, ty.the_row.coded) };

    ghost view = { λ b. b.lead.now };

    ghost invariant = { λ b. b.made.now ≡ closures b.lead.now };
}

/// The statement sets a field of the local.
fn sets_own_field(k: u32, instrs: &[Instr]) -> bool
    ensures { result ≡ sets_field (loads k) (λ v. true) instrs.now }
{
    match three_lines(instrs) {
        Some((of, _, store)) => loads(k, of) && store.op == 0x7D,
        None => false,
    }
}

/// The statement puts one local into a field of the other.
fn puts_into_field(into: u32, k: u32, instrs: &[Instr]) -> bool
    ensures { result ≡ sets_field (loads into) (loads k) instrs.now }
{
    match three_lines(instrs) {
        Some((of, value, store)) => loads(into, of) && loads(k, value) && store.op == 0x7D,
        None => false,
    }
}

/// Appends copies of instructions.
pub fn copy_all(alloc: Global, out: &mut Instrs, instrs: &[Instr]) -> Result<(), AllocError>
    ensures { OnOk result (out.new ≡ out.old ++ instrs.now) }
{
    for instr in instrs {
        out.push(instr.copied(alloc)?)?;
    }
    Ok(())
}

fn copy_lines(alloc: Global, out: &mut Instrs, instrs: &[Instr]) -> Result<(), AllocError>
    ensures { OnOk result (out.new ≡ out.old ++ no_nops instrs.now) }
{
    for instr in instrs {
        if !is_nop(instr) {
            out.push(instr.copied(alloc)?)?;
        }
    }
    Ok(())
}

fn copy_setting(alloc: Global, out: &mut Instrs, k: u32, instrs: &[Instr]) -> Result<(), AllocError>
    ensures { OnOk result (out.new ≡ out.old ++ field_setting k instrs.now) }
{
    if sets_own_field(k, instrs) {
        copy_lines(alloc, out, instrs)
    } else {
        Ok(())
    }
}

fn holds_local(made: &[Made], k: u32) -> bool
    ensures { result ≡ holds_local made.now k }
{
    made.iter().any(|one| one.local == k)
}

fn is_among(locals: &[u32], made: &Made) -> bool
    ensures { result ≡ is_among locals.now made.now }
{
    locals.iter().any(|k| *k == made.local)
}

impl<'a> Closures<'a> {
    pub fn new(lead: &'a LeadIn<'a>, made: &'a [Made]) -> Closures<'a>
        requires { made.now ≡ closures lead.now }
        ensures { result ≡ lead.entry.now }
    {
        Closures { lead, made }
    }

    /// The closure locals.
    pub fn made(&self) -> &'a [Made]
        ensures { result.now ≡ closures self.now }
    {
        self.made
    }

    pub fn lead(&self) -> &'a LeadIn<'a>
        ensures { result.now ≡ self.now }
    {
        self.lead
    }

    pub fn is_closure(&self, k: u32) -> bool
        ensures { result ≡ is_closure self.now k }
    {
        holds_local(self.made(), k)
    }

    fn statement(&self, statement: &Statement) -> &'a [Instr]
        ensures { result.now ≡ slice_range self.now.body.instrs statement.now.from statement.now.to }
    {
        let lead = self.lead();
        part(
            lead.instrs(),
            statement.from as usize,
            statement.to as usize,
        )
    }

    /// A statement of the lead-in puts the closure into a field of the other.
    fn is_put_into(&self, inner: &Made, outer: &Made) -> bool
        ensures { result ≡ is_put_into self.now inner.now outer.now }
    {
        let lead = self.lead();
        let end = lead.end();
        let parts = lead.parts();
        for statement in parts {
            if statement.to <= end
                && puts_into_field(outer.local, inner.local, self.statement(statement))
            {
                return true;
            }
        }
        false
    }

    fn is_put_into_one(&self, inner: &Made, made: &[Made]) -> bool
        ensures { result ≡ list_any (is_put_into self.now inner.now) made.now }
    {
        made.iter().any(|outer| self.is_put_into(inner, outer))
    }

    fn is_with(&self, made: &[Made], inner: &Made) -> bool
        ensures { result ≡ is_with self.now made.now inner.now }
    {
        holds_local(made, inner.local) || self.is_put_into_one(inner, made)
    }

    /// Some closures, and those that are put into them.
    fn with_inner(&self, alloc: Global, made: &[Made]) -> Result<Vec<Made>, AllocError>
        ensures { IfOk result (λ all. all.items ≡ with_inner self.now made.now) }
    {
        let closures = self.made();
        let mut all = Vec::new(alloc);
        for inner in closures {
            if self.is_with(made, inner) {
                all.push(*inner)?;
            }
        }
        Ok(all)
    }

    fn among(&self, alloc: Global, locals: &[u32]) -> Result<Vec<Made>, AllocError>
        ensures { IfOk result (λ among. among.items ≡ filter (is_among locals.now) (closures self.now)) }
    {
        let closures = self.made();
        let mut among = Vec::new(alloc);
        for one in closures {
            if is_among(locals, one) {
                among.push(*one)?;
            }
        }
        Ok(among)
    }

    /// The closures that some locals need.
    fn needed(&self, alloc: Global, locals: &[u32]) -> Result<Vec<Made>, AllocError>
        ensures { IfOk result (λ all. all.items ≡ needed self.now locals.now) }
    {
        let passes = self.made().len();
        let mut all = self.among(alloc, locals)?;
        for pass in 0..passes {
            all = self.with_inner(alloc, &all)?;
        }
        Ok(all)
    }

    /// Copies the statements that set a local's fields.
    fn copy_settings(&self, alloc: Global, out: &mut Instrs, k: u32) -> Result<(), AllocError>
        ensures { OnOk result (out.new ≡ out.old ++ flat_map (field_setting k) (lead_statements self.now)) }
    {
        let lead = self.lead();
        let end = lead.end();
        let parts = lead.parts();
        for statement in parts {
            if statement.to <= end {
                copy_setting(alloc, out, k, self.statement(statement))?;
            }
        }
        Ok(())
    }

    fn copy_setup(&self, alloc: Global, out: &mut Instrs, made: &Made) -> Result<(), AllocError>
        ensures { OnOk result (out.new ≡ out.old ++ own_setup self.now made.now) }
    {
        let lead = self.lead();
        let instrs = lead.instrs();
        let maker = made.maker as usize;
        let place = made.place as usize;
        copy_all(alloc, out, part(instrs, maker, maker + 1))?;
        copy_all(alloc, out, part(instrs, place, place + 1))?;
        self.copy_settings(alloc, out, made.local)
    }

    /// The set-up of the closure locals among some.
    pub fn setups(&self, alloc: Global, locals: &[u32]) -> Result<Instrs, AllocError>
        ensures { IfOk result (λ out. out ≡ setups self.now locals.now) }
    {
        let all = self.needed(alloc, locals)?;
        let mut out = Instrs::new(alloc);
        for made in &all {
            self.copy_setup(alloc, &mut out, made)?;
        }
        Ok(out)
    }

    /// The set-up of a local, if it is a closure local.
    pub fn setup_of(&self, alloc: Global, k: u32) -> Result<Option<Instrs>, AllocError>
        ensures { IfOk result (λ out. out ≡ setup_of self.now k) }
    {
        if self.is_closure(k) {
            Ok(Some(self.setups(alloc, &[k])?))
        } else {
            Ok(None)
        }
    }
}
