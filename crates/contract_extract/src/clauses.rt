// The clauses and asserts of a contract block.

ghost use Rattle.std.specs.Prelude.{◌≡◌, ◌<◌, ◌==◌, map, length, IfOk, OnOk};
ghost use Rattle.std.specs.List.{list_any, filter_map};
ghost use Rattle.contract_parts.specs.Parts.{segments, segment_code};
ghost use Rattle.contract_parts.specs.Flow.{placed};
ghost use Rattle.contract_extract.specs.Clauses.{locals_named, setup, code_of, local_type, clause_instrs, clause_locals, old_from, old_at, clause_olds};
ghost use Rattle.contract_extract.specs.OwnContract.{ended, checked, clauses_in, inlines, label_of, inline_labels, has_message_at, exception_at, bare_clause, inline_clause, clause_of};

use crate::block::Block;
use crate::clause::{argument_type, exception_of, has_message};
use crate::halving::calls_within;
use crate::labels::label;
use crate::locals::{Locals, Use};
use crate::moves::{all_with_locals, moved, push_moved};
use crate::numbers::{Counted, Ended, count_all};
use cil_base::Name;
use cil_model::{Clause, ClauseKind, Clauses, Instr, Instrs, Names, Old, Olds, TyRef, TyRefs};
use cil_semantics::ContractCall;
use contract_parts::{Segment, checked_kind, copy_all, named};
use std::alloc::{AllocError, Global};

/// The locals that instructions name, each once.
fn locals_named(alloc: Global, instrs: &[Instr]) -> Result<Locals, AllocError>
    ensures { IfOk result (λ locals. locals ≡ locals_named instrs.now) }
{
    Locals::used(alloc, Use::Names, instrs)
}

fn old_from(
    setup: usize,
    segment: &Segment,
    at: u32,
    from: Option<usize>,
    ty: Option<TyRef>,
) -> Option<Old>
    ensures { result ≡ old_from setup segment.now at from ty }
{
    match from {
        Some(from) => match ty {
            Some(ty) => Some(Old {
                from: moved(setup, segment, from),
                to: moved(setup, segment, at as usize),
                ty,
            }),
            None => None,
        },
        None => None,
    }
}

impl<'a> Block<'a> {
    /// The instructions of a clause by the body's locals, with the set-up of its closures first, and
    /// how many those of the set-up are.
    fn code_of(&self, alloc: Global, segment: &Segment) -> Result<(Instrs, usize), AllocError>
        ensures { IfOk result (λ out. (out.0 ≡ code_of self.now segment.now) × (out.1 ≡ length (setup self.now segment.now))) }
    {
        let instrs = self.segment_code(segment);
        let locals = locals_named(alloc, instrs)?.listed(alloc)?;
        let mut out = self.closures().setups(alloc, &locals)?;
        let setup = out.len();
        push_moved(alloc, &mut out, setup, segment, instrs)?;
        Ok((out, setup))
    }

    fn local_type(&self, k: u32) -> Option<TyRef>
        ensures { result ≡ local_type self.now k }
    {
        let code = self.code();
        match code.body().locals {
            Some(token) => Some(TyRef {
                assembly: code.own().assembly,
                token,
                index: k,
                under: None,
            }),
            None => None,
        }
    }

    fn local_types(&self, alloc: Global, locals: &Locals) -> Result<TyRefs, AllocError>
        ensures { IfOk result (λ out. out ≡ filter_map (local_type self.now) locals.now) }
    {
        let numbers = locals.listed(alloc)?;
        let mut out = TyRefs::new(alloc);
        for k in &numbers {
            if let Some(ty) = self.local_type(*k) {
                out.push(ty)?;
            }
        }
        Ok(out)
    }

    /// The range of the argument of an OldValue call.
    fn old_at(&self, setup: usize, segment: &Segment, at: u32, instr: &Instr) -> Option<Old>
        requires { at < length self.now.body.instrs }
        ensures { result ≡ old_at self.now setup segment.now (at, instr.now) }
    {
        match self.call(instr) {
            ContractCall::TakesOld => old_from(
                setup,
                segment,
                at,
                self.last_argument(at),
                argument_type(&instr.operand),
            ),
            _ => None,
        }
    }

    fn olds(&self, alloc: Global, setup: usize, segment: &Segment) -> Result<Olds, AllocError>
        ensures { IfOk result (λ out. out ≡ filter_map (old_at self.now setup segment.now) (segment_code self.now segment.now)) }
    {
        let instrs = self.segment_code(segment);
        let mut out = Olds::new(alloc);
        let mut at = segment.from as usize;
        for instr in instrs {
            if let Some(old) = self.old_at(setup, segment, at as u32, instr) {
                out.push(old)?;
            }
            at += 1;
        }
        Ok(out)
    }

    fn has_message_at(&self, at: u32) -> bool
        ensures { result ≡ has_message_at self.now at }
    {
        match self.instrs().get(at as usize) {
            Some(instr) => has_message(self.code().program(), instr),
            None => false,
        }
    }

    fn exception_at(&self, kind: ClauseKind, at: u32) -> Option<TyRef>
        ensures { result ≡ exception_at self.now kind at }
    {
        match self.instrs().get(at as usize) {
            Some(instr) => exception_of(kind, &instr.operand),
            None => None,
        }
    }

    fn label_of(&self, alloc: Global, one: &Counted) -> Result<Name, AllocError>
        ensures { IfOk result (λ name. name ≡ label_of self.now one.now) }
    {
        let code = self.code();
        label(alloc, code.program(), code.method(), one.kind, one.number)
    }

    /// The labels of the Assert and Assume calls within a segment.
    #[tactic(auto, using(crate::proofs::CheckLaws::rise_of, crate::proofs::CheckLaws::labels_within))]
    fn inline_labels(
        &self,
        alloc: Global,
        calls: &[Counted],
        segment: &Segment,
    ) -> Result<Names, AllocError>
        requires { calls.now ≡ inlines self.now }
        ensures { IfOk result (λ names. names ≡ inline_labels self.now segment.now) }
    {
        let within = calls_within(calls, segment);
        let mut names = Names::new(alloc);
        for one in within {
            names.push(self.label_of(alloc, one)?)?;
        }
        Ok(names)
    }

    /// A clause with its label, without code.
    fn bare_clause(&self, alloc: Global, one: &Counted) -> Result<Clause, AllocError>
        ensures { IfOk result (λ clause. clause ≡ bare_clause self.now one.now) }
    {
        Ok(Clause {
            kind: one.kind,
            home: self.code().method(),
            instrs: Instrs::new(alloc),
            locals: TyRefs::new(alloc),
            olds: Olds::new(alloc),
            exception: None,
            user: self.has_message_at(one.segment.at),
            label: self.label_of(alloc, one)?,
            inline: Names::new(alloc),
        })
    }

    /// The clause of an Assert or Assume: its call alone.
    fn inline_clause(&self, alloc: Global, one: &Counted) -> Result<Clause, AllocError>
        ensures { IfOk result (λ clause. clause ≡ inline_clause self.now one.now) }
    {
        let mut clause = self.bare_clause(alloc, one)?;
        copy_all(alloc, &mut clause.instrs, self.segment_code(&one.segment))?;
        Ok(clause)
    }

    /// Gives a clause the code of a segment, with its locals and old ranges.
    fn put_code(
        &self,
        alloc: Global,
        clause: &mut Clause,
        segment: &Segment,
    ) -> Result<(), AllocError>
        ensures { OnOk result (clause.new ≡ record clause.old { instrs = clause_instrs self.now segment.now; locals = clause_locals self.now segment.now; olds = clause_olds self.now segment.now }) }
    {
        let (code, setup) = self.code_of(alloc, segment)?;
        let locals = locals_named(alloc, code.as_slice())?;
        clause.instrs = all_with_locals(alloc, &locals, code.as_slice())?;
        clause.locals = self.local_types(alloc, &locals)?;
        clause.olds = self.olds(alloc, setup, segment)?;
        Ok(())
    }

    fn clause_of(
        &self,
        alloc: Global,
        calls: &[Counted],
        one: &Counted,
    ) -> Result<Clause, AllocError>
        requires { calls.now ≡ inlines self.now }
        ensures { IfOk result (λ clause. clause ≡ clause_of self.now one.now) }
    {
        let mut clause = self.bare_clause(alloc, one)?;
        self.put_code(alloc, &mut clause, &one.segment)?;
        clause.exception = self.exception_at(one.kind, one.segment.at);
        clause.inline = self.inline_labels(alloc, calls, &one.segment)?;
        Ok(clause)
    }

    /// The segments that end clauses.
    fn ends(&self, alloc: Global) -> Result<Vec<Ended>, AllocError>
        ensures { IfOk result (λ out. out.items ≡ filter_map (ended self.now) (segments self.now)) }
    {
        let parts = self.segments();
        let mut out = Vec::new(alloc);
        for segment in parts {
            if let Some(kind) = self.ended_at(segment.at) {
                out.push(Ended {
                    segment: *segment,
                    kind,
                })?;
            }
        }
        Ok(out)
    }

    /// The Assert and Assume calls.
    fn checks(&self, alloc: Global) -> Result<Vec<Ended>, AllocError>
        ensures { IfOk result (λ out. out.items ≡ filter_map (checked self.now) (placed self.now)) }
    {
        let instrs = self.instrs();
        let mut out = Vec::new(alloc);
        let mut at = 0;
        for instr in instrs {
            if let Some(kind) = checked_kind(self.call(instr)) {
                out.push(Ended {
                    segment: Segment { from: at, at },
                    kind,
                })?;
            }
            at += 1;
        }
        Ok(out)
    }

    /// The Assert and Assume calls with their numbers.
    pub fn inlines(&self, alloc: Global) -> Result<Vec<Counted>, AllocError>
        ensures { IfOk result (λ out. out.items ≡ inlines self.now) }
    {
        let calls = self.checks(alloc)?;
        count_all(alloc, &calls)
    }

    fn clauses_in(&self, alloc: Global) -> Result<Vec<Counted>, AllocError>
        ensures { IfOk result (λ out. out.items ≡ clauses_in self.now) }
    {
        let ends = self.ends(alloc)?;
        count_all(alloc, &ends)
    }

    /// The clauses of the segments.
    pub fn clauses(&self, alloc: Global, calls: &[Counted]) -> Result<Clauses, AllocError>
        requires { calls.now ≡ inlines self.now }
        ensures { IfOk result (λ out. out ≡ map (clause_of self.now) (clauses_in self.now)) }
    {
        let ends = self.clauses_in(alloc)?;
        let mut out = Clauses::new(alloc);
        for one in &ends {
            out.push(self.clause_of(alloc, calls, one)?)?;
        }
        Ok(out)
    }

    /// The clauses of the Assert and Assume calls.
    pub fn asserts(&self, alloc: Global, calls: &[Counted]) -> Result<Clauses, AllocError>
        requires { calls.now ≡ inlines self.now }
        ensures { IfOk result (λ out. out ≡ map (inline_clause self.now) (inlines self.now)) }
    {
        let mut out = Clauses::new(alloc);
        for one in calls {
            out.push(self.inline_clause(alloc, one)?)?;
        }
        Ok(out)
    }
}
