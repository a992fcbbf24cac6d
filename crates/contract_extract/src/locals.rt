// The locals that instructions use, each once.

ghost use Rattle.std.specs.Prelude.{◌≡◌, ◌==◌, [], length, get_or, IfOk, OnOk};
ghost use Rattle.std.specs.List.{list_any, filter_map};
ghost use Rattle.contract_extract.specs.Clauses.{with_local, distinct_behind, number_in};
ghost use Rattle.contract_extract.specs.Locals.{used, locals_used};

use cil_model::Instr;
use contract_parts::{named, stored, written};
use indexmap::IndexSet;
use std::alloc::{AllocError, Global};
use std::marker::Model;

/// How an instruction uses a local: it names it, stores it, or stores it or takes its address.
#[derive(Clone, Copy)]
pub enum Use {
    Names,
    Stores,
    Writes,
}

/// Numbers of locals, each once, in the order in which they were added first.
#[derive(Drop)]
pub struct Locals {
    numbers: IndexSet<u32>,
}

impl Model for Locals {
    ghost use Rattle.std.specs.Prelude.{List, ℕ};

    ghost Value = { List ℕ };

    ghost view = { λ l. l.numbers.keys };
}

fn used(how: Use, instr: &Instr) -> Option<u32>
    ensures { result ≡ used how instr.now }
{
    match how {
        Use::Names => named(instr),
        Use::Stores => stored(instr),
        Use::Writes => written(instr),
    }
}

impl Locals {
    fn new(alloc: Global) -> Locals
        ensures { result ≡ [] }
    {
        Locals {
            numbers: IndexSet::new(alloc),
        }
    }

    /// How many there are.
    pub fn len(&self) -> usize
        ensures { result ≡ length self.now }
    {
        self.numbers.len()
    }

    /// Whether a local is one of them.
    #[tactic(auto, using(crate::proofs::LocalLaws::any_turned))]
    pub fn has(&self, k: u32) -> bool
        ensures { result ≡ list_any (λ j. j == k) self.now }
    {
        self.numbers.contains(&k)
    }

    /// The place of a local among them, or behind the last where it is none of them.
    #[tactic(auto, using(crate::proofs::LocalLaws::number_found, crate::proofs::LocalLaws::number_past))]
    pub fn number_of(&self, k: u32) -> usize
        ensures { result ≡ number_in k self.now }
    {
        match self.numbers.get_index_of(&k) {
            Some(n) => n,
            None => self.numbers.len(),
        }
    }

    /// The local at a place.
    fn at(&self, n: usize) -> u32
        ensures { result ≡ get_or self.now n 0 }
    {
        self.numbers.get_index(n).copied().unwrap_or(0)
    }

    #[tactic(auto, using(crate::proofs::LocalLaws::added))]
    fn add(&mut self, k: u32) -> Result<(), AllocError>
        ensures { OnOk result (self.new ≡ with_local self.old k) }
    {
        self.numbers.insert(k)?;
        Ok(())
    }

    /// Adds the locals that instructions use so.
    pub fn add_used(&mut self, how: Use, instrs: &[Instr]) -> Result<(), AllocError>
        ensures { OnOk result (self.new ≡ distinct_behind self.old (filter_map (used how) instrs.now)) }
    {
        for instr in instrs {
            if let Some(k) = used(how, instr) {
                self.add(k)?;
            }
        }
        Ok(())
    }

    /// The locals that instructions use so.
    pub fn used(alloc: Global, how: Use, instrs: &[Instr]) -> Result<Locals, AllocError>
        ensures { IfOk result (λ locals. locals ≡ locals_used how instrs.now) }
    {
        let mut locals = Locals::new(alloc);
        locals.add_used(how, instrs)?;
        Ok(locals)
    }

    /// A list of them.
    pub fn listed(&self, alloc: Global) -> Result<Vec<u32>, AllocError>
        ensures { IfOk result (λ out. out.items ≡ self.now) }
    {
        let mut out = Vec::new(alloc);
        for n in 0..self.len() {
            out.push(self.at(n))?;
        }
        Ok(out)
    }
}
