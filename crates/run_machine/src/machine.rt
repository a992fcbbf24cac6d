// A program with contracts, and the plans of its methods.

ghost use Rattle.std.specs.Prelude.{◌≡◌, IfOk};
ghost use Rattle.std.specs.Option.{option_copied};
ghost use Rattle.cil_semantics.specs.Unwind.{plan_at};
ghost use Rattle.run_machine.specs.Machines.{ArePlans};

use crate::methods::method_plan;
use crate::plan::Plan;
use cil_model::{Contracts, Program};
use std::alloc::{AllocError, Global};
use std::marker::Model;

/// What a run goes by. The plans of all methods are made once.
#[derive(Drop)]
pub struct Machine<'a> {
    program: &'a Program,
    contracts: &'a Contracts,
    plans: Vec<Option<Plan<'a>>>,
}

impl<'a> Model for Machine<'a> {
    ghost use Rattle.std.specs.Coded.{codes};
    ghost use Rattle.cil_model.specs.contracts.ty.Ty as ty;
    ghost use Rattle.run_machine.specs.Machines.{ArePlans, Going};

    ghost Value = { Going };

    ghost coded = { Prim.hlevel (codes, ty.the_row.coded) };

    ghost view = { λ m. record { program = m.program.now; contracts = m.contracts.now } };

    ghost invariant = { λ m. ArePlans m.program.now m.contracts.now m.plans.items };
}

/// The plan of each method by its number; none at all where there are no contracts.
fn plans_of<'a>(
    alloc: Global,
    program: &Program,
    contracts: &'a Contracts,
) -> Result<Vec<Option<Plan<'a>>>, AllocError>
    ensures { IfOk result (λ plans. ArePlans program.now contracts.entry.now plans.items) }
{
    let mut plans = Vec::new(alloc);
    let Ok(count) = u32::try_from(program.methods.len()) else {
        return Err(AllocError);
    };
    for method in 0..count {
        plans.push(method_plan(alloc, program, contracts, method)?)?;
    }
    Ok(plans)
}

impl<'a> Machine<'a> {
    /// A run of a program goes by these contracts. The only error is want of memory.
    pub fn new(
        alloc: Global,
        program: &'a Program,
        contracts: &'a Contracts,
    ) -> Result<Machine<'a>, AllocError>
        ensures { IfOk result (λ m. m ≡ record { program = program.entry.now; contracts = contracts.entry.now }) }
    {
        let plans = plans_of(alloc, program, contracts)?;
        Ok(Machine {
            program,
            contracts,
            plans,
        })
    }

    /// The program.
    pub fn program(&self) -> &'a Program
        ensures { result.now ≡ self.now.program }
    {
        self.program
    }

    /// The contracts.
    pub fn contracts(&self) -> &'a Contracts
        ensures { result.now ≡ self.now.contracts }
    {
        self.contracts
    }

    /// The plan of a method, where its calls go by a contract, in constant time.
    pub fn plan(&self, method: u32) -> Option<&Plan<'a>>
        ensures { option_copied result ≡ plan_at self.now.contracts self.now.program method }
    {
        match self.plans.get(method as usize) {
            None => None,
            Some(plan) => plan.as_ref(),
        }
    }
}
