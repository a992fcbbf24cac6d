// The list of methods, whose bodies come and go.

ghost use Rattle.std.specs.Prelude.{◌≡◌, ◌<◌, [], ◌∷◌, ◌++◌, length, slice_get, OnOk, OnErr};
ghost use Rattle.std.specs.Option.{option_copied, option_and_then};
ghost use Rattle.cil_model.specs.MethodLists.{body_at, with_body_at};

use crate::body::Body;
use crate::program::MethodDesc;
use std::alloc::{AllocError, Global};
use std::marker::Model;

/// The methods of a program, a list to contracts.
#[derive(Drop)]
pub struct MethodDescs {
    items: Vec<MethodDesc>,
}

impl Model for MethodDescs {
    ghost use Rattle.std.specs.Prelude.{List};
    ghost use Rattle.std.specs.Coded.{codes};
    ghost use Rattle.cil_model.specs.declared.program.MethodDesc.{MethodDesc};
    ghost use Rattle.cil_model.specs.contracts.ty.Ty as ty;

    ghost Value = { List MethodDesc };

    ghost coded = { Prim.hlevel (codes, ty.the_row.coded) };

    ghost view = { λ it. it.items.items };
}

impl MethodDescs {
    pub fn new(alloc: Global) -> MethodDescs
        ensures { result ≡ [] }
    {
        MethodDescs {
            items: Vec::new(alloc),
        }
    }

    pub fn len(&self) -> usize
        ensures { result ≡ length self.now }
    {
        self.items.len()
    }

    pub fn get(&self, k: usize) -> Option<&MethodDesc>
        ensures { option_copied result ≡ slice_get self.now k }
    {
        self.items.get(k)
    }

    pub fn as_slice(&self) -> &[MethodDesc]
        ensures { result.now ≡ self.now }
    {
        self.items.as_slice()
    }

    pub fn push(&mut self, item: MethodDesc) -> Result<(), AllocError>
        ensures ok { OnOk result (self.new ≡ self.old ++ item ∷ []) }
        ensures err { OnErr result (self.new ≡ self.old) }
    {
        self.items.push(item)?;
        Ok(())
    }

    /// Gives a method a body, and hands back its earlier one.
    pub fn set_body(&mut self, m: usize, body: Body) -> Option<Body>
        requires { m < length self.old }
        ensures earlier { result ≡ body_at self.old m }
        ensures body { self.new ≡ with_body_at self.old m body }
    {
        self.items[m].body.replace(body)
    }
}
