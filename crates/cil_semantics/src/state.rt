// The state of a run (ECMA-335, I.12.3 and I.12.4): heap, statics, frames, guard depth, replies left and trace.

ghost use Rattle.std.specs.Prelude.{◌≡◌, ◌↔◌, ◌≤◌, take, drop, IsTrue, [], ◌∷◌, ◌++◌, length, map, reverse, IfOk, MatchOption};

use cil_model::{Group, Pointer, Reply, Trace, TraceItem, Ty, Tys, Value};
use sqlite_items::{Items, at};
use std::alloc::{AllocError, Global};
use std::marker::Model;

/// One place: its type and what it holds.
#[derive(Drop)]
pub struct Cell {
    pub ty: Ty,
    pub value: Value,
}

/// Places, a list to contracts.
#[derive(Drop)]
pub struct Cells {
    items: Vec<Cell>,
}

impl Model for Cells {
    ghost use Rattle.std.specs.Prelude.{List};
    ghost use Rattle.std.specs.Coded.{codes};
    ghost use Rattle.cil_semantics.specs.declared.state.Cell.{Cell};
    ghost use Rattle.cil_model.specs.contracts.value.Value as value;
    ghost use Rattle.cil_model.specs.contracts.ty.Ty as ty;

    ghost Value = { List Cell };

    ghost coded = { Prim.hlevel (codes, value.the_row.coded, ty.the_row.coded) };

    ghost view = { λ s. s.items.items };
}

impl Cells {
    ghost use Rattle.std.specs.Prelude.{◌<◌, slice_get, slice_set, Option, Some, OnSome};
    ghost use Rattle.std.specs.Option.{option_copied};
    ghost use Rattle.cil_semantics.specs.declared.state.Cell.{Cell as CellOf};

    pub fn new(alloc: Global) -> Cells
        ensures { result ≡ [] }
    {
        Cells {
            items: Vec::new(alloc),
        }
    }

    /// An empty list with room for so many.
    pub fn with_capacity(alloc: Global, count: usize) -> Result<Cells, AllocError>
        ensures { IfOk result (λ cells. cells ≡ []) }
    {
        Ok(Cells {
            items: Vec::with_capacity(alloc, count)?,
        })
    }

    pub fn len(&self) -> usize
        ensures { result ≡ length self.now }
    {
        self.items.len()
    }

    pub fn get(&self, at: usize) -> Option<&Cell>
        ensures value { option_copied result ≡ slice_get self.now at }
        ensures within { OnSome result (at < length self.now) }
    {
        self.items.get(at)
    }

    pub fn as_slice(&self) -> &[Cell]
        ensures { result.now ≡ self.now }
    {
        self.items.as_slice()
    }

    pub fn push(&mut self, x: Cell) -> Result<(), AllocError>
        ensures ok { IfOk result (λ _. self.new ≡ self.old ++ x ∷ []) }
    {
        self.items.push(x)?;
        Ok(())
    }

    /// Puts a value into a place.
    pub fn put(&mut self, at: usize, value: Value)
        requires { at < length self.old }
        ensures { (c : CellOf) → slice_get self.old at ≡ Some c → self.new ≡ slice_set self.old at (record { ty = c.ty; value = value }) }
    {
        self.items[at].value = value;
    }
}

/// An object: its closed type, and its fields, its items, or the one value that is boxed; of a
/// delegate the target and the function.
#[derive(Drop)]
pub struct Object {
    pub ty: Ty,
    pub cells: Cells,
}

/// Objects of the heap, a list to contracts.
#[derive(Drop)]
pub struct Objects {
    items: Vec<Object>,
}

impl Model for Objects {
    ghost use Rattle.std.specs.Prelude.{List};
    ghost use Rattle.std.specs.Coded.{codes};
    ghost use Rattle.cil_semantics.specs.declared.state.Object.{Object};
    ghost use Rattle.cil_model.specs.contracts.value.Value as value;
    ghost use Rattle.cil_model.specs.contracts.ty.Ty as ty;

    ghost Value = { List Object };

    ghost coded = { Prim.hlevel (codes, value.the_row.coded, ty.the_row.coded) };

    ghost view = { λ s. s.items.items };
}

impl Objects {
    ghost use Rattle.std.specs.Prelude.{◌<◌, slice_get, slice_set, Option, Some, OnSome};
    ghost use Rattle.std.specs.Option.{option_copied};
    ghost use Rattle.cil_semantics.specs.declared.state.Cell.{Cell as CellOf};
    ghost use Rattle.cil_semantics.specs.declared.state.Object.{Object as ObjectOf};

    pub fn new(alloc: Global) -> Objects
        ensures { result ≡ [] }
    {
        Objects {
            items: Vec::new(alloc),
        }
    }

    pub fn len(&self) -> usize
        ensures { result ≡ length self.now }
    {
        self.items.len()
    }

    pub fn get(&self, at: usize) -> Option<&Object>
        ensures value { option_copied result ≡ slice_get self.now at }
        ensures within { OnSome result (at < length self.now) }
    {
        self.items.get(at)
    }

    pub fn push(&mut self, x: Object) -> Result<(), AllocError>
        ensures ok { IfOk result (λ _. self.new ≡ self.old ++ x ∷ []) }
    {
        self.items.push(x)?;
        Ok(())
    }

    /// Puts a value into a place of an object.
    pub fn put(&mut self, object: usize, place: usize, value: Value)
        requires object { object < length self.old }
        requires place { (o : ObjectOf) → slice_get self.old object ≡ Some o → place < length o.cells }
        ensures { (o : ObjectOf) (c : CellOf) → slice_get self.old object ≡ Some o → slice_get o.cells place ≡ Some c → self.new ≡ slice_set self.old object (record o { cells = slice_set o.cells place (record { ty = c.ty; value = value }) }) }
    {
        self.items[object].cells.put(place, value);
    }
}

/// How far a type's initializer has come.
#[derive(Clone, Copy)]
pub enum Init {
    Begun,
    Failed(u32),
}

/// The statics of a closed type whose initializer has begun, or of which a field was stored.
#[derive(Drop)]
pub struct Statics {
    pub owner: Ty,
    pub init: Option<Init>,
    pub cells: Cells,
}

/// The statics of closed types, a list to contracts.
#[derive(Drop)]
pub struct StaticsList {
    items: Vec<Statics>,
}

impl Model for StaticsList {
    ghost use Rattle.std.specs.Prelude.{List};
    ghost use Rattle.std.specs.Coded.{codes};
    ghost use Rattle.cil_semantics.specs.declared.state.Statics.{Statics};
    ghost use Rattle.cil_model.specs.contracts.value.Value as value;
    ghost use Rattle.cil_model.specs.contracts.ty.Ty as ty;

    ghost Value = { List Statics };

    ghost coded = { Prim.hlevel (codes, value.the_row.coded, ty.the_row.coded) };

    ghost view = { λ s. s.items.items };
}

impl StaticsList {
    ghost use Rattle.std.specs.Prelude.{◌<◌, slice_get, slice_set, Option, Some};
    ghost use Rattle.cil_semantics.specs.declared.state.Cell.{Cell as CellOf};
    ghost use Rattle.cil_semantics.specs.declared.state.Statics.{Statics as StaticsOf};

    pub fn new(alloc: Global) -> StaticsList
        ensures { result ≡ [] }
    {
        StaticsList {
            items: Vec::new(alloc),
        }
    }

    pub fn as_slice(&self) -> &[Statics]
        ensures { result.now ≡ self.now }
    {
        self.items.as_slice()
    }

    pub fn push(&mut self, x: Statics) -> Result<(), AllocError>
        ensures ok { IfOk result (λ _. self.new ≡ self.old ++ x ∷ []) }
    {
        self.items.push(x)?;
        Ok(())
    }

    /// Puts a value into a static field of the type at a place of the list.
    pub fn put(&mut self, owner: usize, place: usize, value: Value)
        requires owner { owner < length self.old }
        requires place { (s : StaticsOf) → slice_get self.old owner ≡ Some s → place < length s.cells }
        ensures { (s : StaticsOf) (c : CellOf) → slice_get self.old owner ≡ Some s → slice_get s.cells place ≡ Some c → self.new ≡ slice_set self.old owner (record s { cells = slice_set s.cells place (record { ty = c.ty; value = value }) }) }
    {
        self.items[owner].cells.put(place, value);
    }

    /// Notes how far the initializer of the type at a place of the list has come.
    pub fn set_init(&mut self, owner: usize, init: Init)
        requires { owner < length self.old }
        ensures { (s : StaticsOf) → slice_get self.old owner ≡ Some s → self.new ≡ slice_set self.old owner (record s { init = Some init }) }
    {
        self.items[owner].init = Some(init);
    }
}

/// An outside call: the member's number besides what is told of it.
#[derive(Drop)]
pub struct Item {
    pub member: u64,
    pub recorded: TraceItem,
}

/// Items of a trace.
#[derive(Drop)]
pub struct Recorded {
    items: Vec<Item>,
}

impl Model for Recorded {
    ghost use Rattle.std.specs.Prelude.{List};
    ghost use Rattle.std.specs.Coded.{codes};
    ghost use Rattle.cil_semantics.specs.declared.state.Item.{Item};
    ghost use Rattle.cil_model.specs.contracts.value.Value as value;
    ghost use Rattle.cil_model.specs.contracts.ty.Ty as ty;

    ghost Value = { List Item };

    ghost coded = { Prim.hlevel (codes, value.the_row.coded, ty.the_row.coded) };

    ghost view = { λ s. s.items.items };
}

impl Recorded {
    pub fn new(alloc: Global) -> Recorded
        ensures { result ≡ [] }
    {
        Recorded {
            items: Vec::new(alloc),
        }
    }

    pub fn is_empty(&self) -> bool
        ensures { IsTrue result ↔ (self.now ≡ []) }
    {
        self.items.is_empty()
    }

    pub fn push(&mut self, x: Item) -> Result<(), AllocError>
        ensures ok { IfOk result (λ _. self.new ≡ self.old ++ x ∷ []) }
    {
        self.items.push(x)?;
        Ok(())
    }

    /// Moves the items of `more` to the end.
    pub fn append(&mut self, more: &mut Recorded) -> Result<(), AllocError>
        ensures ok { IfOk result (λ _. self.new ≡ self.old ++ more.old) }
        ensures moved { IfOk result (λ _. more.new ≡ []) }
    {
        self.items.append(&mut more.items)
    }

    /// What is told, without the members' numbers.
    pub fn recorded(self, alloc: Global) -> Result<Trace, AllocError>
        ensures { IfOk result (λ trace. trace ≡ map (λ i. i.recorded) self) }
    {
        let Recorded { items } = self;
        let recorded = items.into_iter().map(|item| item.recorded).collect(alloc)?;
        Ok(Items::from_vec(recorded))
    }
}

/// A place in a frame: in the lead-in, in a piece of a group, or in the rest. A body that runs
/// plainly is all rest.
#[derive(Clone, Copy)]
pub enum ProgramPoint {
    LeadIn(u32),
    InGroup(Group, u32, u32),
    Rest(u32),
}

/// Why a handler runs.
#[derive(Clone, Copy)]
pub enum Cause {
    Caught(u32),
    Unwinding(u32),
    Leaving(u32),
}

/// A handler that runs: its number in the table, why, from which place, and from which clause on
/// the search goes on after it.
#[derive(Clone, Copy)]
pub struct Handling {
    pub handler: u32,
    pub cause: Cause,
    pub place: u32,
    pub next: u32,
}

/// What a static field is used for, once its type is initialized.
#[derive(Drop)]
pub enum Access {
    Read(Pointer),
    Write(Pointer, Value),
    PointTo(Pointer),
}

/// What ForAll and Exists have yet to try: numbers up to an end, or the items of an array from one on.
#[derive(Clone, Copy)]
pub enum Remaining {
    Range(i32, i32),
    Elements(u32, u32),
}

/// What happens below when a frame returns: its value is pushed; the object or the struct that the
/// constructor made is pushed; an exception that it made is thrown; the frame below begins; a static
/// field is used; or ForAll or Exists goes on.
#[derive(Drop)]
pub enum Continuation {
    Push,
    PushObject(Value),
    PushStruct,
    ThrowObject(u32),
    BeginCallee,
    UseField(Access),
    TryNext(bool, Value, Remaining),
}

/// Values on the evaluation stack; to contracts a list, the last pushed first.
#[derive(Drop)]
pub struct Stack {
    items: Vec<Value>,
}

impl Model for Stack {
    ghost use Rattle.std.specs.Prelude.{List, reverse};
    ghost use Rattle.std.specs.Coded.{codes};
    ghost use Rattle.cil_model.specs.declared.value.Value as any;
    ghost use Rattle.cil_model.specs.contracts.value.Value as value;

    ghost Value = { List any.Value };

    ghost coded = { Prim.hlevel (codes, value.the_row.coded) };

    ghost view = { λ s. reverse s.items.items };
}

impl Stack {
    pub fn new(alloc: Global) -> Stack
        ensures { result ≡ [] }
    {
        Stack {
            items: Vec::new(alloc),
        }
    }

    pub fn len(&self) -> usize
        ensures { result ≡ length self.now }
    {
        self.items.len()
    }

    pub fn push(&mut self, x: Value) -> Result<(), AllocError>
        ensures ok { IfOk result (λ _. self.new ≡ x ∷ self.old) }
    {
        self.items.push(x)?;
        Ok(())
    }

    pub fn pop(&mut self) -> Option<Value>
        ensures { MatchOption result ((self.old ≡ []) × (self.new ≡ [])) (λ x. self.old ≡ x ∷ self.new) }
    {
        self.items.pop()
    }

    pub fn clear(&mut self)
        ensures { self.new ≡ [] }
    {
        self.items.clear();
    }

    /// Takes the topmost values, the lowest first.
    pub fn split_top(&mut self, count: usize) -> Result<Vec<Value>, AllocError>
        requires { count ≤ length self.old }
        ensures values { IfOk result (λ values. values.items ≡ reverse (take count self.old)) }
        ensures rest { IfOk result (λ _. self.new ≡ drop count self.old) }
    {
        let from = self.items.len() - count;
        let values = self.items.split_off(from)?;
        Ok(values)
    }
}

/// Handlers that run; to contracts a list, the innermost first.
#[derive(Drop)]
pub struct Handlings {
    items: Vec<Handling>,
}

impl Model for Handlings {
    ghost use Rattle.std.specs.Prelude.{List, reverse};
    ghost use Rattle.cil_semantics.specs.declared.state.Handling.{Handling};

    ghost Value = { List Handling };

    ghost view = { λ s. reverse s.items.items };
}

impl Handlings {
    pub fn new(alloc: Global) -> Handlings
        ensures { result ≡ [] }
    {
        Handlings {
            items: Vec::new(alloc),
        }
    }

    pub fn push(&mut self, x: Handling) -> Result<(), AllocError>
        ensures ok { IfOk result (λ _. self.new ≡ x ∷ self.old) }
    {
        self.items.push(x)?;
        Ok(())
    }

    pub fn pop(&mut self) -> Option<Handling>
        ensures { MatchOption result ((self.old ≡ []) × (self.new ≡ [])) (λ x. self.old ≡ x ∷ self.new) }
    {
        self.items.pop()
    }

    pub fn is_empty(&self) -> bool
        ensures { IsTrue result ↔ (self.now ≡ []) }
    {
        self.items.is_empty()
    }
}

/// What an instruction reads and writes of its frame: the captured values, and what is returned
/// while a group looks at it, besides arguments, locals and stack.
#[derive(Drop)]
pub struct Local {
    pub args: Cells,
    pub locals: Cells,
    pub captured: Cells,
    pub result: Option<Value>,
    pub stack: Stack,
}

/// A frame. `handling` has the handlers that run; `thrown` the exception that a group of
/// EnsuresOnThrow looks at; `initializes` the closed type whose initializer it runs.
#[derive(Drop)]
pub struct Frame {
    pub method: u32,
    pub type_args: Tys,
    pub method_args: Tys,
    pub local: Local,
    pub at: ProgramPoint,
    pub handling: Handlings,
    pub thrown: Option<u32>,
    pub continuation: Continuation,
    pub initializes: Option<Ty>,
}

/// Replies that are left, the next first.
#[derive(Drop)]
pub struct Replies {
    items: Vec<Reply>,
}

impl Model for Replies {
    ghost use Rattle.std.specs.Prelude.{List, reverse};
    ghost use Rattle.std.specs.Coded.{codes};
    ghost use Rattle.cil_model.specs.declared.run.Reply.{Reply};
    ghost use Rattle.cil_model.specs.contracts.value.Value as value;

    ghost Value = { List Reply };

    ghost coded = { Prim.hlevel (codes, value.the_row.coded) };

    ghost view = { λ s. reverse s.items.items };
}

impl Replies {
    pub fn new(alloc: Global) -> Replies
        ensures { result ≡ [] }
    {
        Replies {
            items: Vec::new(alloc),
        }
    }

    /// Puts a reply before the others.
    pub fn push(&mut self, x: Reply) -> Result<(), AllocError>
        ensures ok { IfOk result (λ _. self.new ≡ x ∷ self.old) }
    {
        self.items.push(x)?;
        Ok(())
    }

    pub fn pop(&mut self) -> Option<Reply>
        ensures { MatchOption result ((self.old ≡ []) × (self.new ≡ [])) (λ x. self.old ≡ x ∷ self.new) }
    {
        self.items.pop()
    }
}

/// What all frames share. `cells` is how many cells the objects take, and each object one more.
#[derive(Drop)]
pub struct World {
    pub heap: Objects,
    pub cells: u64,
    pub statics: StaticsList,
    pub depth: u32,
    pub replies: Replies,
    pub trace: Recorded,
}

/// Frames; to contracts a list, the topmost first.
#[derive(Drop)]
pub struct Frames {
    items: Vec<Frame>,
}

impl Model for Frames {
    ghost use Rattle.std.specs.Prelude.{List, reverse};
    ghost use Rattle.std.specs.Coded.{codes};
    ghost use Rattle.cil_semantics.specs.declared.state.Frame.{Frame};
    ghost use Rattle.cil_model.specs.contracts.value.Value as value;
    ghost use Rattle.cil_model.specs.contracts.ty.Ty as ty;

    ghost Value = { List Frame };

    ghost coded = { Prim.hlevel (codes, value.the_row.coded, ty.the_row.coded) };

    ghost view = { λ s. reverse s.items.items };
}

impl Frames {
    ghost use Rattle.std.specs.Option.{option_copied};
    ghost use Rattle.std.specs.Prelude.{◌<◌, slice_get, slice_set, Some};
    ghost use Rattle.cil_semantics.specs.Frames.{frame_at};
    ghost use Rattle.cil_semantics.specs.declared.state.Cell.{Cell as CellOf};
    ghost use Rattle.cil_semantics.specs.declared.state.Frame.{Frame as FrameOf};

    /// Puts a value into a local of the frame of a number.
    pub fn put_local(&mut self, number: usize, place: usize, value: Value)
        requires frame { number < length self.old }
        requires place { (f : FrameOf) → slice_get (reverse self.old) number ≡ Some f → place < length f.local.locals }
        ensures { (f : FrameOf) (c : CellOf) → slice_get (reverse self.old) number ≡ Some f → slice_get f.local.locals place ≡ Some c → reverse self.new ≡ slice_set (reverse self.old) number (record f { local = record f.local { locals = slice_set f.local.locals place (record { ty = c.ty; value = value }) } }) }
    {
        self.items[number].local.locals.put(place, value);
    }

    /// Puts a value into an argument of the frame of a number.
    pub fn put_argument(&mut self, number: usize, place: usize, value: Value)
        requires frame { number < length self.old }
        requires place { (f : FrameOf) → slice_get (reverse self.old) number ≡ Some f → place < length f.local.args }
        ensures { (f : FrameOf) (c : CellOf) → slice_get (reverse self.old) number ≡ Some f → slice_get f.local.args place ≡ Some c → reverse self.new ≡ slice_set (reverse self.old) number (record f { local = record f.local { args = slice_set f.local.args place (record { ty = c.ty; value = value }) } }) }
    {
        self.items[number].local.args.put(place, value);
    }

    /// The frame of a number, counted from below, if it runs that method.
    pub fn of_number(&self, number: usize, method: u32) -> Option<&Frame>
        ensures { option_copied result ≡ frame_at self.now number method }
    {
        let Some(frame) = at(self.items.as_slice(), number) else {
            return None;
        };
        if frame.method == method {
            Some(frame)
        } else {
            None
        }
    }

    pub fn new(alloc: Global) -> Frames
        ensures { result ≡ [] }
    {
        Frames {
            items: Vec::new(alloc),
        }
    }

    pub fn len(&self) -> usize
        ensures { result ≡ length self.now }
    {
        self.items.len()
    }

    pub fn push(&mut self, x: Frame) -> Result<(), AllocError>
        ensures ok { IfOk result (λ _. self.new ≡ x ∷ self.old) }
    {
        self.items.push(x)?;
        Ok(())
    }

    pub fn pop(&mut self) -> Option<Frame>
        ensures { MatchOption result ((self.old ≡ []) × (self.new ≡ [])) (λ x. self.old ≡ x ∷ self.new) }
    {
        self.items.pop()
    }
}
