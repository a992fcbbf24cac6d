// Contracts: clauses, own and effective contracts, and the settings of a run with them.

ghost use Rattle.std.specs.Prelude.{◌≡◌};
ghost use Rattle.cil_model.specs.NoContracts.{no_contracts};

use crate::body::Instrs;
use crate::ty::Under;
use cil_base::{Name, Token};
use sqlite_items::{Boxed, Items};
use std::alloc::Global;

/// A type where it stands: the local of that index in a StandAloneSig row, the argument of that
/// index in a MethodSpec row, the result (0) or a parameter (from 1) in a MethodDef or MemberRef
/// row, or with index 0 the type of a TypeDef, TypeRef or TypeSpec row.
#[derive(Drop)]
pub struct TyRef {
    pub assembly: u32,
    pub token: Token,
    pub index: u32,
    pub under: Option<Boxed<Under>>,
}

pub type TyRefs = Items<TyRef>;

/// The contract call that ends a clause.
#[derive(Clone, Copy, Drop)]
pub enum ClauseKind {
    Requires,
    /// Requires with the type of an exception.
    RequiresOf,
    Ensures,
    /// EnsuresOnThrow.
    Throws,
    Invariant,
    Assert,
    Assume,
}

/// The range of an argument of OldValue in a clause's instructions; `to` is the place of the call.
#[derive(Drop)]
pub struct Old {
    pub from: u32,
    pub to: u32,
    pub ty: TyRef,
}

pub type Olds = Items<Old>;

pub type Names = Items<Name>;

/// A clause. `home` is the method by which its label is made, `user` tells whether its call has a
/// message, and `inline` has the labels of the Assert and Assume calls among its instructions.
#[derive(Drop)]
pub struct Clause {
    pub kind: ClauseKind,
    pub home: u32,
    pub instrs: Instrs,
    pub locals: TyRefs,
    pub olds: Olds,
    pub exception: Option<TyRef>,
    pub user: bool,
    pub label: Name,
    pub inline: Names,
}

pub type Clauses = Items<Clause>;

/// A method's own contract. The lead-in ends at `lead_end`, and the rest begins at `rest_from`.
#[derive(Drop)]
pub struct Contract {
    pub lead_end: u32,
    pub rest_from: u32,
    pub clauses: Clauses,
    pub asserts: Clauses,
}

pub type ContractList = Items<Contract>;

pub type ClauseLists = Items<Clauses>;

/// The own contracts of all methods, and the invariants of all types, in the program's order.
#[derive(Drop)]
pub struct OwnContracts {
    pub by_method: ContractList,
    pub invariants: ClauseLists,
}

/// A method's effective contract.
#[derive(Drop)]
pub struct Effective {
    pub lead_end: u32,
    pub rest_from: u32,
    pub clauses: Clauses,
    pub invariants: Clauses,
    pub asserts: Clauses,
}

pub type EffectiveList = Items<Effective>;

/// How much is checked.
#[derive(Clone, Copy, Drop)]
pub enum Level {
    NoChecks,
    ReleaseRequires,
    Preconditions,
    PreAndPost,
    Full,
}

/// Clauses that run together, or stand where they are (`Inline`).
#[derive(Clone, Copy, Drop)]
pub enum Group {
    Entry,
    Exit,
    Throw,
    Invariant,
    Inline,
}

/// What a rewriting or a run with contracts is told: a level, the greatest depth at which groups
/// run (at most 100), whether a failure throws, whether only visible methods are checked, and
/// whether calls into contract reference assemblies are.
#[derive(Clone, Copy, Drop)]
pub struct Settings {
    pub level: Level,
    pub guard: u32,
    pub throwing: bool,
    pub surface: bool,
    pub callsite: bool,
}

/// Where the value of an old range is kept: the range's number among those of a clause, by the
/// clause's place in an effective contract, and a local.
#[derive(Drop)]
pub struct Capture {
    pub clause: u32,
    pub old: u32,
    pub local: u32,
    pub ty: TyRef,
}

pub type Captures = Items<Capture>;

/// The class that a rewriting appends, by its tokens in TARGET: its row, its static helpers, and
/// System.Object.
#[derive(Clone, Copy, Drop)]
pub struct Runtime {
    pub class: Token,
    pub enter: Token,
    pub enter_outer: Token,
    pub leave: Token,
    pub report: Token,
    pub fail: Token,
    pub object: Token,
}

/// What a run with contracts is given: one effective contract for each method of the program, of
/// which those of the assembly `target` count; without contracts the list is empty.
#[derive(Drop)]
pub struct Contracts {
    pub settings: Settings,
    pub target: u32,
    pub by_method: EffectiveList,
}

impl Contracts {
    /// No contracts. It takes no memory.
    pub fn none(alloc: Global) -> Contracts
        ensures { result ≡ no_contracts }
    {
        Contracts {
            settings: Settings {
                level: Level::NoChecks,
                guard: 0,
                throwing: true,
                surface: false,
                callsite: false,
            },
            target: 0,
            by_method: EffectiveList::new(alloc),
        }
    }
}
