// Methods as their rows say (ECMA-335, II.22.26).
ghost use Rattle.std.specs.Prelude.{◌≡◌, ◌<◌, ◌^◌, ◌++◌, length, map, IfOk, OnOk};
ghost use Rattle.cli_sigs.specs.declared.types.MethodSig.{out-MethodSig};
ghost use Rattle.set_types.specs.CodedTypes.{coded_of};
ghost use Rattle.set_rows.specs.Owners.{AreOwners};
ghost use Rattle.set_signatures.specs.Blobs.{method_sig};
ghost use Rattle.row_descriptions.specs.RowDescriptions.{gives_this, open_parameters, parameters_of, method_with, method_row};

use crate::owners::owner_number;
use crate::signatures::method_signature;
use cil_base::Name;
use cil_base::tables::METHOD_DEF;
use cil_model::{MethodDesc, MethodDescs, Ty, Tys};
use cli_sigs::MethodSig;
use set_rows::Rows;
use set_signatures::DEEPEST;
use set_types::{CodedTypes, type_at, types_at};
use std::alloc::{AllocError, Global};

/// What is known of a method beside its row: its assembly and row, the number of its signature,
/// how many type parameters it has, and which attributes stand on it.
#[derive(Clone, Copy, Drop)]
pub struct MethodFacts {
    pub assembly: u32,
    pub row: u32,
    pub sig: u32,
    pub generics: u32,
    pub abbreviator: bool,
    pub invariant: bool,
    pub generated: bool,
}

/// What a signature says of its method: the types of its parameters and of its result, whether it
/// takes no instance beside them, and how many type parameters it has.
#[derive(Drop)]
pub struct Parameters {
    pub params: Tys,
    pub result: Ty,
    pub is_static: bool,
    pub generics: u32,
}

fn gives_this(flags: u8) -> bool
    ensures { result ≡ gives_this flags }
{
    flags / 0x20 % 2 == 1 && flags / 0x40 % 2 == 0
}

fn parameters_in(
    alloc: Global,
    coded: &CodedTypes,
    sig: &MethodSig,
) -> Result<Parameters, AllocError>
    ensures { IfOk result (λ p. p ≡ open_parameters (coded_of coded.now) (out-MethodSig sig.now)) }
{
    Ok(Parameters {
        params: types_at(alloc, coded, DEEPEST, sig.params.as_slice())?,
        result: type_at(alloc, coded, DEEPEST, &sig.result)?,
        is_static: !gives_this(sig.flags),
        generics: sig.generics,
    })
}

/// What the signature in a blob says of its method.
pub fn parameters_of(
    alloc: Global,
    coded: &CodedTypes,
    blob: &[u8],
) -> Result<Parameters, AllocError>
    requires { length blob.now < 2 ^ 32 }
    ensures { IfOk result (λ p. p ≡ parameters_of (coded_of coded.now) (method_sig blob.now)) }
{
    match method_signature(alloc, blob)? {
        Some(sig) => parameters_in(alloc, coded, &sig),
        None => Ok(Parameters {
            params: Tys::new(alloc),
            result: Ty::Opaque,
            is_static: false,
            generics: 0,
        }),
    }
}

/// A method with its name, its flags, and what its signature says.
fn method_with(facts: MethodFacts, owner: u32, name: Name, flags: u32, p: Parameters) -> MethodDesc
    ensures { result ≡ method_with facts owner name flags p }
{
    MethodDesc {
        assembly: facts.assembly,
        row: facts.row,
        owner,
        name,
        params: p.params,
        result: p.result,
        sig: facts.sig,
        is_static: p.is_static,
        flags: (flags % 0x10000) as u16,
        outside: false,
        abbreviator: facts.abbreviator,
        invariant: facts.invariant,
        generated: facts.generated,
        body: None,
        generics: facts.generics,
    }
}

/// A method by its row, without its body; `owners` are those of MethodDef rows.
#[tactic(auto, unfolding(crate::specs::RowDescriptions::method_row))]
pub fn method_row(
    alloc: Global,
    rows: &Rows<'_>,
    coded: &CodedTypes,
    owners: &[u32],
    facts: MethodFacts,
) -> Result<MethodDesc, AllocError>
    requires { AreOwners rows.now 5 METHOD_DEF owners.now }
    ensures { IfOk result (λ d. d ≡ method_row rows.now (coded_of coded.now) facts) }
{
    let name = Name::from_slice(alloc, rows.text(METHOD_DEF, facts.row, 3))?;
    let owner = owner_number(coded, owners, facts.row);
    let flags = rows.cell(METHOD_DEF, facts.row, 2);
    let p = parameters_of(alloc, coded, rows.blob(METHOD_DEF, facts.row, 4))?;
    Ok(method_with(facts, owner, name, flags, p))
}

/// Appends the methods of these rows.
pub fn push_methods(
    alloc: Global,
    out: &mut MethodDescs,
    rows: &Rows<'_>,
    coded: &CodedTypes,
    owners: &[u32],
    facts: &[MethodFacts],
) -> Result<(), AllocError>
    requires { AreOwners rows.now 5 METHOD_DEF owners.now }
    ensures { OnOk result (out.new ≡ out.old ++ map (method_row rows.now (coded_of coded.now)) facts.now) }
{
    for known in facts {
        out.push(method_row(alloc, rows, coded, owners, *known)?)?;
    }
    Ok(())
}
