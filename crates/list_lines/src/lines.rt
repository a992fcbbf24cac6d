// The lines of types and methods.
ghost use Rattle.std.specs.Prelude.{◌≡◌, ◌<◌, ◌++◌, IfOk, OnOk};
ghost use Rattle.std.specs.List.{flat_map};
ghost use Rattle.list_lines.specs.Lists.{clause_line, contract_text, line_text, is_listed, method_text, methods_text, text_at, type_text, types_text};

use crate::names::{put, put_name, put_token};
use cil_base::Bytes;
use cil_base::tables::{METHOD_DEF, TYPE_DEF};
use cil_model::{Clause, Contract, MethodDesc, Program, TypeDesc};
use std::alloc::{AllocError, Global};

/// A line: a word, a token and a name.
fn push_line(
    out: &mut Bytes,
    word: &[u8],
    table: u8,
    row: u32,
    name: &[u8],
) -> Result<(), AllocError>
    ensures { OnOk result (out.new ≡ out.old ++ line_text word.now table row name.now) }
{
    put(out, word)?;
    put_token(out, table, row)?;
    put(out, b" ")?;
    put_name(out, name)?;
    put(out, b"\n")
}

/// A clause's line.
fn push_clause(out: &mut Bytes, clause: &Clause) -> Result<(), AllocError>
    ensures { OnOk result (out.new ≡ out.old ++ clause_line clause.now) }
{
    put(out, b"clause ")?;
    put_name(out, clause.label.as_slice())?;
    put(out, b"\n")
}

fn push_clauses(out: &mut Bytes, clauses: &[Clause]) -> Result<(), AllocError>
    ensures { OnOk result (out.new ≡ out.old ++ flat_map clause_line clauses.now) }
{
    for clause in clauses {
        push_clause(out, clause)?;
    }
    Ok(())
}

fn push_contract(out: &mut Bytes, contract: &Contract) -> Result<(), AllocError>
    ensures { OnOk result (out.new ≡ out.old ++ contract_text contract.now) }
{
    push_clauses(out, contract.clauses.as_slice())?;
    push_clauses(out, contract.asserts.as_slice())
}

/// The lines of the contract with a number; nothing where there is none.
fn push_contract_of(out: &mut Bytes, contracts: &[Contract], m: u32) -> Result<(), AllocError>
    ensures { OnOk result (out.new ≡ out.old ++ text_at contracts.now m) }
{
    match contracts.get(m as usize) {
        Some(contract) => push_contract(out, contract),
        None => Ok(()),
    }
}

/// The lines of a method, by its number.
fn push_method(
    out: &mut Bytes,
    program: &Program,
    contracts: &[Contract],
    m: u32,
) -> Result<(), AllocError>
    ensures { OnOk result (out.new ≡ out.old ++ method_text (text_at contracts.now) program.now.methods m) }
{
    let Some(method) = program.methods.get(m as usize) else {
        return Ok(());
    };
    push_line(
        out,
        b"method ",
        METHOD_DEF,
        method.row,
        method.name.as_slice(),
    )?;
    push_contract_of(out, contracts, m)
}

/// The lines of the methods of a type, by their numbers.
fn push_methods(
    out: &mut Bytes,
    program: &Program,
    contracts: &[Contract],
    methods: &[u32],
) -> Result<(), AllocError>
    ensures { OnOk result (out.new ≡ out.old ++ methods_text (text_at contracts.now) program.now.methods methods.now) }
{
    for m in methods {
        push_method(out, program, contracts, *m)?;
    }
    Ok(())
}

fn is_listed(t: &TypeDesc) -> bool
    ensures { result ≡ is_listed t.now }
{
    t.assembly == 0 && !t.outside
}

/// The lines of a type, where it is one of the first assembly.
fn push_type(
    out: &mut Bytes,
    program: &Program,
    contracts: &[Contract],
    t: &TypeDesc,
) -> Result<(), AllocError>
    ensures { OnOk result (out.new ≡ out.old ++ type_text (text_at contracts.now) program.now.methods t.now) }
{
    if !is_listed(t) {
        return Ok(());
    }
    push_line(out, b"type ", TYPE_DEF, t.row, t.name.as_slice())?;
    push_methods(out, program, contracts, t.methods.as_slice())
}

/// Appends a line for each type of the first assembly, in the program's order, and behind it one for
/// each of its methods, each with the lines of its clauses behind it. `contracts` has the contracts by
/// the number of the method.
pub fn push_list(
    out: &mut Bytes,
    program: &Program,
    contracts: &[Contract],
) -> Result<(), AllocError>
    ensures { OnOk result (out.new ≡ out.old ++ types_text (text_at contracts.now) program.now) }
{
    let types = program.types.as_slice();
    for t in types {
        push_type(out, program, contracts, t)?;
    }
    Ok(())
}

/// The text of `list`, with the contracts of methods by number.
pub fn list_text(
    alloc: Global,
    program: &Program,
    contracts: &[Contract],
) -> Result<Bytes, AllocError>
    ensures { IfOk result (λ text. text ≡ types_text (text_at contracts.now) program.now) }
{
    let mut text = Bytes::new(alloc);
    push_list(&mut text, program, contracts)?;
    Ok(text)
}
