// The tokens of an assembly (ECMA-335, II.22).
ghost use Rattle.std.specs.Prelude.{◌≡◌, ℕ, OnOk};
ghost use Rattle.set_types.specs.CodedTypes.{coded_of};
ghost use Rattle.set_rows.specs.Sets.{Assemblies};
ghost use Rattle.row_descriptions.specs.TokenTables.{all_noted};
ghost use Rattle.descriptions.specs.declared.facts.MemberFacts.{MemberFacts};
ghost use Rattle.descriptions.specs.TokenFacts.{row_token, table_tokens_by, assembly_tokens_by, GiveTokens};

use crate::facts::MemberFacts;
use crate::meanings::meaning_by;
use cil_base::tables::{
    FIELD, MEMBER_REF, METHOD_DEF, METHOD_SPEC, STAND_ALONE_SIG, TYPE_DEF, TYPE_REF, TYPE_SPEC,
};
use cil_model::{Meaning, TokenRows};
use cli_heaps::Heaps;
use row_descriptions::{note_meaning, note_texts};
use set_rows::Rows;
use set_types::CodedTypes;
use std::alloc::{AllocError, Global};

/// What is known of the members of an assembly gives what its tokens mean.
pub fn facts_give_tokens()
    ensures { (s : Assemblies) (a : ℕ) (f : MemberFacts) → GiveTokens s a f }
{}

/// Notes what a token means, where it means something.
fn note_some(
    tokens: &mut TokenRows,
    assembly: u32,
    table: u8,
    row: u32,
    meaning: Option<Meaning>,
) -> Result<(), AllocError>
    ensures { OnOk result (tokens.new ≡ all_noted tokens.old (row_token assembly table row meaning)) }
{
    match meaning {
        Some(meaning) => note_meaning(tokens, assembly, table, row, meaning),
        None => Ok(()),
    }
}

/// Notes what the rows of a table mean as tokens of the assembly. One pass over them.
pub fn note_table(
    alloc: Global,
    tokens: &mut TokenRows,
    rows: &Rows<'_>,
    coded: &CodedTypes,
    facts: &MemberFacts,
    assembly: u32,
    table: u8,
) -> Result<(), AllocError>
    ensures { OnOk result (tokens.new ≡ all_noted tokens.old (table_tokens_by rows.now (coded_of coded.now) facts.now assembly table)) }
{
    let count = rows.count(table);
    for k in 0..count {
        let meaning = meaning_by(alloc, rows, coded, facts, table, k + 1)?;
        note_some(tokens, assembly, table, k + 1, meaning)?;
    }
    Ok(())
}

/// Notes what all tokens of an assembly mean, its texts last.
pub fn note_tokens(
    alloc: Global,
    tokens: &mut TokenRows,
    rows: &Rows<'_>,
    coded: &CodedTypes,
    facts: &MemberFacts,
    heaps: &Heaps<'_>,
) -> Result<(), AllocError>
    requires { heaps.now.bytes ≡ rows.now.meta }
    ensures { OnOk result (tokens.new ≡ all_noted tokens.old (assembly_tokens_by rows.now (coded_of coded.now) facts.now heaps.now.assembly)) }
{
    let assembly = heaps.assembly();
    note_table(alloc, tokens, rows, coded, facts, assembly, TYPE_REF)?;
    note_table(alloc, tokens, rows, coded, facts, assembly, TYPE_DEF)?;
    note_table(alloc, tokens, rows, coded, facts, assembly, FIELD)?;
    note_table(alloc, tokens, rows, coded, facts, assembly, METHOD_DEF)?;
    note_table(alloc, tokens, rows, coded, facts, assembly, MEMBER_REF)?;
    note_table(alloc, tokens, rows, coded, facts, assembly, STAND_ALONE_SIG)?;
    note_table(alloc, tokens, rows, coded, facts, assembly, TYPE_SPEC)?;
    note_table(alloc, tokens, rows, coded, facts, assembly, METHOD_SPEC)?;
    note_texts(alloc, tokens, heaps)
}
