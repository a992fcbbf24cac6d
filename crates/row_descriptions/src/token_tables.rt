// The tokens of an assembly, noted one after another (ECMA-335, II.22).
ghost use Rattle.std.specs.Prelude.{◌≡◌, OnOk};
ghost use Rattle.std.specs.Option.{option_copied};
ghost use Rattle.cil_model.specs.TokenLists.{noted_row};
ghost use Rattle.cli_heaps.specs.Root.{user_strings};
ghost use Rattle.row_descriptions.specs.UserTexts.{token_row, text_row, user_texts};
ghost use Rattle.row_descriptions.specs.TokenTables.{all_noted};

use crate::user_texts::units_of;
use cil_base::tables::USER_STRING;
use cil_base::{Token, read_packed};
use cil_model::{Meaning, TokenRow, TokenRows};
use cli_heaps::Heaps;
use std::alloc::{AllocError, Global};

/// Notes what a token of an assembly means; an earlier row of the same token stays.
pub fn note_meaning(
    tokens: &mut TokenRows,
    assembly: u32,
    table: u8,
    row: u32,
    meaning: Meaning,
) -> Result<(), AllocError>
    ensures { OnOk result (tokens.new ≡ noted_row tokens.old (token_row assembly table row meaning)) }
{
    tokens.note(TokenRow {
        assembly,
        token: Token { table, row },
        meaning,
    })
}

/// Notes the text of an entry of `#US`, where there is one.
fn note_text(
    alloc: Global,
    tokens: &mut TokenRows,
    assembly: u32,
    at: u32,
    entry: Option<&[u8]>,
) -> Result<(), AllocError>
    ensures { OnOk result (tokens.new ≡ all_noted tokens.old (text_row assembly at (option_copied entry.entry))) }
{
    let Some(bytes) = entry else {
        return Ok(());
    };
    let units = units_of(alloc, bytes)?;
    note_meaning(tokens, assembly, USER_STRING, at, Meaning::OfText(units))
}

/// Notes the texts of `#US`, one after another.
pub fn note_texts(
    alloc: Global,
    tokens: &mut TokenRows,
    heaps: &Heaps<'_>,
) -> Result<(), AllocError>
    ensures { OnOk result (tokens.new ≡ all_noted tokens.old (user_texts heaps.now.assembly (user_strings heaps.now.bytes))) }
{
    let (_, _, end) = heaps.lengths();
    let mut at: usize = 1;
    for _k in 0..end {
        if at >= end as usize {
            return Ok(());
        }
        note_text(
            alloc,
            tokens,
            heaps.assembly(),
            at as u32,
            heaps.user(at as u32),
        )?;
        let Some((length, width)) = read_packed(heaps.user_strings(), at) else {
            return Ok(());
        };
        at = at + width as usize + length as usize;
    }
    Ok(())
}
