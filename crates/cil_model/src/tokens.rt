// The list of what tokens mean, with an index.

ghost use Rattle.std.specs.Prelude.{◌≡◌, [], OnOk, OnErr};
ghost use Rattle.std.specs.Option.{option_copied};
ghost use Rattle.cil_model.specs.TokenKeys.{key_of};
ghost use Rattle.cil_model.specs.TokenLists.{meaning_among, noted_row};

use crate::program::{Meaning, TokenRow};
use cil_base::Token;
use indexmap::IndexSet;
use sqlite_items::at;
use std::alloc::{AllocError, Global};
use std::marker::Model;

/// A token of an assembly.
#[derive(Clone, Copy, PartialEq, Eq, Hash)]
struct TokenKey {
    assembly: u32,
    table: u8,
    row: u32,
}

/// The token rows of a program, each token once: a list to contracts. The key of a row stands at
/// its place.
#[derive(Drop)]
pub struct TokenRows {
    keys: IndexSet<TokenKey>,
    rows: Vec<TokenRow>,
}

impl Model for TokenRows {
    ghost use Rattle.std.specs.Prelude.{List, map, ◌≡◌};
    ghost use Rattle.std.specs.Coded.{codes};
    ghost use Rattle.cil_model.specs.declared.program.TokenRow.{TokenRow};
    ghost use Rattle.cil_model.specs.contracts.ty.Ty as ty;
    ghost use Rattle.cil_model.specs.TokenKeys.{row_key};

    ghost Value = { List TokenRow };

    ghost coded = { Prim.hlevel (codes, ty.the_row.coded) };

    ghost view = { λ it. it.rows.items };

    ghost invariant = { λ it. it.keys.keys ≡ map row_key it.rows.items };
}

fn key_of(assembly: u32, token: Token) -> TokenKey
    ensures { result ≡ key_of assembly token }
{
    TokenKey {
        assembly,
        table: token.table,
        row: token.row,
    }
}

impl TokenRows {
    pub fn new(alloc: Global) -> TokenRows
        ensures { result ≡ [] }
    {
        TokenRows {
            keys: IndexSet::new(alloc),
            rows: Vec::new(alloc),
        }
    }

    pub fn as_slice(&self) -> &[TokenRow]
        ensures { result.now ≡ self.now }
    {
        self.rows.as_slice()
    }

    /// Notes what a token means; an earlier row of the same token stays.
    pub fn note(&mut self, row: TokenRow) -> Result<(), AllocError>
        ensures ok { OnOk result (self.new ≡ noted_row self.old row) }
        ensures err { OnErr result (self.new ≡ self.old) }
    {
        let key = key_of(row.assembly, row.token);
        if self.keys.contains(&key) {
            return Ok(());
        }
        self.keys.insert(key)?;
        if let Err(_) = self.rows.push(row) {
            self.keys.pop();
            return Err(AllocError);
        }
        Ok(())
    }

    /// What the assembly's token means.
    pub fn meaning(&self, assembly: u32, token: Token) -> Option<&Meaning>
        ensures { option_copied result ≡ meaning_among self.now assembly token }
    {
        let place = self.keys.get_index_of(&key_of(assembly, token))?;
        let row = at(self.rows.as_slice(), place)?;
        Some(&row.meaning)
    }
}
