// Metadata tokens (ECMA-335, II.22).
ghost use Rattle.std.specs.Prelude.{◌≡◌, ◌<◌, ◌^◌};
ghost use Rattle.cil_base.specs.Tokens.{token_of, token_number};

/// A metadata token: a table's number and a row of it, from 1.
#[derive(Clone, Copy, Debug, PartialEq, Eq)]
pub struct Token {
    pub table: u8,
    pub row: u32,
}

impl Token {
    /// The token whose top byte is the table and whose other bytes are the row.
    pub fn from_u32(v: u32) -> Token
        ensures { result ≡ token_of v }
    {
        Token {
            table: (v / 0x100_0000) as u8,
            row: v % 0x100_0000,
        }
    }

    /// The number of the token, as it stands in code.
    pub fn to_u32(self) -> u32
        requires { self.row < 2 ^ 24 }
        ensures number { result ≡ token_number self }
        ensures reads_back { token_of (token_number self) ≡ self }
    {
        self.table as u32 * 0x100_0000 + self.row
    }
}
