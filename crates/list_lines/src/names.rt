// Tokens and names as they are printed.
ghost use Rattle.std.specs.Prelude.{◌≡◌, ◌<◌, ◌++◌, OnOk};
ghost use Rattle.run_texts.specs.Printed.{hex, name_byte_text, name_text};
ghost use Rattle.list_lines.specs.Lists.{byte_text, token_text};

use cil_base::Bytes;
use std::alloc::AllocError;

/// Appends the bytes.
pub(crate) fn put(out: &mut Bytes, text: &[u8]) -> Result<(), AllocError>
    ensures { OnOk result (out.new ≡ out.old ++ text.now) }
{
    for byte in text {
        out.push(*byte)?;
    }
    Ok(())
}

/// An upper-case hexadecimal digit.
fn hex_digit(n: u8) -> u8
    requires { n < 16 }
    ensures { result ≡ hex n }
{
    if n < 10 { b'0' + n } else { b'A' + (n - 10) }
}

fn put_byte(out: &mut Bytes, byte: u8) -> Result<(), AllocError>
    ensures { OnOk result (out.new ≡ out.old ++ byte_text byte) }
{
    let first = hex_digit(byte / 16);
    let second = hex_digit(byte % 16);
    put(out, &[first, second])
}

/// A token's eight digits.
pub(crate) fn put_token(out: &mut Bytes, table: u8, row: u32) -> Result<(), AllocError>
    ensures { OnOk result (out.new ≡ out.old ++ token_text table row) }
{
    put_byte(out, table)?;
    put_byte(out, (row / 0x1_0000 % 0x100) as u8)?;
    put_byte(out, (row / 0x100 % 0x100) as u8)?;
    put_byte(out, (row % 0x100) as u8)
}

fn put_name_byte(out: &mut Bytes, byte: u8) -> Result<(), AllocError>
    ensures { OnOk result (out.new ≡ out.old ++ name_byte_text byte) }
{
    if byte >= 0x21 && byte <= 0x7E && byte != b'\\' {
        return put(out, &[byte]);
    }
    let first = hex_digit(byte / 16);
    let second = hex_digit(byte % 16);
    put(out, &[b'\\', b'x', first, second])
}

/// A name; what isn't printable is `\xHH`.
pub(crate) fn put_name(out: &mut Bytes, name: &[u8]) -> Result<(), AllocError>
    ensures { OnOk result (out.new ≡ out.old ++ name_text name.now) }
{
    for byte in name {
        put_name_byte(out, *byte)?;
    }
    Ok(())
}
