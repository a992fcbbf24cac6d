// The header of a body.
ghost use Rattle.std.specs.Prelude.{◌≡◌, ◌<◌, ◌≤◌, ◌^◌, ◌+◌, length, Option, Some, None, IfSome};
ghost use Rattle.cil_base.specs.Numbers.{num};
ghost use Rattle.cil_model.specs.BodyLayout.{are_fat_flags, bit, fat_header, header_of, if_fat, locals_of, tiny_header};

use crate::numbers::{four_in, two_in};
use cil_base::Token;
use cil_model::MethodHeader;

pub(crate) fn has_bit(value: u32, n: u32) -> bool
    requires { 0 < value }
    ensures { result ≡ bit value n }
{
    n / value % 2 == 1
}

fn locals_in(v: u32) -> Option<Token>
    ensures value { result ≡ locals_of v }
    ensures row { IfSome result (λ token. token.row < 2 ^ 24) }
{
    if v == 0 {
        None
    } else {
        Some(Token::from_u32(v))
    }
}

fn is_fat(flags: u32) -> bool
    ensures { result ≡ are_fat_flags flags }
{
    flags % 8 == 3 && flags / 32 == 0x180
}

fn read_fat(bytes: &[u8]) -> Option<MethodHeader>
    requires { 2 ≤ length bytes.now }
    ensures value { result ≡ if_fat (num bytes.now 0 2) bytes.now }
    ensures row { IfSome result (λ h. IfSome h.locals (λ token. token.row < 2 ^ 24)) }
    ensures small { IfSome result (λ h. h.size ≤ 12) }
{
    let flags = two_in(bytes, 0) as u32;
    if !is_fat(flags) || bytes.len() < 12 {
        return None;
    }
    Some(MethodHeader {
        size: 12,
        code_size: four_in(bytes, 4),
        max_stack: two_in(bytes, 2),
        init: has_bit(16, flags),
        locals: locals_in(four_in(bytes, 8)),
        more: has_bit(8, flags),
    })
}

/// The header that the bytes begin with; None where it is cut or has other bits.
pub(crate) fn read_header(bytes: &[u8]) -> Option<MethodHeader>
    ensures value { result ≡ header_of bytes.now }
    ensures small { IfSome result (λ h. h.size ≤ 12) }
    ensures row { IfSome result (λ h. IfSome h.locals (λ token. token.row < 2 ^ 24)) }
{
    match bytes {
        [] => None,
        [b, ..] => {
            if *b % 4 == 2 {
                Some(MethodHeader {
                    size: 1,
                    code_size: *b as u32 / 4,
                    max_stack: 8,
                    init: false,
                    locals: None,
                    more: false,
                })
            } else if bytes.len() < 2 {
                None
            } else {
                read_fat(bytes)
            }
        }
    }
}
