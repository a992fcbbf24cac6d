// The rules on the metadata root and its streams.
ghost use Rattle.std.specs.Prelude.{◌≡◌, ◌<◌, ◌≤◌, ◌^◌, ◌+◌, ◌*◌, ◌==◌, nat_lt, length, drop, codes, count_ones, Option, Some, None};
ghost use Rattle.cil_base.specs.Refusals.{first_of, refusal, assembly_place};
ghost use Rattle.cil_base.specs.Numbers.{num};
ghost use Rattle.cli_heaps.specs.Root.{first_header, stream_count, stream_bytes, is_named};
ghost use Rattle.cli_heaps.specs.RootRules.{tests, root_cut, header_cut, is_user_string_length, are_user_strings, is_cut_stream, is_known, is_repeated, stream_tests, header_tests, lacks_tables, test};

use crate::streams::{
    Stream, are_whole, bytes_in, find_stream, first_header, header_at, header_end,
};
use byteorder::{ByteOrder, LittleEndian};
use cil_base::{Place, Refusal, Rule, bytes_from, read_packed, read_u32_at};

const SIGNATURE: u32 = 0x424A_5342;

fn refusal(rule: Rule, assembly: u32, at: u32) -> Refusal
    ensures { result ≡ refusal rule (assembly_place assembly) at }
{
    Place::of_assembly(assembly).refusal(rule, at)
}

/// Where the first field of the root that is not whole begins.
fn root_cut(meta: &[u8]) -> Option<u32>
    requires { length meta.now < 2 ^ 32 }
    ensures { result ≡ root_cut meta.now }
{
    if meta.len() < 4 {
        return Some(0);
    }
    if meta.len() < 6 {
        return Some(4);
    }
    if meta.len() < 8 {
        return Some(6);
    }
    if meta.len() < 12 {
        return Some(8);
    }
    let Some(length) = read_u32_at(meta, 12) else {
        return Some(12);
    };
    let text_end = 16 + length as usize;
    if meta.len() < text_end {
        return Some(16);
    }
    if meta.len() < text_end + 2 {
        return Some(text_end as u32);
    }
    if meta.len() < text_end + 4 {
        return Some(text_end as u32 + 2);
    }
    None
}

/// Where the first field of a stream header that is not whole begins.
fn header_cut(meta: &[u8], at: usize) -> Option<u32>
    requires short { length meta.now < 2 ^ 32 }
    requires near { at ≤ length meta.now }
    ensures { result ≡ header_cut meta.now at }
{
    if meta.len() < at + 4 {
        return Some(at as u32);
    }
    if meta.len() < at + 8 {
        return Some(at as u32 + 4);
    }
    if meta.len() < header_end(meta, at) {
        return Some(at as u32 + 8);
    }
    None
}

/// Whether an entry of `#US` may have so many bytes.
fn is_user_string_length(n: u32) -> bool
    ensures { result ≡ is_user_string_length n }
{
    n == 0 || n % 2 == 1
}

/// Whether the bytes are whole entries of `#US`, one after another (ECMA-335, II.24.2.4).
fn are_user_strings(bytes: &[u8]) -> bool
    ensures { result ≡ are_user_strings 0 bytes.now }
{
    let mut at = 0;
    while at < bytes.len() {
        match read_packed(bytes, at) {
            None => return false,
            Some((n, width)) => {
                let next = at + n as usize + width as usize;
                if !is_user_string_length(n) || next > bytes.len() {
                    return false;
                }
                at = next;
            }
        }
    }
    true
}

/// Whether `#~` is too short for its header and for a count for each bit of Valid.
#[tactic(auto, unfolding(cil_base::specs::Numbers::num))]
fn are_cut_tables(bytes: &[u8]) -> bool
    ensures { result ≡ nat_lt (length bytes.now) (24 + 4 * count_ones (num bytes.now 8 8)) }
{
    if bytes.len() < 24 {
        return true;
    }
    let valid = LittleEndian::read_u64(bytes_from(bytes, 8));
    bytes.len() < 24 + 4 * valid.count_ones() as usize
}

fn is_cut_stream(meta: &[u8], stream: &Stream<'_>) -> bool
    requires { length meta.now < 2 ^ 32 }
    ensures { result ≡ is_cut_stream meta.now stream.now }
{
    if meta.len() < stream.offset() as usize + stream.size() as usize {
        return true;
    }
    if stream.is_named(b"#~") && are_cut_tables(bytes_in(meta, stream)) {
        return true;
    }
    stream.is_named(b"#US") && !are_user_strings(bytes_from(bytes_in(meta, stream), 1))
}

fn is_known(stream: &Stream<'_>) -> bool
    ensures { result ≡ is_known stream.now }
{
    stream.is_named(b"#~")
        || stream.is_named(b"#Strings")
        || stream.is_named(b"#US")
        || stream.is_named(b"#GUID")
        || stream.is_named(b"#Blob")
}

/// Whether another stream of a known name stands before this one.
fn is_repeated(meta: &[u8], stream: &Stream<'_>) -> bool
    requires short { length meta.now < 2 ^ 32 }
    requires whole { root_cut meta.now ≡ None }
    ensures { result ≡ is_repeated meta.now stream.now }
{
    if !is_known(stream) {
        return false;
    }
    match find_stream(meta, stream.name()) {
        Some(first) => first.header() != stream.header(),
        None => true,
    }
}

fn stream_fault(meta: &[u8], assembly: u32, stream: &Stream<'_>) -> Option<Refusal>
    requires short { length meta.now < 2 ^ 32 }
    requires whole { root_cut meta.now ≡ None }
    ensures { result ≡ first_of (stream_tests meta.now assembly stream.now) }
{
    if is_cut_stream(meta, stream) {
        return Some(refusal(Rule::M1, assembly, stream.header()));
    }
    if is_repeated(meta, stream) {
        return Some(refusal(Rule::M2, assembly, stream.header()));
    }
    if stream.is_named(b"#-") {
        return Some(refusal(Rule::M3, assembly, stream.header()));
    }
    None
}

fn header_fault(meta: &[u8], assembly: u32) -> Option<Refusal>
    requires short { length meta.now < 2 ^ 32 }
    requires whole { root_cut meta.now ≡ None }
    ensures { result ≡ first_of (header_tests meta.now assembly (first_header meta.now) (stream_count meta.now)) }
{
    let (mut at, mut left) = first_header(meta);
    while left > 0 {
        let Some((stream, end)) = header_at(meta, at) else {
            return match header_cut(meta, at) {
                Some(at) => Some(refusal(Rule::M1, assembly, at)),
                None => None,
            };
        };
        if let Some(fault) = stream_fault(meta, assembly, &stream) {
            return Some(fault);
        }
        at = end;
        left -= 1;
    }
    None
}

/// The first rule that the root or a stream breaks.
pub fn first_fault(meta: &[u8], assembly: u32) -> Option<Refusal>
    requires { length meta.now < 2 ^ 32 }
    ensures { result ≡ first_of (tests meta.now assembly) }
{
    if read_u32_at(meta, 0) != Some(SIGNATURE) {
        return Some(refusal(Rule::M1, assembly, 0));
    }
    if let Some(at) = root_cut(meta) {
        return Some(refusal(Rule::M1, assembly, at));
    }
    if are_whole(meta) && find_stream(meta, b"#~").is_none() {
        return Some(refusal(Rule::M2, assembly, 0));
    }
    header_fault(meta, assembly)
}
