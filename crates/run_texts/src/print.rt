// The texts of values, of outside calls and of how a run ends.

ghost use Rattle.std.specs.Prelude.{◌≡◌, ◌<◌, ◌++◌, codes, OnOk, OnErr};
ghost use Rattle.std.specs.Fmt.{signed_decimal};
ghost use Rattle.std.specs.List.{flat_map};
ghost use Rattle.run_texts.specs.Printed.{Begun, hex, unit_text, name_byte_text, name_text, quoted, value_text, object_text, more_text, throw_text, reply_text, call_text, return_text, thrown_text, arguments_text, item_text, outcome_text};

use cil_base::Bytes;
use cil_model::{Outcome, ReplyResult, TraceItem, Value};
use itoa::Buffer;
use std::alloc::AllocError;

/// Appends the bytes.
fn put(out: &mut Bytes, text: &[u8]) -> Result<(), AllocError>
    ensures ok { OnOk result (out.new ≡ out.old ++ text.now) }
    ensures err { OnErr result (Begun out.old text.now out.new) }
{
    for byte in text {
        out.push(*byte)?;
    }
    Ok(())
}

/// An upper-case hexadecimal digit.
fn hex_digit(n: u8) -> u8
    requires { n < 16 }
    ensures { result ≡ hex n }
{
    if n < 10 { b'0' + n } else { b'A' + (n - 10) }
}

fn print_unit(out: &mut Bytes, unit: u16) -> Result<(), AllocError>
    ensures ok { OnOk result (out.new ≡ out.old ++ unit_text unit) }
    ensures err { OnErr result (Begun out.old (unit_text unit) out.new) }
{
    if unit == 34 || unit == 92 {
        return put(out, &[b'\\', unit as u8]);
    }
    if unit >= 0x20 && unit <= 0x7E {
        return put(out, &[unit as u8]);
    }
    let first = hex_digit((unit / 4096) as u8);
    let second = hex_digit((unit / 256 % 16) as u8);
    let third = hex_digit((unit / 16 % 16) as u8);
    let fourth = hex_digit((unit % 16) as u8);
    put(out, &[b'\\', b'u', first, second, third, fourth])
}

fn print_units(out: &mut Bytes, units: &[u16]) -> Result<(), AllocError>
    ensures ok { OnOk result (out.new ≡ out.old ++ flat_map unit_text units.now) }
    ensures err { OnErr result (Begun out.old (flat_map unit_text units.now) out.new) }
{
    for unit in units {
        print_unit(out, *unit)?;
    }
    Ok(())
}

fn print_name_byte(out: &mut Bytes, byte: u8) -> Result<(), AllocError>
    ensures ok { OnOk result (out.new ≡ out.old ++ name_byte_text byte) }
    ensures err { OnErr result (Begun out.old (name_byte_text byte) out.new) }
{
    if byte >= 0x21 && byte <= 0x7E && byte != b'\\' {
        return put(out, &[byte]);
    }
    let first = hex_digit(byte / 16);
    let second = hex_digit(byte % 16);
    put(out, &[b'\\', b'x', first, second])
}

fn print_name(out: &mut Bytes, name: &[u8]) -> Result<(), AllocError>
    ensures ok { OnOk result (out.new ≡ out.old ++ name_text name.now) }
    ensures err { OnErr result (Begun out.old (name_text name.now) out.new) }
{
    for byte in name {
        print_name_byte(out, *byte)?;
    }
    Ok(())
}

/// A decimal number with its mark.
fn print_number(out: &mut Bytes, n: i64, mark: &[u8]) -> Result<(), AllocError>
    ensures ok { OnOk result (out.new ≡ out.old ++ (signed_decimal n ++ mark.now)) }
    ensures err { OnErr result (Begun out.old (signed_decimal n ++ mark.now) out.new) }
{
    let mut digits = Buffer::new();
    put(out, digits.format(n).as_bytes())?;
    put(out, mark)?;
    Ok(())
}

/// The mark of an object, and its number.
fn print_object(out: &mut Bytes, k: u32) -> Result<(), AllocError>
    ensures ok { OnOk result (out.new ≡ out.old ++ object_text k) }
    ensures err { OnErr result (Begun out.old (object_text k) out.new) }
{
    let mut digits = Buffer::new();
    put(out, b"#")?;
    put(out, digits.format(k).as_bytes())?;
    Ok(())
}

/// The text of units, between quotes.
fn print_text(out: &mut Bytes, units: &[u16]) -> Result<(), AllocError>
    ensures ok { OnOk result (out.new ≡ out.old ++ quoted units.now) }
    ensures err { OnErr result (Begun out.old (quoted units.now) out.new) }
{
    put(out, b"\"")?;
    print_units(out, units)?;
    put(out, b"\"")?;
    Ok(())
}

/// Appends a value's text. After a refusal `out` has a first part of the text more.
pub fn print_value(out: &mut Bytes, v: &Value) -> Result<(), AllocError>
    ensures ok { OnOk result (out.new ≡ out.old ++ value_text v.now) }
    ensures err { OnErr result (Begun out.old (value_text v.now) out.new) }
{
    match v {
        Value::I4(n) => print_number(out, *n as i64, b""),
        Value::I8(n) => print_number(out, *n, b"L"),
        Value::Native(n) => print_number(out, *n, b"n"),
        Value::Null => put(out, b"null"),
        Value::Obj(k) => print_object(out, *k),
        Value::Text(units) => print_text(out, units.as_slice()),
        Value::Ptr(_) => put(out, b"&"),
        Value::Struct(_) => put(out, b"struct"),
        Value::Func { .. } => put(out, b"fn"),
        Value::Opaque(_) => put(out, b"opaque"),
    }
}

fn print_throw(out: &mut Bytes, name: &[u8]) -> Result<(), AllocError>
    ensures ok { OnOk result (out.new ≡ out.old ++ throw_text name.now) }
    ensures err { OnErr result (Begun out.old (throw_text name.now) out.new) }
{
    put(out, b"throw ")?;
    print_name(out, name)?;
    Ok(())
}

fn print_reply(out: &mut Bytes, reply: &ReplyResult) -> Result<(), AllocError>
    ensures ok { OnOk result (out.new ≡ out.old ++ reply_text reply.now) }
    ensures err { OnErr result (Begun out.old (reply_text reply.now) out.new) }
{
    match reply {
        ReplyResult::Default => put(out, b"default"),
        ReplyResult::Void => put(out, b"void"),
        ReplyResult::Given(v) => print_value(out, v),
        ReplyResult::Throw(name) => print_throw(out, name.as_slice()),
    }
}

fn print_more(out: &mut Bytes, v: &Value) -> Result<(), AllocError>
    ensures ok { OnOk result (out.new ≡ out.old ++ more_text v.now) }
    ensures err { OnErr result (Begun out.old (more_text v.now) out.new) }
{
    put(out, b", ")?;
    print_value(out, v)?;
    Ok(())
}

fn print_others(out: &mut Bytes, vs: &[Value]) -> Result<(), AllocError>
    ensures ok { OnOk result (out.new ≡ out.old ++ flat_map more_text vs.now) }
    ensures err { OnErr result (Begun out.old (flat_map more_text vs.now) out.new) }
{
    for v in vs {
        print_more(out, v)?;
    }
    Ok(())
}

/// The arguments, parted by `, `.
fn print_arguments(out: &mut Bytes, vs: &[Value]) -> Result<(), AllocError>
    ensures ok { OnOk result (out.new ≡ out.old ++ arguments_text vs.now) }
    ensures err { OnErr result (Begun out.old (arguments_text vs.now) out.new) }
{
    match vs {
        [] => Ok(()),
        [first, others @ ..] => {
            print_value(out, first)?;
            print_others(out, others)?;
            Ok(())
        }
    }
}

fn print_call(out: &mut Bytes, member: &[u8], args: &[Value]) -> Result<(), AllocError>
    ensures ok { OnOk result (out.new ≡ out.old ++ call_text member.now args.now) }
    ensures err { OnErr result (Begun out.old (call_text member.now args.now) out.new) }
{
    put(out, b"call ")?;
    print_name(out, member)?;
    put(out, b"(")?;
    print_arguments(out, args)?;
    put(out, b") -> ")?;
    Ok(())
}

/// Appends the line of an outside call, with its line feed. After a refusal `out` has a first part
/// of the line more.
pub fn print_item(out: &mut Bytes, t: &TraceItem) -> Result<(), AllocError>
    ensures ok { OnOk result (out.new ≡ out.old ++ item_text t.now) }
    ensures err { OnErr result (Begun out.old (item_text t.now) out.new) }
{
    print_call(out, t.member.as_slice(), t.args.as_slice())?;
    print_reply(out, &t.reply.result)?;
    put(out, b"\n")?;
    Ok(())
}

fn print_return(out: &mut Bytes, v: &Value) -> Result<(), AllocError>
    ensures ok { OnOk result (out.new ≡ out.old ++ return_text v.now) }
    ensures err { OnErr result (Begun out.old (return_text v.now) out.new) }
{
    put(out, b"return ")?;
    print_value(out, v)?;
    put(out, b"\n")?;
    Ok(())
}

fn print_thrown(out: &mut Bytes, name: &[u8]) -> Result<(), AllocError>
    ensures ok { OnOk result (out.new ≡ out.old ++ thrown_text name.now) }
    ensures err { OnErr result (Begun out.old (thrown_text name.now) out.new) }
{
    print_throw(out, name)?;
    put(out, b"\n")?;
    Ok(())
}

/// Appends the last line of a run that ended, with its line feed. After a refusal `out` has a first
/// part of the line more.
pub fn print_outcome(out: &mut Bytes, o: &Outcome) -> Result<(), AllocError>
    ensures ok { OnOk result (out.new ≡ out.old ++ outcome_text o.now) }
    ensures err { OnErr result (Begun out.old (outcome_text o.now) out.new) }
{
    match o {
        Outcome::Return(None) => put(out, b"return void\n"),
        Outcome::Return(Some(v)) => print_return(out, v),
        Outcome::Thrown { name, .. } => print_thrown(out, name.as_slice()),
        Outcome::Stuck => put(out, b"stuck\n"),
    }
}
