// The texts of runs; expected ones are worked out by hand.
use cil_base::{Bytes, Name, U32s, Units};
use cil_model::{Outcome, Pointer, Reply, ReplyResult, TraceItem, TypeArgs, Tys, Value, Values};
use run_texts::{print_item, print_outcome, print_value, text_of};
use sqlite_items::Boxed;
use std::alloc::{AllocError, Global};

fn value_text(alloc: Global, v: &Value) -> Result<Bytes, AllocError> {
    let mut out = Bytes::new(alloc);
    print_value(&mut out, v)?;
    Ok(out)
}

fn prints(alloc: Global, v: Value, text: &[u8]) -> bool {
    matches!(value_text(alloc, &v), Ok(found) if found.as_slice() == text)
}

fn prints_units(alloc: Global, units: &[u16], text: &[u8]) -> bool {
    match Units::from_slice(alloc, units) {
        Ok(units) => prints(alloc, Value::Text(units), text),
        Err(_) => false,
    }
}

fn prints_a_pointer(alloc: Global) -> bool {
    let path = U32s::new(alloc);
    match Boxed::new(alloc, Pointer::Inside { object: 1, path }) {
        Ok(pointer) => prints(alloc, Value::Ptr(pointer), b"&"),
        Err(_) => false,
    }
}

fn prints_a_function(alloc: Global) -> bool {
    let no_arguments = TypeArgs {
        type_args: Tys::new(alloc),
        method_args: Tys::new(alloc),
    };
    match Boxed::new(alloc, no_arguments) {
        Ok(under) => prints(alloc, Value::Func { method: 0, under }, b"fn"),
        Err(_) => false,
    }
}

#[test]
fn values_have_their_texts(rt: HostRuntime) {
    let alloc = rt.alloc();
    let units = [0x61, 0x22, 0x5C, 0x7E, 0x7F, 0xD83D, 0xDE0A];
    let found = [
        prints(alloc, Value::I4(-5), b"-5"),
        prints(alloc, Value::I8(5), b"5L"),
        prints(alloc, Value::Native(5), b"5n"),
        prints(alloc, Value::Obj(12), b"#12"),
        prints(alloc, Value::Null, b"null"),
        prints(alloc, Value::Struct(Values::new(alloc)), b"struct"),
        prints(alloc, Value::Opaque(Bytes::new(alloc)), b"opaque"),
        prints_units(alloc, &units, b"\"a\\\"\\\\~\\u007F\\uD83D\\uDE0A\""),
        prints_a_pointer(alloc),
        prints_a_function(alloc),
    ];
    assert_eq!(rt; found, [true; 10]);
}

fn text_value(alloc: Global) -> Result<Value, AllocError> {
    Ok(Value::Text(Units::from_slice(alloc, &[0x78])?))
}

/// 5 and "x".
fn arguments(alloc: Global) -> Result<Values, AllocError> {
    let mut args = Values::new(alloc);
    args.push(Value::I4(5))?;
    args.push(text_value(alloc)?)?;
    Ok(args)
}

fn item_text(alloc: Global, item: &TraceItem) -> Result<Bytes, AllocError> {
    let mut out = Bytes::new(alloc);
    print_item(&mut out, item)?;
    Ok(out)
}

fn item_prints(alloc: Global, member: Name, args: Values, given: ReplyResult, text: &[u8]) -> bool {
    let by_ref = Values::new(alloc);
    let reply = Reply {
        result: given,
        by_ref,
    };
    let item = TraceItem {
        member,
        args,
        reply,
    };
    matches!(item_text(alloc, &item), Ok(found) if found.as_slice() == text)
}

/// Whether a call of `a\b` with 5 and "x" prints so.
fn call_prints(alloc: Global, given: ReplyResult, text: &[u8]) -> bool {
    match (Name::from_slice(alloc, b"a\\b"), arguments(alloc)) {
        (Ok(member), Ok(args)) => item_prints(alloc, member, args, given, text),
        _ => false,
    }
}

fn throw_prints(alloc: Global) -> bool {
    match Name::from_slice(alloc, b"E 1") {
        Ok(name) => {
            let throw = ReplyResult::Throw(name);
            call_prints(alloc, throw, b"call a\\x5Cb(5, \"x\") -> throw E\\x201\n")
        }
        Err(_) => false,
    }
}

#[test]
fn a_call_is_a_line(rt: HostRuntime) {
    let alloc = rt.alloc();
    let found = [
        call_prints(
            alloc,
            ReplyResult::Void,
            b"call a\\x5Cb(5, \"x\") -> void\n",
        ),
        call_prints(
            alloc,
            ReplyResult::Given(Value::Null),
            b"call a\\x5Cb(5, \"x\") -> null\n",
        ),
        throw_prints(alloc),
    ];
    assert_eq!(rt; found, [true; 3]);
}

fn outcome_text(alloc: Global, o: &Outcome) -> Result<Bytes, AllocError> {
    let mut out = Bytes::new(alloc);
    print_outcome(&mut out, o)?;
    Ok(out)
}

fn ends_with(alloc: Global, o: Outcome, text: &[u8]) -> bool {
    matches!(outcome_text(alloc, &o), Ok(found) if found.as_slice() == text)
}

fn thrown_ends(alloc: Global) -> bool {
    match Name::from_slice(alloc, b"E") {
        Ok(name) => ends_with(alloc, Outcome::Thrown { object: 3, name }, b"throw E\n"),
        Err(_) => false,
    }
}

#[test]
fn an_end_is_a_line(rt: HostRuntime) {
    let alloc = rt.alloc();
    let found = [
        ends_with(alloc, Outcome::Return(Some(Value::I4(7))), b"return 7\n"),
        ends_with(alloc, Outcome::Return(None), b"return void\n"),
        ends_with(alloc, Outcome::Stuck, b"stuck\n"),
        thrown_ends(alloc),
    ];
    assert_eq!(rt; found, [true; 4]);
}

fn reads_as(alloc: Global, bytes: &[u8], units: &[u16]) -> bool {
    matches!(text_of(alloc, bytes), Ok(text) if text.as_slice() == units)
}

#[test]
fn bytes_read_as_a_text(rt: HostRuntime) {
    let rows: [(&[u8], &[u16]); 5] = [
        (&[0x41, 0xC3, 0xA9], &[0x41, 0xE9]),
        (&[0xF0, 0x9F, 0x98, 0x80, 0x42], &[0xD83D, 0xDE00, 0x42]),
        // A character cut short, a surrogate, and a spelling that is too long.
        (&[0xE2, 0x82, 0x41], &[0xFFFD, 0xFFFD, 0x41]),
        (&[0xED, 0xA0, 0x80], &[0xFFFD, 0xFFFD, 0xFFFD]),
        (&[0xC0, 0x80], &[0xFFFD, 0xFFFD]),
    ];
    let mut wrong = 0usize;
    for (bytes, units) in rows.iter() {
        if !reads_as(rt.alloc(), bytes, units) {
            wrong = wrong.saturating_add(1);
        }
    }
    assert_eq!(rt; wrong, 0);
}
