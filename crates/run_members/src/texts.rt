// What core members of String answer (ECMA-335, IV; a text is a list of units of two bytes).

ghost use Rattle.std.specs.Prelude.{◌≡◌, ◌++◌, option_map, IfOk};
ghost use Rattle.cil_semantics.specs.Calls as calls;
ghost use Rattle.cil_semantics.specs.Calls.{same_text, texted, units_of};

use cil_base::Units;
use cil_model::Value;
use run_numbers::flag_of;
use std::alloc::{AllocError, Global};

fn same_units(a: &Units, b: &Value) -> Option<bool>
    ensures { result ≡ same_text (calls.SomeText a.now) (texted b.now) }
{
    match b {
        Value::Null => Some(false),
        Value::Text(b) => Some(a.as_slice() == b.as_slice()),
        _ => None,
    }
}

fn same_null(b: &Value) -> Option<bool>
    ensures { result ≡ same_text calls.NullText (texted b.now) }
{
    match b {
        Value::Null => Some(true),
        Value::Text(_) => Some(false),
        _ => None,
    }
}

fn are_same(a: &Value, b: &Value) -> Option<bool>
    ensures { result ≡ same_text (texted a.now) (texted b.now) }
{
    match a {
        Value::Null => same_null(b),
        Value::Text(units) => same_units(units, b),
        _ => None,
    }
}

/// `op_Equality`, or where that is not wanted `op_Inequality`.
pub fn equality(wanted: bool, values: &[Value]) -> Option<Value>
    ensures { result ≡ calls.string_answer (calls.Equality wanted) values.now }
{
    let [a, b] = values else {
        return None;
    };
    match are_same(a, b) {
        None => None,
        Some(same) => Some(flag_of(same == wanted)),
    }
}

fn units_of(v: &Value) -> Option<&[u16]>
    ensures { option_map (λ units. units.now) result ≡ units_of (texted v.now) }
{
    match v {
        Value::Null => Some(&[]),
        Value::Text(units) => Some(units.as_slice()),
        _ => None,
    }
}

fn joined(alloc: Global, a: &[u16], b: &[u16]) -> Result<Units, AllocError>
    ensures { IfOk result (λ units. units ≡ a.now ++ b.now) }
{
    let mut units = Units::from_slice(alloc, a)?;
    units.append(Units::from_slice(alloc, b)?)?;
    Ok(units)
}

fn joined_values(alloc: Global, a: &Value, b: &Value) -> Result<Option<Value>, AllocError>
    ensures { IfOk result (λ v. v ≡ calls.joined (units_of (texted a.now)) (units_of (texted b.now))) }
{
    let (Some(a), Some(b)) = (units_of(a), units_of(b)) else {
        return Ok(None);
    };
    Ok(Some(Value::Text(joined(alloc, a, b)?)))
}

/// `Concat` of two texts, where null is the empty text.
pub fn concatenated(alloc: Global, values: &[Value]) -> Result<Option<Value>, AllocError>
    ensures { IfOk result (λ v. v ≡ calls.string_answer calls.Concatenation values.now) }
{
    let [a, b] = values else {
        return Ok(None);
    };
    let v = joined_values(alloc, a, b)?;
    Ok(v)
}

fn is_empty_text(v: &Value) -> Option<Value>
    ensures { result ≡ calls.is_empty_text (texted v.now) }
{
    match v {
        Value::Null => Some(flag_of(true)),
        Value::Text(units) => Some(flag_of(units.len() == 0)),
        _ => None,
    }
}

/// `IsNullOrEmpty`.
pub fn is_null_or_empty(values: &[Value]) -> Option<Value>
    ensures { result ≡ calls.string_answer calls.IsNullOrEmpty values.now }
{
    let [v] = values else {
        return None;
    };
    is_empty_text(v)
}
