// Types that lead back to themselves (ECMA-335, II.22.37 and II.10.1.3), and structs in structs.

use crate::types::{A, B, MODULE, TO_B};
use sample_sets::lists;
use std::alloc::{AllocError, Global};
use std::test::Fail;

/// T is row 2 and U row 3, so 8 and 12 name them as bases.
const T: &str = "TypeDef 0, T, -, 0, 1, 1";

const U: &str = "TypeDef 0, U, -, 0, 1, 1";

const T_UNDER_U: &str = "TypeDef 0, T, -, 12, 1, 1";

const U_UNDER_T: &str = "TypeDef 0, U, -, 8, 1, 1";

/// U implements T, or is within it.
const U_IS_T: &str = "InterfaceImpl 3, 8";

const U_IN_T: &str = "NestedClass 3, 2";

const AT_T: &str = "refused: N3 assembly 0 table 02 row 2 at 0\n";

const BOTH: &str = "type 02000001 <Module>\ntype 02000002 T\ntype 02000003 U\n";

#[test]
fn bases_and_interfaces_make_no_circle(rt: HostRuntime) {
    let alloc = rt.alloc();
    const ITSELF: &str = "TypeDef 0, T, -, 8, 1, 1";
    const OWN_INTERFACE: &str = "InterfaceImpl 2, 8";
    assert!(rt; lists(alloc, &[A, T_UNDER_U, U_UNDER_T], AT_T));
    assert!(rt; lists(alloc, &[A, ITSELF], AT_T));
    assert!(rt; lists(alloc, &[A, T, OWN_INTERFACE], AT_T));
    assert!(rt; lists(alloc, &[A, T_UNDER_U, U, U_IS_T], AT_T));
    assert!(rt; lists(alloc, &[A, T, U_UNDER_T, U_IS_T], BOTH));
}

#[test]
fn a_circle_of_bases_goes_through_an_instance(rt: HostRuntime) {
    let alloc = rt.alloc();
    // T is under the instance of U of string, and U has a type parameter.
    const UNDER_INSTANCE: &str = "TypeDef 0, T, -, 6, 1, 1";
    const INSTANCE: &str = "TypeSpec 15 12 0C 01 0E\nGenericParam 0, 0, 6, X";
    assert!(rt; lists(alloc, &[A, UNDER_INSTANCE, U_UNDER_T, INSTANCE], AT_T));
    assert!(rt; lists(alloc, &[A, UNDER_INSTANCE, U, INSTANCE], BOTH));
}

#[test]
fn no_base_and_no_interface_is_a_type_parameter(rt: HostRuntime) {
    let alloc = rt.alloc();
    // 6 names the type parameter 0 of U, row 3, and 10 one of a method.
    const UNDER_PARAMETER: &str = "TypeDef 0, U, -, 6, 1, 1";
    const UNDER_ONE_OF_A_METHOD: &str = "TypeDef 0, U, -, 10, 1, 1";
    const PARAMETERS: &str = "TypeSpec 13 00\nTypeSpec 1E 00\nGenericParam 0, 0, 6, X";
    const IS_PARAMETER: &str = "InterfaceImpl 3, 6";
    const IS_ONE_OF_A_METHOD: &str = "InterfaceImpl 3, 10";
    const AT_U: &str = "refused: N3 assembly 0 table 02 row 3 at 0\n";
    assert!(rt; lists(alloc, &[A, T, UNDER_PARAMETER, PARAMETERS], AT_U));
    assert!(rt; lists(alloc, &[A, T, UNDER_ONE_OF_A_METHOD, PARAMETERS], AT_U));
    assert!(rt; lists(alloc, &[A, T, U, PARAMETERS, IS_PARAMETER], AT_U));
    assert!(rt; lists(alloc, &[A, T, U, PARAMETERS, IS_ONE_OF_A_METHOD], AT_U));
    assert!(rt; lists(alloc, &[A, T, U_UNDER_T, PARAMETERS], BOTH));
}

#[test]
fn nestings_make_no_circle(rt: HostRuntime) {
    let alloc = rt.alloc();
    const T_IN_U: &str = "NestedClass 2, 3";
    const T_IN_T: &str = "NestedClass 2, 2";
    const NESTED: &str = "type 02000001 <Module>\ntype 02000002 T\ntype 02000003 T/U\n";
    assert!(rt; lists(alloc, &[A, T, U, T_IN_U, U_IN_T], AT_T));
    assert!(rt; lists(alloc, &[A, T, T_IN_T], AT_T));
    assert!(rt; lists(alloc, &[A, T, U_UNDER_T, U_IN_T], NESTED));
}

#[test]
fn a_circle_of_bases_goes_over_two_assemblies(rt: HostRuntime) {
    let alloc = rt.alloc();
    const T_UNDER_OTHER: &str = "TypeRef 6, U, -\nTypeDef 0, T, -, 5, 1, 1";
    const U_UNDER_OTHER: &str = "TypeRef 6, T, -\nTypeDef 0, U, -, 5, 1, 1";
    const U: &str = "TypeDef 0, U, -, 0, 1, 1";
    const TO_A: &str = "AssemblyRef 1, 0, 0, 0, 0, -, a, -, -";
    const LISTED: &str = "type 02000001 <Module>\ntype 02000002 T\n";
    assert!(rt;
        lists(
            alloc,
            &[A, TO_B, T_UNDER_OTHER, B, TO_A, U_UNDER_OTHER],
            AT_T
        )
    );
    assert!(rt; lists(alloc, &[A, TO_B, T_UNDER_OTHER, B, U], LISTED));
}

/// S is a struct, row 2, that has the fields; G one with a type parameter, row 3, that has none.
const STRUCTS: &str = "AssemblyRef 1, 0, 0, 0, 0, -, mscorlib, -, -
TypeRef 6, ValueType, System
TypeDef 0x100, S, -, 5, 1, 1
TypeDef 0x100, G, -, 5, 2, 1
GenericParam 0, 0, 6, X";

#[test]
fn no_struct_holds_itself(rt: HostRuntime) {
    let alloc = rt.alloc();
    const ITSELF: &str = "Field 0, f, 06 11 08";
    const IS_STATIC: &str = "Field 0x10, f, 06 11 08";
    const ARRAY: &str = "Field 0, f, 06 1D 11 08";
    const ARGUMENT: &str = "Field 0, f, 06 15 11 0C 01 11 08";
    const OTHER: &str = "Field 0, f, 06 15 11 0C 01 0E";
    const LISTED: &str = "type 02000001 <Module>\ntype 02000002 S\ntype 02000003 G\n";
    assert!(rt; lists(alloc, &[A, STRUCTS, ITSELF], AT_T));
    assert!(rt; lists(alloc, &[A, STRUCTS, IS_STATIC], LISTED));
    assert!(rt; lists(alloc, &[A, STRUCTS, ARRAY], LISTED));
    assert!(rt; lists(alloc, &[A, STRUCTS, ARGUMENT], AT_T));
    assert!(rt; lists(alloc, &[A, STRUCTS, OTHER], LISTED));
}

/// A compressed number (II.23.2) below 0x4000.
fn compressed(alloc: Global, number: u16) -> Result<String, AllocError> {
    let low = number % 256;
    if number < 0x80 {
        return format!(in alloc; "{low:X}");
    }
    let high = 0x80 + number / 256 % 64;
    format!(in alloc; "{high:X} {low:X}")
}

/// The struct of the TypeDef row behind `row`, with the Field row `row` of this type.
fn push_struct(text: &mut String, alloc: Global, row: u16, ty: &str) -> Result<(), AllocError> {
    let line = format!(in alloc; "TypeDef 0x100, S{row}, -, 5, {row}, 1\nField 0, f, 06 {ty}\n")?;
    text.push_str(line.as_str())
}

/// The struct of TypeDef row 2, in it that of row 3, and so on: so many.
fn push_chain(text: &mut String, alloc: Global, count: u16) -> Result<(), AllocError> {
    for row in 1..count.min(4000) {
        let next = compressed(alloc, (row + 2) * 4)?;
        let ty = format!(in alloc; "11 {next}")?;
        push_struct(text, alloc, row, ty.as_str())?;
    }
    push_struct(text, alloc, count, "08")
}

const VALUE_TYPE: &str =
    "AssemblyRef 1, 0, 0, 0, 0, -, mscorlib, -, -\nTypeRef 6, ValueType, System";

/// Whether `list` answers this text where an assembly that TARGET doesn't name has such a chain.
fn chain_answers(alloc: Global, count: u16, want: &str) -> Result<bool, AllocError> {
    let mut text = String::new(alloc);
    push_chain(&mut text, alloc, count)?;
    Ok(lists(alloc, &[A, B, VALUE_TYPE, text.as_str()], want))
}

#[test]
fn structs_stand_a_thousand_deep_in_structs(rt: HostRuntime) -> Result<(), Fail> {
    let alloc = rt.alloc();
    const TOO_DEEP: &str = "refused: N3 assembly 1 table 02 row 2 at 0\n";
    assert!(rt; chain_answers(alloc, 1000, MODULE)?);
    assert!(rt; chain_answers(alloc, 1001, TOO_DEEP)?);
    Ok(())
}
