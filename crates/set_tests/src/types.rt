// Types of a set: which are listed, and rows that name one that isn't there, or one twice.

use sample_sets::{lists, rewrites};

pub(crate) const MODULE: &str = "type 02000001 <Module>\n";

pub(crate) const A: &str = "assembly a";

pub(crate) const B: &str = "assembly b";

const C: &str = "assembly c";

const D: &str = "assembly d";

pub(crate) const TO_B: &str = "AssemblyRef 1, 0, 0, 0, 0, -, b, -, -";

const TO_C: &str = "AssemblyRef 1, 0, 0, 0, 0, -, c, -, -";

const TO_D: &str = "AssemblyRef 1, 0, 0, 0, 0, -, d, -, -";

/// A class T of the assembly itself.
pub(crate) const T: &str = "TypeDef 0, T, -, 0, 1, 1";

/// T of the assembly of AssemblyRef row 1, and U within it.
pub(crate) const NAMES_T: &str = "TypeRef 6, T, -";

const NAMES_U: &str = "TypeRef 7, U, -";

const U_IN_T: &str = "TypeDef 0, U, -, 0, 1, 1\nNestedClass 3, 2";

/// T is in the assembly of AssemblyRef row 1.
const FORWARDS_T: &str = "ExportedType 0, 0, T, -, 5";

const NO_OUTER: &str = "refused: N1 assembly 0 table 01 row 1 at 0\n";

const NO_INNER: &str = "refused: N1 assembly 0 table 01 row 2 at 0\n";

const NO_FORWARD: &str = "refused: N1 assembly 0 table 27 row 1 at 0\n";

const NESTED: &str = "TypeDef 0, T, N.M, 0, 1, 1
TypeDef 0, U, -, 0, 1, 3
MethodDef 0, 0, 0x16, one, 00 00 01, 1
MethodDef 0, 0, 0x16, a\\ b, 00 00 01, 1
MethodDef 0, 0, 0x16, one, 00 00 01, 1
NestedClass 3, 2";

const NESTED_LISTED: &str = "type 02000001 <Module>
type 02000002 N.M.T
method 06000001 one
method 06000002 a\\x5C\\x20b
type 02000003 N.M.T/U
method 06000003 one
";

#[test]
fn types_and_methods_of_the_first_assembly_are_listed(rt: HostRuntime) {
    let alloc = rt.alloc();
    assert!(rt; lists(alloc, &[A], MODULE));
    assert!(rt; lists(alloc, &[A, NESTED], NESTED_LISTED));
    assert!(rt; lists(alloc, &[A, B, NESTED], MODULE));
}

#[test]
fn references_lead_into_the_set(rt: HostRuntime) {
    let alloc = rt.alloc();
    assert!(rt; lists(alloc, &[A, TO_B, NAMES_T], MODULE));
    assert!(rt; lists(alloc, &[A, TO_B, NAMES_T, B], NO_OUTER));
    assert!(rt; lists(alloc, &[A, TO_B, NAMES_T, B, T], MODULE));
    assert!(rt; lists(alloc, &[A, TO_B, NAMES_T, NAMES_U, B, T], NO_INNER));
    assert!(rt; lists(alloc, &[A, TO_B, NAMES_T, NAMES_U, B, T, U_IN_T], MODULE));
}

#[test]
fn references_lead_into_the_own_module(rt: HostRuntime) {
    let alloc = rt.alloc();
    const OWN: &str = "TypeRef 4, T, -";
    const OF_OTHER_MODULE: &str = "TypeRef 5, T, -\nModuleRef m";
    const LISTED: &str = "type 02000001 <Module>\ntype 02000002 T\n";
    assert!(rt; lists(alloc, &[A, OWN], NO_OUTER));
    assert!(rt; lists(alloc, &[A, OWN, T], LISTED));
    assert!(rt; lists(alloc, &[A, OWN, NAMES_U, T], NO_INNER));
    assert!(rt; lists(alloc, &[A, OF_OTHER_MODULE], MODULE));
}

#[test]
fn forwarders_are_followed_over_three_assemblies(rt: HostRuntime) {
    let alloc = rt.alloc();
    assert!(rt;
        lists(
            alloc,
            &[A, TO_B, NAMES_T, B, TO_C, FORWARDS_T, C, T],
            MODULE
        )
    );
    assert!(rt; lists(alloc, &[A, TO_B, NAMES_T, B, TO_C, FORWARDS_T, C], NO_OUTER));
    assert!(rt;
        lists(
            alloc,
            &[
                A, TO_B, NAMES_T, B, TO_C, FORWARDS_T, C, TO_D, FORWARDS_T, D, T
            ],
            MODULE
        )
    );
    assert!(rt;
        lists(
            alloc,
            &[
                A, TO_B, NAMES_T, B, TO_C, FORWARDS_T, C, TO_D, FORWARDS_T, D
            ],
            NO_OUTER
        )
    );
    assert!(rt;
        lists(
            alloc,
            &[
                A, TO_B, NAMES_T, NAMES_U, B, TO_C, FORWARDS_T, C, TO_D, FORWARDS_T, D, T, U_IN_T
            ],
            MODULE
        )
    );
    assert!(rt;
        lists(
            alloc,
            &[
                A, TO_B, NAMES_T, NAMES_U, B, TO_C, FORWARDS_T, C, TO_D, FORWARDS_T, D, T
            ],
            NO_INNER
        )
    );
}

#[test]
fn forwarders_lead_to_types_and_into_no_circle(rt: HostRuntime) {
    let alloc = rt.alloc();
    const WITHIN: &str = "ExportedType 0, 0, U, -, 6";
    const OF_FILE: &str = "File 0, m, -\nExportedType 0, 0, T, -, 4";
    const NO_INNER: &str = "refused: N1 assembly 0 table 27 row 2 at 0\n";
    assert!(rt; lists(alloc, &[B, TO_C, FORWARDS_T], MODULE));
    assert!(rt; lists(alloc, &[B, TO_C, FORWARDS_T, C], NO_FORWARD));
    assert!(rt; lists(alloc, &[B, TO_C, FORWARDS_T, C, T], MODULE));
    assert!(rt; lists(alloc, &[B, TO_C, FORWARDS_T, WITHIN, C, T], NO_INNER));
    assert!(rt; lists(alloc, &[B, TO_C, FORWARDS_T, WITHIN, C, T, U_IN_T], MODULE));
    assert!(rt; lists(alloc, &[B, OF_FILE], MODULE));
    assert!(rt;
        lists(
            alloc,
            &[B, TO_C, FORWARDS_T, C, TO_B, FORWARDS_T],
            NO_FORWARD
        )
    );
    assert!(rt; lists(alloc, &[B, TO_B, FORWARDS_T], NO_FORWARD));
    // Of two forwarders of a name the first counts.
    const TWO: &str = "ExportedType 0, 0, T, -, 9";
    assert!(rt;
        lists(
            alloc,
            &[A, TO_B, NAMES_T, B, TO_C, TO_D, FORWARDS_T, TWO, C, T, D],
            "refused: N1 assembly 1 table 27 row 2 at 0\n"
        )
    );
}

#[test]
fn scopes_and_implementations_lead_into_no_circle(rt: HostRuntime) {
    let alloc = rt.alloc();
    const SCOPES: &str = "TypeRef 11, T, -\nTypeRef 7, U, -";
    const ITSELF: &str = "TypeRef 7, T, -";
    const IMPLEMENTATIONS: &str = "ExportedType 0, 0, T, -, 10\nExportedType 0, 0, U, -, 6";
    assert!(rt; lists(alloc, &[A, SCOPES], NO_OUTER));
    assert!(rt; lists(alloc, &[A, ITSELF], NO_OUTER));
    assert!(rt; lists(alloc, &[A, IMPLEMENTATIONS], NO_FORWARD));
}

/// A ContractClass attribute on `<Module>` that names X, and a ContractClassFor attribute.
const CLASS_NAMES_X: &str = "TypeRef 0, ContractClassAttribute, System.Diagnostics.Contracts
MemberRef 9, .ctor, 20 01 01 0E
CustomAttribute 35, 11, 01 00 01 58 00 00";

const CLASS_FOR_NAMES_X: &str = "TypeRef 0, ContractClassForAttribute, System.Diagnostics.Contracts
MemberRef 9, .ctor, 20 01 01 0E
CustomAttribute 35, 11, 01 00 01 58 00 00";

#[test]
fn an_attribute_of_contracts_names_a_type(rt: HostRuntime) {
    let alloc = rt.alloc();
    const X: &str = "TypeDef 0, X, -, 0, 1, 1";
    const MISSING: &str = "refused: N1 assembly 0 table 0C row 1 at 0\n";
    const CONTRACTS: &str = "refused: Z1 assembly 0 table 01 row 1 at 0\n";
    assert!(rt; lists(alloc, &[A, CLASS_NAMES_X], MISSING));
    assert!(rt; lists(alloc, &[A, CLASS_NAMES_X, X], CONTRACTS));
    assert!(rt; lists(alloc, &[A, CLASS_FOR_NAMES_X], MISSING));
    assert!(rt; lists(alloc, &[A, CLASS_FOR_NAMES_X, X], CONTRACTS));
}

#[test]
fn two_assemblies_have_two_names(rt: HostRuntime) {
    let alloc = rt.alloc();
    const SECOND: &str = "refused: N4 assembly 1 table 20 row 1 at 0\n";
    const THIRD: &str = "refused: N4 assembly 2 table 20 row 1 at 0\n";
    assert!(rt; lists(alloc, &[A, A], SECOND));
    assert!(rt; lists(alloc, &[A, B, A], THIRD));
    assert!(rt; lists(alloc, &[A, B, C], MODULE));
}

#[test]
fn two_types_have_two_names(rt: HostRuntime) {
    let alloc = rt.alloc();
    const IN_N: &str = "TypeDef 0, T, N, 0, 1, 1";
    const INNER: &str = "NestedClass 3, 2";
    const OBJECT: &str = "TypeDef 0, Object, System, 0, 1, 1";
    const SECOND: &str = "refused: N4 assembly 0 table 02 row 3 at 0\n";
    const CORE: &str = "refused: N4 assembly 0 table 02 row 2 at 0\n";
    const CORE_OF_SECOND: &str = "refused: N4 assembly 1 table 02 row 2 at 0\n";
    const APART: &str = "type 02000001 <Module>\ntype 02000002 T\ntype 02000003 N.T\n";
    const WITHIN: &str = "type 02000001 <Module>\ntype 02000002 T\ntype 02000003 T/T\n";
    const ALONE: &str = "type 02000001 <Module>\ntype 02000002 T\n";
    assert!(rt; lists(alloc, &[A, T, T], SECOND));
    assert!(rt; lists(alloc, &[A, T, IN_N], APART));
    assert!(rt; lists(alloc, &[A, T, T, INNER], WITHIN));
    assert!(rt; lists(alloc, &[A, OBJECT], CORE));
    assert!(rt; lists(alloc, &[A, B, OBJECT], CORE_OF_SECOND));
    assert!(rt; lists(alloc, &[A, T, B, T], ALONE));
}

const RUNTIME: &str = "TypeDef 0, __ContractsRuntime, -, 0, 1, 1";

#[test]
fn the_runtime_class_is_not_written_twice(rt: HostRuntime) {
    let alloc = rt.alloc();
    const REFUSED: &str = "refused: N5 assembly 0 table 02 row 2 at 0\n";
    const LISTED: &str = "type 02000001 <Module>\ntype 02000002 __ContractsRuntime\n";
    const DONE: &str = "ok: 2 assemblies, 0 methods, 0 clauses\n";
    assert!(rt; rewrites(alloc, &[A, RUNTIME], REFUSED));
    assert!(rt; rewrites(alloc, &[A, B, RUNTIME], DONE));
    assert!(rt; lists(alloc, &[A, RUNTIME], LISTED));
}

const REFERENCE: &str = "TypeRef 0, ContractReferenceAssemblyAttribute, System.Diagnostics.Contracts
MemberRef 9, .ctor, 20 00 01
CustomAttribute 46, 11, 01 00 00 00";

#[test]
fn a_reference_assembly_is_not_rewritten(rt: HostRuntime) {
    let alloc = rt.alloc();
    const REFUSED: &str = "refused: N5 assembly 0 table 20 row 1 at 0\n";
    const OF_SECOND: &str = "refused: Z1 assembly 1 table 01 row 1 at 0\n";
    assert!(rt; rewrites(alloc, &[A, REFERENCE], REFUSED));
    assert!(rt; rewrites(alloc, &[A, B, REFERENCE], OF_SECOND));
    assert!(rt; lists(alloc, &[A, REFERENCE], MODULE));
    assert!(rt; lists(alloc, &[A, B, REFERENCE], OF_SECOND));
}

#[test]
fn one_name_of_the_library_of_core_types_is_free(rt: HostRuntime) {
    let alloc = rt.alloc();
    const RUNTIME: &str = "assembly System.Runtime";
    const STANDARD: &str = "assembly netstandard";
    const PRIVATE: &str = "assembly System.Private.CoreLib";
    const REFUSED: &str = "refused: N5 assembly 0 table 20 row 1 at 0\n";
    const DONE: &str = "ok: 4 assemblies, 0 methods, 0 clauses\n";
    assert!(rt;
        rewrites(
            alloc,
            &["assembly mscorlib", RUNTIME, STANDARD, PRIVATE],
            REFUSED
        )
    );
    assert!(rt; rewrites(alloc, &[A, RUNTIME, STANDARD, PRIVATE], DONE));
    assert!(rt;
        lists(
            alloc,
            &["assembly mscorlib", RUNTIME, STANDARD, PRIVATE],
            MODULE
        )
    );
}
