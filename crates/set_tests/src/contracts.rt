// Own contracts: which clauses `list` prints, which rule a block breaks, and what isn't read yet.

use crate::types::{A, B, MODULE, T};
use sample_sets::lists;

/// `Requires`, `Assert` and `OldValue` of an outside class `Contract`, and `OldValue` of int32.
const CONTRACT: &str = "TypeRef 0, Contract, System.Diagnostics.Contracts
MemberRef 9, Requires, 00 01 01 02
MemberRef 9, Assert, 00 01 01 02
MemberRef 9, OldValue, 10 01 01 1E 00 1E 00
MethodSpec 7, 0A 01 08";

/// `Requires` of x above 0, `Assert` of x above 1.
const ASKS: &str =
    "MethodDef :4E 02 16 FE 02 28 01 00 00 0A 02 17 FE 02 28 02 00 00 0A 2A, 0, 0x16, M, 00 01 01 08, 1";

/// `Requires` of x above 0, and `x + 1` is returned.
const INC: &str =
    "MethodDef :36 02 16 FE 02 28 01 00 00 0A 02 17 58 2A, 0, 0x16, Inc, 00 01 08 08, 1";

const INC_LISTED: &str = "type 02000001 <Module>
type 02000002 T
method 06000001 Inc
clause T::Inc/requires/0
";

const ASKS_LISTED: &str = "type 02000001 <Module>
type 02000002 T
method 06000001 M
clause T::M/requires/0
clause T::M/assert/0
";

/// `OldValue` behind the block.
const OLD_BEHIND: &str =
    "MethodDef :3A 02 28 01 00 00 0A 17 28 01 00 00 2B 26 2A, 0, 0x16, M, 00 01 01 02, 1";

const OLD_OUTSIDE: &str = "refused: C3 assembly 0 table 06 row 1 at 7\n";

/// An attribute without use.
const ABBREVIATOR: &str = "TypeRef 0, ContractAbbreviatorAttribute, System.Diagnostics.Contracts";

#[test]
fn clauses_and_asserts_stand_behind_their_method(rt: HostRuntime) {
    let alloc = rt.alloc();
    const N: &str =
        "MethodDef :4E 02 16 FE 02 28 01 00 00 0A 02 17 FE 02 28 01 00 00 0A 2A, 0, 0x16, N, 00 01 01 08, 1";
    const TWICE: &str = "type 02000001 <Module>
type 02000002 T
method 06000001 M
clause T::M/requires/0
clause T::M/assert/0
method 06000002 N
clause T::N/requires/0
clause T::N/requires/1
";
    assert!(rt; lists(alloc, &[A, CONTRACT], MODULE));
    assert!(rt; lists(alloc, &[A, CONTRACT, T, INC], INC_LISTED));
    assert!(rt; lists(alloc, &[A, CONTRACT, T, ASKS], ASKS_LISTED));
    assert!(rt; lists(alloc, &[A, CONTRACT, T, ASKS, N], TWICE));
    assert!(rt; lists(alloc, &[A, CONTRACT, T, ASKS, B], ASKS_LISTED));
}

#[test]
fn an_old_value_stands_in_a_postcondition(rt: HostRuntime) {
    let alloc = rt.alloc();
    assert!(rt; lists(alloc, &[A, CONTRACT, T, OLD_BEHIND], OLD_OUTSIDE));
    // Blocks come before what isn't read.
    assert!(rt;
        lists(
            alloc,
            &[A, CONTRACT, ABBREVIATOR, T, OLD_BEHIND],
            OLD_OUTSIDE
        )
    );
    assert!(rt;
        lists(
            alloc,
            &[A, CONTRACT, T, OLD_BEHIND, B, CONTRACT],
            OLD_OUTSIDE
        )
    );
}

#[test]
fn contracts_of_other_sources_are_not_read(rt: HostRuntime) {
    let alloc = rt.alloc();
    const OF_SECOND: &str = "refused: Z1 assembly 1 table 01 row 1 at 0\n";
    const ATTRIBUTE: &str = "refused: Z1 assembly 0 table 01 row 2 at 0\n";
    assert!(rt; lists(alloc, &[A, B, CONTRACT], OF_SECOND));
    assert!(rt; lists(alloc, &[A, CONTRACT, ABBREVIATOR], ATTRIBUTE));
    assert!(rt; lists(alloc, &[A, CONTRACT, ABBREVIATOR, B, CONTRACT], OF_SECOND));
}

#[test]
fn an_override_of_a_method_with_clauses_is_not_read(rt: HostRuntime) {
    let alloc = rt.alloc();
    const U: &str = "TypeDef 0, U, -, 8, 1, 2";
    const BASE: &str = "MethodDef :2A 03 16 FE 02 28 01 00 00 0A 2A, 0, 0x146, M, 20 01 01 08, 1";
    const OVERRIDE: &str = "MethodDef :06 2A, 0, 0x46, M, 20 01 01 08, 1";
    const HIDES: &str = "MethodDef :06 2A, 0, 0x146, M, 20 01 01 08, 1";
    const REFUSED: &str = "refused: Z1 assembly 0 table 06 row 2 at 0\n";
    const LISTED: &str = "type 02000001 <Module>
type 02000002 T
method 06000001 M
clause T::M/requires/0
type 02000003 U
method 06000002 M
";
    assert!(rt; lists(alloc, &[A, CONTRACT, T, U, BASE, OVERRIDE], REFUSED));
    assert!(rt; lists(alloc, &[A, CONTRACT, T, U, BASE, HIDES], LISTED));
}
