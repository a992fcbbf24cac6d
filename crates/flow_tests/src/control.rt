// Regions, and what goes over their edges.
ghost use Rattle.std.specs.Prelude.{◌<◌, ◌^◌, length};

use crate::bodies::{body_with, body_with_kind, here, nested_rows};
use cil_base::Rule;
use cil_model::{Body, RegionKind};
use region_tree::control_fault;
use std::alloc::Global;

fn told(alloc: Global, body: &Body) -> Option<(Rule, u32)>
    requires { length body.now.instrs < 2 ^ 32 }
{
    match control_fault(alloc, body, here()) {
        Ok(Some(refusal)) => Some((refusal.rule, refusal.at)),
        Ok(None) => None,
        Err(_) => Some((Rule::L6, 0)),
    }
}

fn fault_in(alloc: Global, code: &[u8], finally: bool, rows: &[[u32; 4]]) -> Option<(Rule, u32)> {
    match body_with(alloc, code, finally, rows) {
        Some(body) => told(alloc, &body),
        None => Some((Rule::L1, 0)),
    }
}

fn is_told(told: Option<(Rule, u32)>, rule: Rule, at: u32) -> bool {
    matches!(told, Some((r, k)) if r == rule && k == at)
}

/// Twenty nops and a ret, with catches.
const PLAIN: [u8; 21] = [
    0, 0, 0, 0, 0, 0, 0, 0, 0, 0, 0, 0, 0, 0, 0, 0, 0, 0, 0, 0, 0x2A,
];

fn lie_badly(alloc: Global, rows: &[[u32; 4]], at: u32) -> bool {
    is_told(fault_in(alloc, &PLAIN, false, rows), Rule::X2, at)
}

/// Code falls out of the first try of these, and nothing comes before that.
fn lie_well(alloc: Global, rows: &[[u32; 4]], at: u32) -> bool {
    is_told(fault_in(alloc, &PLAIN, false, rows), Rule::X3, at)
}

#[test]
fn regions_lie_in_one_another_or_apart(rt: HostRuntime) {
    let alloc = rt.alloc();
    let outer_before_inner = lie_badly(alloc, &[[0, 10, 10, 20], [2, 6, 6, 9]], 2);
    let crossing = lie_badly(alloc, &[[0, 4, 4, 6], [1, 6, 6, 8]], 1);
    let behind_a_gap = lie_badly(alloc, &[[1, 4, 5, 8]], 1);
    let second_handler_behind_a_gap = lie_badly(alloc, &[[1, 4, 4, 6], [1, 4, 7, 8]], 1);
    let handlers_that_meet = lie_badly(alloc, &[[1, 4, 4, 6], [1, 4, 4, 7]], 1);
    let all = outer_before_inner
        && crossing
        && behind_a_gap
        && second_handler_behind_a_gap
        && handlers_that_meet;
    assert!(rt; all);
}

/// A try without code, a handler without code, and a second handler without code.
#[test]
fn trys_and_handlers_have_instructions(rt: HostRuntime) {
    let alloc = rt.alloc();
    let empty_try = lie_badly(alloc, &[[0, 0, 0, 2]], 0);
    let empty_handler = lie_badly(alloc, &[[2, 5, 5, 5]], 2);
    let second_handler = lie_badly(alloc, &[[1, 3, 3, 5], [1, 3, 5, 5]], 1);
    assert!(rt; empty_try && empty_handler && second_handler);
}

#[test]
fn nested_and_separate_regions_are_accepted(rt: HostRuntime) {
    let alloc = rt.alloc();
    let in_a_try = lie_well(alloc, &[[2, 3, 3, 5], [0, 6, 6, 10]], 2);
    let in_a_handler = lie_well(alloc, &[[6, 7, 7, 8], [0, 5, 5, 10]], 4);
    let two_handlers = lie_well(alloc, &[[1, 4, 4, 6], [1, 4, 6, 8]], 3);
    let apart = lie_well(alloc, &[[1, 3, 3, 4], [5, 7, 7, 9]], 2);
    assert!(rt; in_a_try && in_a_handler && two_handlers && apart);
}

fn filter_told(alloc: Global) -> Option<(Rule, u32)> {
    match body_with_kind(
        alloc,
        &[0, 0, 0xDE, 5, 0x26, 0x16, 0x26, 0xDE, 0, 0x2A],
        RegionKind::Filter(3),
        [1, 3, 4, 7],
    ) {
        Some(body) => told(alloc, &body),
        None => Some((Rule::L1, 0)),
    }
}

#[test]
fn a_filter_is_refused_first(rt: HostRuntime) {
    assert!(rt; is_told(filter_told(rt.alloc()), Rule::X1, 1));
}

fn nested_told(alloc: Global, count: u32) -> Option<(Rule, u32)>
    requires { count < 2000 }
{
    match nested_rows(alloc, count) {
        Ok(rows) => fault_in(alloc, &PLAIN, false, &rows),
        Err(_) => Some((Rule::L1, 0)),
    }
}

#[test]
fn regions_nest_a_thousand_deep(rt: HostRuntime) {
    let alloc = rt.alloc();
    let at_most = nested_told(alloc, 1000);
    let too_deep = nested_told(alloc, 1001);
    assert!(rt; is_told(at_most, Rule::X3, 0) && is_told(too_deep, Rule::X2, 0));
}

#[test]
fn ret_and_branches_stay_in_their_part(rt: HostRuntime) {
    let alloc = rt.alloc();
    let ret_in_a_try = fault_in(
        alloc,
        &[0, 0x2A, 0x26, 0xDE, 0, 0x2A],
        false,
        &[[0, 2, 2, 4]],
    );
    let ret_in_a_handler = fault_in(alloc, &[0xDE, 2, 0x26, 0x2A, 0x2A], false, &[[0, 1, 1, 3]]);
    let branch_out = fault_in(
        alloc,
        &[0x2B, 3, 0x26, 0xDE, 0, 0x2A],
        false,
        &[[0, 1, 1, 3]],
    );
    let fall_out = fault_in(alloc, &[0, 0, 0x26, 0xDE, 0, 0x2A], false, &[[0, 2, 2, 4]]);
    let fall_into_a_handler = fault_in(
        alloc,
        &[0xDE, 4, 0x26, 0x26, 0xDE, 0, 0x2A],
        false,
        &[[0, 1, 1, 2], [0, 1, 2, 4]],
    );
    assert!(rt; is_told(ret_in_a_try, Rule::X3, 1) && is_told(ret_in_a_handler, Rule::X3, 3));
    assert!(rt; is_told(branch_out, Rule::X3, 0) && is_told(fall_out, Rule::X3, 1));
    assert!(rt; is_told(fall_into_a_handler, Rule::X3, 2));
}

#[test]
fn handlers_are_left_by_leave_alone(rt: HostRuntime) {
    let alloc = rt.alloc();
    let rows = [[0, 1, 1, 3]];
    let branch_out = fault_in(alloc, &[0xDE, 3, 0x26, 0x2B, 0, 0x2A], false, &rows);
    let fall_out = fault_in(alloc, &[0xDE, 2, 0x26, 0, 0x2A], false, &rows);
    let leave = fault_in(alloc, &[0xDE, 3, 0x26, 0xDE, 0, 0x2A], false, &rows);
    assert!(rt; is_told(branch_out, Rule::X3, 3) && is_told(fall_out, Rule::X3, 3));
    assert!(rt; leave.is_none());
}

/// A try with a switch whose one case goes so far, before a catch and a ret.
fn switch_told(alloc: Global, distance: u8) -> Option<(Rule, u32)> {
    let code = [
        0x16, 0x45, 1, 0, 0, 0, distance, 0, 0, 0, 0xDE, 3, 0x26, 0xDE, 0, 0x2A,
    ];
    fault_in(alloc, &code, false, &[[0, 3, 3, 5]])
}

#[test]
fn each_case_of_a_switch_stays_in_its_part(rt: HostRuntime) {
    let alloc = rt.alloc();
    let stays = switch_told(alloc, 0);
    let into_the_handler = switch_told(alloc, 2);
    let out = switch_told(alloc, 5);
    assert!(rt; stays.is_none());
    assert!(rt; is_told(into_the_handler, Rule::X3, 1) && is_told(out, Rule::X3, 1));
}

#[test]
fn parts_are_entered_at_a_try_alone(rt: HostRuntime) {
    let alloc = rt.alloc();
    let rows = [[1, 3, 3, 5]];
    let into_a_handler = fault_in(
        alloc,
        &[0x2B, 3, 0, 0xDE, 3, 0x26, 0xDE, 0, 0x2A],
        false,
        &rows,
    );
    let into_the_middle = fault_in(
        alloc,
        &[0x2B, 1, 0, 0xDE, 3, 0x26, 0xDE, 0, 0x2A],
        false,
        &rows,
    );
    let to_the_beginning = fault_in(
        alloc,
        &[0x2B, 0, 0, 0xDE, 3, 0x26, 0xDE, 0, 0x2A],
        false,
        &rows,
    );
    let leave_into_a_handler = fault_in(
        alloc,
        &[0xDE, 0, 0x26, 0xDE, 0, 0x2A],
        false,
        &[[0, 1, 1, 3]],
    );
    assert!(rt; is_told(into_a_handler, Rule::X3, 0) && is_told(into_the_middle, Rule::X3, 0));
    assert!(rt; to_the_beginning.is_none() && is_told(leave_into_a_handler, Rule::X3, 0));
}

#[test]
fn code_falls_into_no_handler(rt: HostRuntime) {
    let alloc = rt.alloc();
    let rows = [[0, 1, 1, 2], [0, 1, 2, 4]];
    let from_the_first_handler = fault_in(
        alloc,
        &[0xDE, 4, 0x26, 0x26, 0xDE, 0, 0x2A],
        false,
        &rows,
    );
    let leave_into_it = fault_in(
        alloc,
        &[0xDE, 5, 0xDE, 0, 0x26, 0xDE, 0, 0x2A],
        false,
        &rows,
    );
    assert!(rt;
        is_told(from_the_first_handler, Rule::X3, 2) && is_told(leave_into_it, Rule::X3, 2)
    );
}

#[test]
fn a_leave_may_go_into_its_own_try(rt: HostRuntime) {
    let alloc = rt.alloc();
    let within = fault_in(
        alloc,
        &[0, 0, 0xDE, 0xFD, 0x26, 0xDE, 0, 0x2A],
        false,
        &[[0, 3, 3, 5]],
    );
    let from_its_handler = fault_in(
        alloc,
        &[0, 0, 0xDE, 3, 0x26, 0xDE, 0xF9, 0x2A],
        false,
        &[[0, 3, 3, 5]],
    );
    let to_its_middle = fault_in(
        alloc,
        &[0, 0, 0xDE, 3, 0x26, 0xDE, 0xFA, 0x2A],
        false,
        &[[0, 3, 3, 5]],
    );
    let all = within.is_none() && from_its_handler.is_none() && is_told(to_its_middle, Rule::X3, 5);
    assert!(rt; all);
}

#[test]
fn ends_of_blocks_stand_in_their_blocks(rt: HostRuntime) {
    let alloc = rt.alloc();
    let leave_outside = fault_in(alloc, &[0, 0xDE, 0, 0x2A], false, &[]);
    let end_outside = fault_in(alloc, &[0, 0xDC], false, &[]);
    let rethrow_outside = fault_in(alloc, &[0, 0xFE, 0x1A], false, &[]);
    let leave_in_a_finally = fault_in(alloc, &[0xDE, 2, 0xDE, 0, 0x2A], true, &[[0, 1, 1, 2]]);
    let end_in_a_finally = fault_in(alloc, &[0xDE, 1, 0xDC, 0x2A], true, &[[0, 1, 1, 2]]);
    let end_in_a_catch = fault_in(alloc, &[0xDE, 1, 0xDC, 0x2A], false, &[[0, 1, 1, 2]]);
    assert!(rt; is_told(leave_outside, Rule::X4, 1) && is_told(end_outside, Rule::X4, 1));
    assert!(rt; is_told(rethrow_outside, Rule::X4, 1) && is_told(leave_in_a_finally, Rule::X4, 2));
    assert!(rt; end_in_a_finally.is_none() && is_told(end_in_a_catch, Rule::X4, 2));
}

#[test]
fn only_a_catch_throws_again(rt: HostRuntime) {
    let alloc = rt.alloc();
    let rows = [[0, 1, 1, 2]];
    let in_a_catch = fault_in(alloc, &[0xDE, 2, 0xFE, 0x1A, 0x2A], false, &rows);
    let in_a_finally = fault_in(alloc, &[0xDE, 2, 0xFE, 0x1A, 0x2A], true, &rows);
    assert!(rt; in_a_catch.is_none() && is_told(in_a_finally, Rule::X4, 2));
}
