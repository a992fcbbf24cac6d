//! Runs of small programs, computed from the definitions of the machine.
#![tactic(auto)]

mod edge_rows;
mod more_rows;
mod rows;
mod spliced_rows;

pub use edge_rows::{
    base_method_implements, boxes, contract_calls, delegates_over_structs, every_type_is_an_object,
    failures_at_the_edges, labels_of_asserts, stack_of_the_lead_in, stores_of_structs,
    value_at_return_of_its_type,
};
pub use more_rows::{
    failure_without_throwing, handlers_of_the_rest, initializers, invariant_under_a_nested_call,
    reply_that_doesnt_fit, requires_of_an_own_exception, statics_of_closed_types, value_at_return,
};
pub use rows::{
    assert_at_each_level, captured_values, lead_in_at_each_level, plain_runs,
    recursion_under_guard, requires_with_each_reply, several_exits, throw_group,
};
pub use spliced_rows::{spliced_assert, spliced_condition, spliced_ensures, spliced_requires};
