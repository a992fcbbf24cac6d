//! What instructions on constants, places of the frame, numbers and branches want done.
#![tactic(auto)]

mod branches;
mod constants;
mod numbers;
mod places;
mod stack;
mod wanted;

pub use branches::{branch, branch_where, compare_and_branch, leave, switch, throw};
pub use constants::{duplicate, load_int, load_long, load_null, load_text, pop};
pub use numbers::{
    compare, compute, compute_shift, compute_unary, convert_top, convert_top_checked,
};
pub use places::{
    load_argument, load_local, point_to_argument, point_to_local, store_argument, store_local,
};
pub use stack::{Two, finish, pop_two, push, push_some};
pub use wanted::{Call, Wanted};
