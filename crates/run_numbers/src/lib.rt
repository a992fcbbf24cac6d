//! What instructions compute of values: numbers, conversions and comparisons.
#![tactic(auto)]

mod answer;
mod arithmetic;
mod conversions;
mod operands;
mod references;
mod small;
mod wide;

pub use answer::{Answer, Exception};
pub use arithmetic::{binary, convert, convert_checked, shift, unary};
pub use conversions::{converted, is_kept, truncated_to, truncated_to_64};
pub use operands::{count_of, flag_of, index_of, number_in, number_read, pair_of, truth_of};
pub use references::{are_same_references, compare_values, is_same_place};
pub use small::{compared_32, computed_32, shifted_32, unary_32};
pub use wide::{compared_64, computed_64, shifted_64, unary_64};
