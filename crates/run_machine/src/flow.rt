// Whether a run goes on.

use cil_model::Outcome;

/// Whether a run goes on, or how it ended.
#[derive(Drop)]
pub enum Flow {
    Running,
    Ended(Outcome),
}
