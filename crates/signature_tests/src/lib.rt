//! Tests of signatures, of the blobs of attributes, and of the texts of runs.
#![tactic(auto)]

#[cfg(test)]
mod printing;
#[cfg(test)]
mod reading;
#[cfg(test)]
mod refusing;
#[cfg(test)]
mod texts;
