//! Tests of images that are read and grown, and of assemblies that are made. No clause says what they try.
#![tactic(auto)]

#[cfg(test)]
mod assemblies;
#[cfg(test)]
mod growing;
#[cfg(test)]
mod reading;
#[cfg(test)]
mod samples;
