//! Sets of assemblies that are given as text, row by row, and what commands answer to them.
//!
//! A line `assembly NAME` begins an assembly; its rows of Module and Assembly and its class `<Module>` come of themselves, and
//! `assembly NAME, F, M` names the Field and the MethodDef row at which the members of `<Module>` begin. Each further line is a row: the name of its table and
//! its cells with a comma and a space between them. A cell is a text or the bytes of a blob as its column holds (ECMA-335, II.22), `-` where it is
//! empty; else a number, or behind `:` the bytes of a method's body, whose RVA the cell is. Numbers are decimal, or hexadecimal behind `0x`; bytes are
//! hexadecimal with spaces between them, and `1D*600` is so many of one.
#![tactic(auto)]

mod cells;
mod commands;
mod programs;
mod samples;

pub use commands::{lists, rewrites};
pub use programs::{body_is, is_sub, is_visible_method, sources_are};
