// The printed run: the text that `play` prints of a table and a trace.

#![tactic(auto)]

pub mod files;
pub mod lines;
pub mod put;
pub mod text;
