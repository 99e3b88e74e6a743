// The shift page of a trace: the record of what a replay took, and the text that the program `page` prints.

#![tactic(auto)]

pub mod recording;
pub mod text;
