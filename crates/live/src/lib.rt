// Functions for C and Rust to link: a queue live, call by call, the shift record and its page, a group's order from pairs, and
// tables, events and numbers as bytes. A name is the whole program's, as in C, so each begins with `lsq_`. Replays are in the
// crate `exports`: in a library of its own each of the queue's calls has one caller, and is compiled into it.

#![tactic(auto)]

pub mod bytes;
pub mod calls;
pub mod order;
pub mod page;
