// The shift page: a record of what was taken at each load port, and the page that is printed from it.

#![tactic(auto)]

pub mod page;
pub mod recording;

// For each load port 0 to 31, how many takes were accepted, and the last value taken. (`repr(C)`, and two arrays: C hands this very
// record in, bindings/c/lsq.h.)
#[repr(C)]
#[derive(Clone, Copy, PartialEq, Eq)]
pub struct ShiftRecord {
    pub takes: [u32; 32],
    pub values: [u32; 32],
}
