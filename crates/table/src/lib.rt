// Group tables: their records, and the calls that read, check and write them.
// Firms take this crate with `number` beneath it; what lies above rests on its contracts, its definitions and the laws about them that
// its proofs publish.

#![tactic(auto)]

pub mod check;
pub mod parts;
pub mod read;
pub mod write;

// An access of a group: how many accesses of the other kind come before it in the group, and its port.
#[repr(C)]
#[derive(Clone, Copy, Debug, PartialEq, Eq)]
pub struct Pair {
    pub offset: u8,
    pub port: u8,
}

// Where the accesses of one kind in a group stand, in program order: `count` of them, from the place `first` on. A place and a count,
// and no slice: a table that C lends has no pointer in it.
#[repr(C)]
#[derive(Clone, Copy, Debug, PartialEq, Eq)]
pub struct Span {
    pub first: u8,
    pub count: u8,
}

// A group: where its loads and its stores stand in a table.
#[repr(C)]
#[derive(Clone, Copy, Debug, PartialEq, Eq)]
pub struct Group {
    pub loads: Span,
    pub stores: Span,
}

// A group table: its groups, and the accesses of all groups, loads and stores apart. Each group and each access is packed into
// a number (`parts`), and counts stand beside arrays: C lends this very record (bindings/c/lsq.h). A port stands once in a table, so
// 32 places of each kind are enough. Places beyond the count, or that no group has, mean nothing.
#[repr(C)]
#[derive(Clone, Copy, Debug, PartialEq, Eq)]
pub struct Table {
    pub count: u8,
    pub groups: [u32; 16],
    pub loads: [u16; 32],
    pub stores: [u16; 32],
}
