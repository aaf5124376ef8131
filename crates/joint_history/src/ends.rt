// What is left of a run of which no entry is read.

use joint_model::PastHistory;

/// How many were made in all, and how many of them are left.
#[derive(Clone, Copy, PartialEq, Eq, Debug)]
pub struct Totals {
    pub all: u32,
    pub left: u32,
}

/// A finished run: its history, which is there for proofs alone, and the numbers of its last state: how many cycles
/// were opened, how many objects of both heaps and how many handles were made, and how many of them aren't freed, or
/// are in the table.
#[derive(Drop)]
pub struct RunEnd {
    pub history: PastHistory,
    pub cycles: u32,
    pub managed: Totals,
    pub peers: Totals,
    pub handles: Totals,
}
