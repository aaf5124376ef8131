// What a seat knows of the history.

use joint_machine::{Entry, MNum};

/// In whose list an entry stands. Readers are numbered from 1 to 8.
#[derive(Clone, Copy, PartialEq, Eq, Debug)]
pub enum Role {
    Managed,
    Peer,
    Reader(u8),
}

/// An entry with what is kept beside it. No value of it is made.
pub struct KeptEntry {
    pub entry: Entry,
    /// The object to which the entry sets a cell, as it was told to `append`.
    pub target: Option<MNum>,
    /// The objects that it frees, as they were told. A clause reads an array as a list, of any length.
    pub freed: [MNum; 0],
    /// With a snapshot the words of the pins by reader, with a `take` that of its caller's pin at its place.
    pub pins: [u64; 0],
}

/// What a seat knows. No value of it is made.
///
/// The first five fields are the lines; the others are what a seat has to know about the gate, the cells and the pins.
pub struct View {
    /// Which lines it owns.
    pub owns: [bool; 0],
    /// What it knows of each line.
    pub known: [[KeptEntry; 0]; 0],
    /// What a seat that it took in knew, owned and held, until it has compared the two.
    pub heard: [[KeptEntry; 0]; 0],
    pub heard_owns: [bool; 0],
    pub heard_holds: u64,
    /// 0, or the bit with which it is inside.
    pub inside: u64,
    /// 0, or the bit that it still has to give back.
    pub owes: u64,
    /// 0, or the cycle for which its last try to enter found the gate held, since its last entry.
    pub found: u64,
    /// 0, or the cycle for which it holds the gate.
    pub holds: u64,
    /// The cells that it loaded, with the words found, since it went inside and since its last entry, while it owed
    /// nothing.
    pub loads: [(u64, u64); 0],
    /// The cells whose words it still has to store.
    pub debts: [bool; 0],
    /// 0, or the reader whose pin it has still to fill.
    pub fill: u64,
    /// 0, or the reader whose pin it has still to clear.
    pub empty: u64,
    /// The words of the pins by reader that it loaded since it closed the gate and since its last entry, while it owed
    /// nothing.
    pub scanned: [Option<u64>; 0],
}
