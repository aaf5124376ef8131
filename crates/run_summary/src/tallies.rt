// What a run made, and what is left of it.

/// So many managed objects, peers and handles.
#[derive(Clone, Copy, PartialEq, Eq, Debug)]
pub struct Objects {
    pub managed: u64,
    pub peers: u64,
    pub handles: u64,
}

/// How many cycles entries opened, what they made, and what is left of that.
#[derive(Clone, Copy, PartialEq, Eq, Debug)]
pub struct Tally {
    pub cycles: u64,
    pub made: Objects,
    pub left: Objects,
}
