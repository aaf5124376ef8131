// The names that scripts, heaps and histories share: numbers of objects, handles, cycles and markings,
// and the small words of a script line.

/// The number of an object of the managed heap. Numbers start at 1 and are never used again.
#[derive(Clone, Copy, PartialEq, Eq, PartialOrd, Ord, Hash, Debug)]
pub struct MNum(pub u32);

/// The number of an object of the peer heap. Numbers start at 1 and are never used again.
#[derive(Clone, Copy, PartialEq, Eq, PartialOrd, Ord, Hash, Debug)]
pub struct PNum(pub u32);

/// The number of a handle. Numbers start at 1 and are never used again.
#[derive(Clone, Copy, PartialEq, Eq, PartialOrd, Ord, Hash, Debug)]
pub struct HNum(pub u32);

/// The number of a bridge cycle, from 1.
#[derive(Clone, Copy, PartialEq, Eq, Debug)]
pub struct Cycle(pub u32);

/// The number of a marking of the peer heap, from 1.
#[derive(Clone, Copy, PartialEq, Eq, Debug)]
pub struct Marking(pub u32);

/// A variable of a thread: `a` to `h` are 0 to 7.
#[derive(Clone, Copy, PartialEq, Eq, Debug)]
pub struct Var(pub u8);

/// A static of a heap, 0 to 15.
#[derive(Clone, Copy, PartialEq, Eq, Debug)]
pub struct StaticNo(pub u8);

/// A global name of the peer heap, 0 to 63.
#[derive(Clone, Copy, PartialEq, Eq, Debug)]
pub struct GName(pub u8);

/// A weak cell of the managed heap, 0 to 63.
#[derive(Clone, Copy, PartialEq, Eq, Debug)]
pub struct Cell(pub u8);

/// A stretch of a list that a side keeps: `count` numbers from place `first` on.
///
/// In the reply of a snap or a resolve it lies in the list of freed managed numbers, in that of a sweep
/// in the list of freed peer numbers, and in that of a `finalise` in the list of notices.
#[derive(Clone, Copy, PartialEq, Eq, Debug)]
pub struct Span {
    pub first: u32,
    pub count: u32,
}

/// A thread of a script: the managed threads `m1` to `m8`, the peer threads `p1` to `p8`, and `c`, the
/// driver of the bridge.
#[derive(Clone, Copy, PartialEq, Eq, Debug)]
pub enum Thread {
    M(u8),
    P(u8),
    C,
}

/// The kind of a managed object's class, as in the bridge's client interface.
///
/// `Plain` is transparent, `Leaf` opaque, `Bridge` a transparent bridge class and `LeafBridge` an opaque
/// one. Objects of the opaque kinds have no fields.
#[derive(Clone, Copy, PartialEq, Eq, Debug)]
pub enum Kind {
    Plain,
    Leaf,
    Bridge,
    LeafBridge,
}

/// The sort of a peer object's class: a user's own, or one of the framework.
#[derive(Clone, Copy, PartialEq, Eq, Debug)]
pub enum Sort {
    User,
    Framework,
}

/// Where the driver stands in its cycle: the last phase that it has done, or `Idle` between two cycles.
#[derive(Clone, Copy, PartialEq, Eq, Debug)]
pub enum Phase {
    Idle,
    Snapped,
    Contracted,
    Mirrored,
    Weakened,
    Marked,
    Swept,
    Restored,
}

/// The word of a line of thread `c` that asks for one phase, or for all eight.
#[derive(Clone, Copy, PartialEq, Eq, Debug)]
pub enum PhaseWord {
    Cycle,
    Snap,
    Contract,
    Mirror,
    Weaken,
    Mark,
    Sweep,
    Restore,
    Resolve,
}

/// The places for the variables of a heap: a thread's eight stand at eight times its number, so that the first eight
/// are nobody's.
pub const VARS: usize = 72;

/// The statics of a heap.
pub const STATICS: usize = 16;

/// The weak cells of the managed heap.
pub const CELLS: usize = 64;

/// The places for pins: a managed thread's stands at its number, so that the first is nobody's.
pub const PINS: usize = 9;

/// The global names of the peer heap.
pub const NAMES: usize = 64;
