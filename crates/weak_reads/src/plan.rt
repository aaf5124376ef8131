// What is run, and what its threads share.

use crate::figures::Figures;
use std::alloc::Global;
use std::sync::Mutex;
use std::sync::atomic::{AtomicU64, Ordering};

/// How the threads read.
#[derive(Clone, Copy, PartialEq, Eq)]
pub(crate) enum Way {
    /// They don't: each adds to one plain atomic word.
    Word,
    /// `read_now` of a cell whose object is gone: no lock, and `Pending` while a cycle is open.
    Now,
    /// `read_now` by a thread whose pin is filled, which asks nobody else.
    Pinned,
    /// `read_wait` of the cell whose object is gone: no lock, and a wait for the end of a cycle.
    Wait,
    /// `managed`: the same read under the managed lock, and `Pending` while a cycle is open.
    Locked,
}

/// How the threads read, how many of them do, how many objects stay on the managed heap meanwhile, and how many
/// nanoseconds it takes.
#[derive(Clone, Copy)]
pub(crate) struct Setup {
    pub(crate) way: Way,
    pub(crate) readers: u8,
    pub(crate) objects: u32,
    pub(crate) nanos: u64,
}

/// What the threads of a race share beside the bridge.
#[derive(Drop)]
pub(crate) struct Race {
    pub(crate) way: Way,
    pub(crate) readers: u8,
    /// Until when reads are made with no clock between them, and until when one by one.
    pub(crate) half: u64,
    pub(crate) end: u64,
    pub(crate) word: AtomicU64,
    pub(crate) figures: Mutex<Figures>,
    // How many threads are under way beside the driver.
    under_way: AtomicU64,
}

impl Race {
    /// A race that begins at a time, of so many threads beside the driver.
    pub(crate) fn new(alloc: Global, setup: &Setup, start: u64, threads: u8) -> Race {
        Race {
            way: setup.way,
            readers: setup.readers,
            half: start.saturating_add(setup.nanos / 2),
            end: start.saturating_add(setup.nanos),
            word: AtomicU64::new(0),
            figures: Mutex::new(Figures::new(alloc)),
            under_way: AtomicU64::new(u64::from(threads)),
        }
    }

    /// A thread beside the driver has ended.
    pub(crate) fn one_has_ended(&self) {
        self.under_way.fetch_sub(1, Ordering::SeqCst);
    }

    /// Whether all of them have.
    pub(crate) fn others_have_ended(&self) -> bool {
        self.under_way.load(Ordering::SeqCst) == 0
    }

    /// What its readers did.
    pub(crate) fn into_figures(self) -> Figures {
        let Race { figures, .. } = self;
        figures.into_inner()
    }
}
