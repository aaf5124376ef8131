// The last mark of each thread.

ghost use Rattle.std.specs.Prelude.{◌≡◌, None, OnOk, slice_get};
ghost use Rattle.android_lives.specs.Threads.{closed, none_threaded, place_of, with_closed, with_mark, with_mark_at};

use android_log::Kind;
use std::alloc::{AllocError, Global};
use std::collections::BTreeMap;
use std::marker::Model;

/// A mark behind which lines may tell its place: its kind; the place of its life, and whether it made it; whether
/// frames may follow, and whether a note may; whether a line told a place of the bridge; and the line of the mark.
#[derive(Clone, Copy, PartialEq, Eq, Debug)]
pub struct Pending {
    pub kind: Kind,
    pub life: usize,
    pub new: bool,
    pub takes_frames: bool,
    pub takes_note: bool,
    pub told: bool,
    pub line: u64,
}

impl Pending {
    /// The same where no line tells its place from now on.
    fn closed(self) -> Pending
        ensures { result ≡ closed self }
    {
        let mut mark = self;
        mark.takes_frames = false;
        mark.takes_note = false;
        mark
    }
}

/// The last mark of each thread. Clauses see them as `Threaded` of `specs/Threads.antt`.
#[derive(Drop)]
pub struct Threads {
    places: BTreeMap<u64, usize>,
    marks: Vec<Pending>,
}

impl Model for Threads {
    ghost use Rattle.android_lives.specs.Threads.{Threaded};

    ghost Value = { Threaded };

    ghost view = { λ t. record { places = t.places.entries; marks = t.marks.items } };
}

impl Threads {
    /// No thread has a mark.
    pub(crate) fn new(alloc: Global) -> Threads
        ensures { result ≡ none_threaded }
    {
        Threads {
            places: BTreeMap::new(alloc),
            marks: Vec::new(alloc),
        }
    }

    /// Where a thread's last mark is kept.
    pub(crate) fn place(&self, thread: u64) -> Option<usize>
        ensures { result ≡ place_of self.now thread }
    {
        self.places.get(&thread).copied()
    }

    /// The mark that is kept there.
    pub(crate) fn at(&self, i: usize) -> Option<Pending>
        ensures { result ≡ slice_get self.now.marks i }
    {
        self.marks.get(i).copied()
    }

    /// A mark in the place of the one that is kept there.
    pub(crate) fn put_at(&mut self, i: usize, mark: Pending)
        ensures { self.new ≡ with_mark_at self.old i mark }
    {
        if i < self.marks.len() {
            self.marks[i] = mark;
        }
    }

    // A thread's first mark.
    fn add(&mut self, thread: u64, mark: Pending) -> Result<(), AllocError>
        requires { place_of self.old thread ≡ None }
        ensures { OnOk result (self.new ≡ with_mark self.old thread mark) }
    {
        let place = self.marks.len();
        self.marks.push(mark)?;
        self.places.insert(thread, place)?;
        Ok(())
    }

    /// A thread's last mark is that.
    pub(crate) fn put(&mut self, thread: u64, mark: Pending) -> Result<(), AllocError>
        ensures { OnOk result (self.new ≡ with_mark self.old thread mark) }
    {
        match self.place(thread) {
            Some(i) => {
                self.put_at(i, mark);
                Ok(())
            }
            None => self.add(thread, mark),
        }
    }

    /// No line tells the place of a thread's last mark from now on.
    pub(crate) fn close(&mut self, thread: u64)
        ensures { self.new ≡ with_closed self.old thread }
    {
        let Some(i) = self.place(thread) else {
            return;
        };
        let Some(mark) = self.at(i) else {
            return;
        };
        self.put_at(i, mark.closed());
    }
}
