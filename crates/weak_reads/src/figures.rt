// What reads took: a clock, what is counted, and the longest of many waits.

ghost use Rattle.std.specs.Prelude.{◌≡◌, ℕ, ◌+◌, ◌-◌, ◌*◌, ◌/◌, ◌<◌, ◌≤◌, min, length, slice_index_or, vec_len};
ghost use Rattle.std.specs.Prelude.{IsPermutation};
ghost use Rattle.std.specs.List.Sorted.{IsNonDecreasing};

use std::alloc::{AllocError, Global};
use std::time::Clock;

/// What reading threads did. No more reads answered `Pending` than were made.
#[derive(Drop)]
pub(crate) struct Figures {
    reads: u64,
    pending: u64,
    // How many were made with no clock between them.
    untimed: u64,
    // What each read that was timed took, in nanoseconds.
    waits: Vec<u32>,
    ghost fewer: { pending ≤ reads },
}

/// The longest of some waits, and the least time that all but the longest thousandth of them kept to, in nanoseconds.
#[derive(Clone, Copy)]
pub(crate) struct Times {
    pub(crate) longest: u32,
    pub(crate) most: u32,
}

/// Nanoseconds since some start. A clock that can't be read stands at the end of time.
pub(crate) fn now(rt: &impl Clock) -> u64 {
    let Ok(time) = rt.monotonic() else {
        return u64::MAX;
    };
    let seconds = time.as_secs().saturating_mul(1_000_000_000);
    seconds.saturating_add(u64::from(time.subsec_nanos()))
}

/// How often a second something is done that is done so often in so many nanoseconds, rounded down; the greatest number
/// where it is more often.
pub(crate) fn a_second(count: u64, nanos: u64) -> u64
    requires { 0 < nanos }
    ensures { result ≡ min (count * 1000000000 / nanos) 18446744073709551615 }
{
    let times = u128::from(count) * 1_000_000_000;
    u64::try_from(times / u128::from(nanos)).unwrap_or(u64::MAX)
}

// The greatest of numbers that don't fall, but for so many at their end; 0 where no more are there.
fn greatest_but(rising: &[u32], few: usize) -> u32
    requires { IsNonDecreasing rising.now }
    ensures all { (i : ℕ) → i + few < length rising.now → slice_index_or rising.now i 0 ≤ result }
    ensures one { few < length rising.now → result ≡ slice_index_or rising.now (length rising.now - 1 - few) 0 }
{
    if few < rising.len() {
        rising[rising.len() - 1 - few]
    } else {
        0
    }
}

/// Puts waits into rising order, and answers the longest, and what all but the longest thousandth kept to; 0 where
/// there are none.
pub(crate) fn times_of(waits: &mut Vec<u32>) -> Times
    ensures same { IsPermutation waits.old.items waits.new.items }
    ensures longest { (i : ℕ) → i < vec_len waits.new → slice_index_or waits.new.items i 0 ≤ result.longest }
    ensures most { (i : ℕ) → i + vec_len waits.new / 1000 < vec_len waits.new
        → slice_index_or waits.new.items i 0 ≤ result.most }
{
    waits.sort_unstable();
    let rising = waits.as_slice();
    Times {
        longest: greatest_but(rising, 0),
        most: greatest_but(rising, rising.len() / 1000),
    }
}

impl Figures {
    /// Of threads that did nothing yet.
    pub(crate) fn new(alloc: Global) -> Figures {
        Figures {
            reads: 0,
            pending: 0,
            untimed: 0,
            waits: Vec::new(alloc),
        }
    }

    /// One read more.
    #[inline(always)]
    pub(crate) fn count(&mut self, is_pending: bool) {
        self.reads = self.reads.saturating_add(1);
        if is_pending {
            self.pending = self.pending.saturating_add(1);
        }
    }

    /// The last read was timed. Answers `AllocError` where there is no memory.
    pub(crate) fn time(&mut self, nanos: u64) -> Result<(), AllocError> {
        self.waits.push(u32::try_from(nanos).unwrap_or(u32::MAX))?;
        Ok(())
    }

    /// All reads so far were made with no clock between them.
    pub(crate) fn end_untimed(&mut self) {
        self.untimed = self.reads;
    }

    /// Adds what another thread did. Answers `AllocError` where there is no memory; nothing is added then.
    pub(crate) fn add(&mut self, other: Figures) -> Result<(), AllocError> {
        let mut other = other;
        self.waits.append(&mut other.waits)?;
        self.reads = self.reads.saturating_add(other.reads);
        self.pending = self.pending.saturating_add(other.pending);
        self.untimed = self.untimed.saturating_add(other.untimed);
        Ok(())
    }

    /// How many reads were made.
    pub(crate) fn reads(&self) -> u64
        ensures { result ≡ self.now.reads }
    {
        self.reads
    }

    /// How many of them answered `Pending`.
    pub(crate) fn pending(&self) -> u64
        ensures count { result ≡ self.now.pending }
        ensures fewer { result ≤ self.now.reads }
    {
        self.pending
    }

    /// How many were made with no clock between them.
    pub(crate) fn untimed(&self) -> u64
        ensures { result ≡ self.now.untimed }
    {
        self.untimed
    }

    /// What the reads took that were timed.
    pub(crate) fn times(self) -> Times {
        let Figures { waits, .. } = self;
        let mut waits = waits;
        times_of(&mut waits)
    }
}
