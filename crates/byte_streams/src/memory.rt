// Sources and sinks in memory, for tests and for callers that have the bytes at hand.

ghost use Rattle.std.specs.Prelude.{◌≡◌, ℕ, ◌+◌, ◌↔◌, ◌<◌, ◌≤◌, ◌^◌, ◌-◌, [], length, min, take, Some, None, Contains};
ghost use Rattle.std.specs.Prelude.{IsTrue, IsErr, IfOk};
ghost use Rattle.std.specs.Io.{ReadsAtMost, WritesAtMost};
ghost use Rattle.std.specs.Io.KnownBytes.{ReadConsumes, WriteAppends};
ghost use Rattle.byte_streams.specs.Streams.{next_count};
ghost use Rattle.byte_streams.specs.Faults.{HasCause};

use crate::streams::{Failed, Sink, Source};
use std::alloc::Global;
use std::marker::Model;

// Whether the call with that number is one of those that fail.
fn is_listed(fails: &[u32], call: u64) -> bool
    ensures { IsTrue result ↔ Contains fails.now call }
{
    fails.iter().any(|f| *f as u64 == call)
}

// Copies as many of the first bytes as there is room for into the front of `buf`, and answers how many.
fn copy_front(bytes: &[u8], buf: &mut [u8]) -> usize
    ensures count { result ≡ min (length buf.old) (length bytes.now) }
    ensures copied { take result buf.new ≡ take result bytes.now }
{
    let count = buf.len().min(bytes.len());
    buf[..count].copy_from_slice(&bytes[..count]);
    count
}

/// A source that gives the bytes that it was made of, as many in each call as there is room for, and that
/// fails at chosen calls. It tells its bytes.
#[derive(Drop)]
pub struct ByteSource {
    bytes: Vec<u8>,
    at: usize,
    fails: Vec<u32>,
    calls: u64,
    faults: u64,
}

impl Model for ByteSource {
    ghost use Rattle.std.specs.Prelude.{◌≤◌, drop, length};
    ghost use Rattle.byte_streams.specs.Streams.{MemorySource};

    ghost Value = { MemorySource };

    ghost view = { λ s. record {
      left = drop s.at s.bytes.items;
      faults = s.faults;
      calls = s.calls;
      fails = s.fails.items;
    } };

    ghost invariant = { λ s. s.at ≤ length s.bytes.items };
}

impl ByteSource {
    /// The source of these bytes, of which the calls whose numbers, from 1, stand in `fails` fail.
    pub fn new(bytes: Vec<u8>, fails: Vec<u32>) -> ByteSource
        ensures left { result.left ≡ bytes.items }
        ensures faults { result.faults ≡ 0 }
        ensures calls { result.calls ≡ 0 }
        ensures fails { result.fails ≡ fails.items }
    {
        ByteSource {
            bytes,
            at: 0,
            fails,
            calls: 0,
            faults: 0,
        }
    }
}

impl Source for ByteSource {
    ghost left = { λ s. Some s.left };

    ghost faults = { λ s. s.faults };

    fn read(&mut self, buf: &mut [u8]) -> Result<usize, Failed>
        ensures bound { ReadsAtMost result buf.new }
        ensures bytes { ReadConsumes (Some self.old.left) (Some self.new.left) result buf.new }
        ensures cause { HasCause self.old.faults self.new.faults result }
        ensures count { IfOk result (λ n. n ≡ min (length buf.old) (length self.old.left)) }
        ensures calls { self.new.calls ≡ next_count self.old.calls }
        ensures fails { IsErr result ↔ Contains self.old.fails self.new.calls }
        ensures listed { self.new.fails ≡ self.old.fails }
    {
        self.calls = self.calls.saturating_add(1);
        if is_listed(&self.fails, self.calls) {
            self.faults = self.faults.saturating_add(1);
            return Err(Failed);
        }
        let count = copy_front(&self.bytes[self.at..], buf);
        self.at += count;
        Ok(count)
    }
}

/// A source that gives the bytes that it was made of and never fails. It tells its bytes.
#[derive(Drop)]
pub struct PlainSource {
    bytes: Vec<u8>,
    at: usize,
}

impl Model for PlainSource {
    ghost use Rattle.std.specs.Prelude.{◌≤◌, List, ℕ, drop, length};

    ghost Value = { List ℕ };

    ghost view = { λ s. drop s.at s.bytes.items };

    ghost invariant = { λ s. s.at ≤ length s.bytes.items };
}

impl PlainSource {
    /// The source of these bytes.
    pub fn new(bytes: Vec<u8>) -> PlainSource
        ensures { result ≡ bytes.items }
    {
        PlainSource { bytes, at: 0 }
    }
}

impl Source for PlainSource {
    ghost left = { λ s. Some s };

    ghost faults = { λ s. 0 };

    fn read(&mut self, buf: &mut [u8]) -> Result<usize, Failed>
        ensures bound { ReadsAtMost result buf.new }
        ensures bytes { ReadConsumes (Some self.old) (Some self.new) result buf.new }
        ensures cause { HasCause 0 0 result }
        ensures never { result ≡ Ok (min (length buf.old) (length self.old)) }
    {
        let count = copy_front(&self.bytes[self.at..], buf);
        self.at += count;
        Ok(count)
    }
}

/// A sink that keeps what is written, takes a limited number of bytes in each call, and fails at chosen
/// calls. A growth that finds no memory counts as a fault. It tells its bytes.
#[derive(Drop)]
pub struct ByteSink {
    held: Vec<u8>,
    most: usize,
    fails: Vec<u32>,
    calls: u64,
    faults: u64,
}

impl Model for ByteSink {
    ghost use Rattle.std.specs.Prelude.{◌≤◌};
    ghost use Rattle.byte_streams.specs.Streams.{MemorySink};

    ghost Value = { MemorySink };

    ghost view = { λ s. record {
      held = s.held.items;
      most = s.most;
      faults = s.faults;
      calls = s.calls;
      fails = s.fails.items;
    } };

    ghost invariant = { λ s. 1 ≤ s.most };
}

impl ByteSink {
    /// The empty sink, which takes at most `most` bytes in each call; the calls whose numbers, from 1, stand
    /// in `fails` fail.
    pub fn new(alloc: Global, most: usize, fails: Vec<u32>) -> ByteSink
        requires { 1 ≤ most }
        ensures held { result.held ≡ [] }
        ensures most { result.most ≡ most }
        ensures faults { result.faults ≡ 0 }
        ensures calls { result.calls ≡ 0 }
        ensures fails { result.fails ≡ fails.items }
    {
        ByteSink {
            held: Vec::new(alloc),
            most,
            fails,
            calls: 0,
            faults: 0,
        }
    }

    /// The bytes that it holds.
    pub fn bytes(&self) -> &[u8]
        ensures { result.now ≡ self.now.held }
    {
        &self.held
    }
}

impl Sink for ByteSink {
    ghost held = { λ s. Some s.held };

    ghost faults = { λ s. s.faults };

    fn write(&mut self, piece: &[u8]) -> Result<usize, Failed>
        ensures bound { WritesAtMost result piece.now }
        ensures some { IfOk result (λ n. 0 < length piece.now → 0 < n) }
        ensures bytes { WriteAppends (Some self.old.held) (Some self.new.held) result piece.now }
        ensures cause { HasCause self.old.faults self.new.faults result }
        ensures count { IfOk result (λ n. n ≡ min self.old.most (length piece.now)) }
        ensures calls { self.new.calls ≡ next_count self.old.calls }
        ensures fails { Contains self.old.fails self.new.calls → IsErr result }
        ensures listed { self.new.fails ≡ self.old.fails }
        ensures most { self.new.most ≡ self.old.most }
    {
        self.calls = self.calls.saturating_add(1);
        let count = self.most.min(piece.len());
        if is_listed(&self.fails, self.calls)
            || self.held.extend_from_slice(&piece[..count]).is_err()
        {
            self.faults = self.faults.saturating_add(1);
            return Err(Failed);
        }
        Ok(count)
    }
}

/// A sink that keeps only the number of bytes, and never fails. It tells no bytes.
#[derive(Drop, Debug)]
pub struct CountSink {
    count: u64,
}

impl Model for CountSink {
    ghost use Rattle.std.specs.Prelude.{ℕ};

    ghost Value = { ℕ };

    ghost view = { λ s. s.count };
}

impl CountSink {
    /// The sink that took no byte yet.
    pub fn new() -> CountSink
        ensures { result ≡ 0 }
    {
        CountSink { count: 0 }
    }

    /// How many bytes it took; at the greatest `u64` it counts no further.
    pub fn count(&self) -> u64
        ensures { result ≡ self.now }
    {
        self.count
    }
}

impl Sink for CountSink {
    ghost held = { λ s. None };

    ghost faults = { λ s. 0 };

    fn write(&mut self, piece: &[u8]) -> Result<usize, Failed>
        ensures bound { WritesAtMost result piece.now }
        ensures some { IfOk result (λ n. 0 < length piece.now → 0 < n) }
        ensures bytes { WriteAppends None None result piece.now }
        ensures cause { HasCause 0 0 result }
        ensures never { result ≡ Ok (length piece.now) }
        ensures count { self.new ≡ min (self.old + length piece.now) (2 ^ 64 - 1) }
    {
        self.count = self.count.saturating_add(piece.len() as u64);
        Ok(piece.len())
    }
}
