// Two threads of a run that wait for each other at a turnstile.

use crate::expecting::{THREADS, written_at};
use bridge_script::Turnstile;
use joint_model::Thread;
use std::sync::atomic::{AtomicU64, Ordering};
use std::test::Fail;

// A turnstile at which a managed and a peer thread wait for each other, for so many turns at most.
#[derive(Drop)]
struct Meeting {
    managed: AtomicU64,
    peer: AtomicU64,
    missed: AtomicU64,
}

impl Turnstile for Meeting {
    fn pass(&self, thread: Thread, _line: u32) {
        let (mine, other) = match thread {
            Thread::M(_) => (&self.managed, &self.peer),
            Thread::P(_) => (&self.peer, &self.managed),
            Thread::C => return,
        };
        mine.store(1, Ordering::SeqCst);
        for _ in 0..200_000_000u32 {
            if other.load(Ordering::SeqCst) == 1 {
                return;
            }
        }
        self.missed.store(1, Ordering::SeqCst);
    }
}

// The words, the script, and how what is written ends, of runs in which one managed and one peer thread have lines.
const MEETINGS: [(&[&str], &[u8], &[u8]); 2] = [
    (THREADS, b"m1 new a plain 0\np1 new a 0\n", b"end 2\n"),
    (
        &["gen", "--seed", "2", "--size", "2", "--mode", "threads"],
        b"",
        b"live managed 2 peers 1 handles 1\n",
    ),
];

#[test]
fn two_threads_meet(rt: HostRuntime) -> Result<(), Fail> {
    let alloc = rt.alloc();
    for (words, text, end) in &MEETINGS {
        let meeting = Meeting {
            managed: AtomicU64::new(0),
            peer: AtomicU64::new(0),
            missed: AtomicU64::new(0),
        };
        let out = written_at(&rt, alloc, words, text, &meeting)?;
        let missed = meeting.missed.load(Ordering::SeqCst);
        // (a run that never comes to the turnstile misses nobody)
        let managed = meeting.managed.load(Ordering::SeqCst);
        let peer = meeting.peer.load(Ordering::SeqCst);
        assert!(rt; missed == 0 && managed == 1 && peer == 1);
        assert!(rt; out.bytes().ends_with(end));
    }
    Ok(())
}

// A turnstile that notes which thread came to it for which line, and whether one came for another line or out of its
// order.
#[derive(Drop)]
struct Passes {
    seen: AtomicU64,
    wrong: AtomicU64,
}

impl Turnstile for Passes {
    fn pass(&self, thread: Thread, line: u32) {
        let (due, own, before) = match line {
            1 => (Thread::M(1), 1, 0),
            2 => (Thread::P(1), 2, 0),
            3 => (Thread::C, 4, 0),
            4 => (Thread::M(1), 8, 1),
            5 => (Thread::C, 16, 4),
            _ => (Thread::C, 32, 32),
        };
        let seen = self.seen.fetch_or(own, Ordering::SeqCst);
        if thread != due || seen & own != 0 || seen & before != before {
            self.wrong.store(1, Ordering::SeqCst);
        }
    }
}

#[test]
fn each_line_has_its_turn(rt: HostRuntime) -> Result<(), Fail> {
    let passes = Passes {
        seen: AtomicU64::new(0),
        wrong: AtomicU64::new(0),
    };
    let text = b"m1 drop a\np1 drop a\nc snap\nm1 drop b\nc contract\n";
    let _ = written_at(&rt, rt.alloc(), THREADS, text, &passes)?;
    let seen = passes.seen.load(Ordering::SeqCst);
    let wrong = passes.wrong.load(Ordering::SeqCst);
    assert!(rt; seen == 31 && wrong == 0);
    Ok(())
}

// A turnstile at which the managed thread waits for its first line until the peer thread has come to its third one, and
// the peer thread for its first until the managed one has come; for so many turns at most. So where a line ran before
// its turn, the managed thread's would stand before the peer's second one.
#[derive(Drop)]
struct PeerFirst {
    managed: AtomicU64,
    peer: AtomicU64,
}

impl Turnstile for PeerFirst {
    fn pass(&self, thread: Thread, line: u32) {
        let (mine, other, wanted) = match thread {
            Thread::M(_) => (&self.managed, &self.peer, 4),
            Thread::P(_) => (&self.peer, &self.managed, 1),
            Thread::C => return,
        };
        mine.store(line as u64, Ordering::SeqCst);
        for _ in 0..200_000_000u32 {
            if other.load(Ordering::SeqCst) >= wanted {
                return;
            }
        }
    }
}

#[test]
fn a_turn_comes_before_its_line(rt: HostRuntime) -> Result<(), Fail> {
    let turn = PeerFirst {
        managed: AtomicU64::new(0),
        peer: AtomicU64::new(0),
    };
    let text = b"m1 new a plain 0\np1 drop b\np1 new a 0\np1 drop a\n";
    let out = written_at(&rt, rt.alloc(), THREADS, text, &turn)?;
    assert!(rt;
        out.bytes()
            .starts_with(b"0 p1.2 drop b = ok\n1 p1.3 new a 0 = p1\n")
    );
    Ok(())
}

// A turnstile at which every thread waits until the managed thread has come to its third line, for so many turns at
// most.
#[derive(Drop)]
struct AfterTwoLines {
    managed: AtomicU64,
}

impl Turnstile for AfterTwoLines {
    fn pass(&self, thread: Thread, line: u32) {
        if let Thread::M(_) = thread {
            self.managed.store(line as u64, Ordering::SeqCst);
            return;
        }
        for _ in 0..200_000_000u32 {
            if self.managed.load(Ordering::SeqCst) == 3 {
                return;
            }
        }
    }
}

// What a managed thread hands over in its first two lines; the third one does nothing.
const HANDED: &[u8] = b"m1 bridge a bridge 1 user 1
m1 pass a s0
m1 drop h
p1 load a s0
";

const HANDED_START: &[u8] = b"0 m1.1 make user 1 = p1 h1
1 m1.1 adopt a bridge 1 p1 h1 = m1 @0
2 m1.2 lend a s0 = h1
3 m1.2 land h1 s0 = p1 @2
";

const HANDED_ENDS: [&[u8]; 2] = [
    b"4 m1.3 drop h = ok\n5 p1.4 load a s0 = p1\nend 6\n",
    b"4 p1.4 load a s0 = p1\n5 m1.3 drop h = ok\nend 6\n",
];

#[test]
fn what_is_handed_over_arrives(rt: HostRuntime) -> Result<(), Fail> {
    let turn = AfterTwoLines {
        managed: AtomicU64::new(0),
    };
    let out = written_at(&rt, rt.alloc(), THREADS, HANDED, &turn)?;
    assert!(rt; out.bytes().starts_with(HANDED_START));
    let end = &out.bytes()[HANDED_START.len().min(out.bytes().len())..];
    assert!(rt; end == HANDED_ENDS[0] || end == HANDED_ENDS[1]);
    Ok(())
}
