// A table of a registry's calls, with what each answers.

use instance_registry::{RegisterFault, Registry};
use joint_machine::{MNum, PNum};
use std::alloc::Global;
use std::test::Fail;

// A call. `Retain(p, d)` keeps the pairs of other peers than `p` whose object's number isn't a multiple of `d`.
#[derive(Clone, Copy)]
enum Call {
    Register(u32, u32),
    Add(u32, u32),
    Forget(u32),
    Twin(u32),
    Entry(u32),
    Len,
    IsEmpty,
    Retain(u32, u32),
}

// What a call answers, by its numbers alone.
#[derive(Clone, Copy, PartialEq, Eq)]
enum Answer {
    Done,
    Taken(u32),
    Nothing,
    Twin(u32),
    Pair(u32, u32),
    Count(u32),
    Is(bool),
    NoMemory,
}

use Answer::{Count, Done, Is, Nothing, Pair, Taken};

const CALLS: [(Call, Answer); 42] = [
    // a taken peer is refused, and may come again once it is forgotten
    (Call::Register(1, 1), Done),
    (Call::Register(1, 2), Taken(1)),
    (Call::Forget(1), Answer::Twin(1)),
    (Call::Register(1, 2), Done),
    (Call::Twin(1), Answer::Twin(2)),
    (Call::Forget(9), Nothing),
    (Call::Forget(1), Answer::Twin(2)),
    (Call::IsEmpty, Is(true)),
    // the last pair goes
    (Call::Add(3, 30), Done),
    (Call::Register(2, 20), Done),
    (Call::Forget(2), Answer::Twin(20)),
    (Call::Forget(2), Nothing),
    (Call::Entry(0), Pair(3, 30)),
    (Call::Len, Count(1)),
    (Call::Forget(3), Answer::Twin(30)),
    // where one goes from the midst, the others stay in their order
    (Call::Register(1, 10), Done),
    (Call::Register(2, 20), Done),
    (Call::Register(3, 30), Done),
    (Call::Register(4, 40), Done),
    (Call::Forget(2), Answer::Twin(20)),
    (Call::Len, Count(3)),
    (Call::Entry(0), Pair(1, 10)),
    (Call::Entry(1), Pair(3, 30)),
    (Call::Entry(2), Pair(4, 40)),
    (Call::Entry(3), Nothing),
    // many go in one pass
    (Call::Register(2, 20), Done),
    (Call::Register(5, 50), Done),
    (Call::Register(6, 60), Done),
    (Call::Retain(1, 20), Done),
    (Call::Len, Count(2)),
    (Call::Entry(0), Pair(3, 30)),
    (Call::Entry(1), Pair(5, 50)),
    (Call::Twin(1), Nothing),
    (Call::Twin(4), Nothing),
    (Call::Twin(5), Answer::Twin(50)),
    (Call::Register(4, 70), Done),
    (Call::Entry(2), Pair(4, 70)),
    (Call::Retain(0, 71), Done),
    (Call::Len, Count(3)),
    (Call::Retain(0, 1), Done),
    (Call::IsEmpty, Is(true)),
    (Call::Twin(5), Nothing),
];

fn twin(found: Option<MNum>) -> Answer {
    match found {
        Some(m) => Answer::Twin(m.0),
        None => Nothing,
    }
}

// What the call answers; a pair is added only where its peer has none.
fn play(registry: &mut Registry, call: &Call) -> Answer {
    match *call {
        Call::Register(p, m) => match registry.register(PNum(p), MNum(m)) {
            Ok(()) => Done,
            Err(RegisterFault::Taken { m }) => Taken(m.0),
            Err(RegisterFault::OutOfMemory) => Answer::NoMemory,
        },
        Call::Add(p, m) => match registry.twin(PNum(p)) {
            Some(m) => Taken(m.0),
            None => match registry.add(PNum(p), MNum(m)) {
                Ok(()) => Done,
                Err(_) => Answer::NoMemory,
            },
        },
        Call::Forget(p) => twin(registry.forget(PNum(p))),
        Call::Twin(p) => twin(registry.twin(PNum(p))),
        Call::Entry(i) => match registry.entry(i) {
            Some((p, m)) => Pair(p.0, m.0),
            None => Nothing,
        },
        Call::Len => Count(registry.len()),
        Call::IsEmpty => Is(registry.is_empty()),
        Call::Retain(p, d) => {
            registry.retain(|q, m| q.0 != p && m.0.checked_rem(d) != Some(0));
            Done
        }
    }
}

// The place of the first call that answers otherwise.
fn miss(alloc: Global) -> Option<usize> {
    let mut registry = Registry::new(alloc);
    for (i, (call, wanted)) in CALLS.as_slice().iter().enumerate() {
        if play(&mut registry, call) != *wanted {
            return Some(i);
        }
    }
    None
}

#[test]
fn calls_answer_as_the_table_says(rt: HostRuntime) {
    assert_eq!(rt; miss(rt.alloc()), None);
}
