// A table of a queue's calls, with what each answers.

use finaliser_queue::Notices;
use joint_machine::MNum;
use std::alloc::Global;

// A call, with its answer. `At` asks for a place of all that were ever pushed.
#[derive(Clone, Copy)]
enum Call {
    Reserve(u32),
    Widen(u32),
    Push(MNum),
    Take(Option<MNum>),
    Waiting(u32),
    Taken(u32),
    Queued(u32),
    At(u32, Option<MNum>),
    IsEmpty(bool),
}

const CALLS: [Call; 23] = [
    Call::IsEmpty(true),
    Call::Reserve(2),
    Call::Push(MNum(5)),
    Call::Push(MNum(3)),
    // the order of the pushes
    Call::Waiting(2),
    Call::Take(Some(MNum(5))),
    Call::Take(Some(MNum(3))),
    Call::Take(None),
    Call::IsEmpty(true),
    // what was given out stays
    Call::Reserve(3),
    Call::Push(MNum(7)),
    Call::Take(Some(MNum(7))),
    Call::Push(MNum(2)),
    Call::Push(MNum(9)),
    Call::Take(Some(MNum(2))),
    // a move into another list loses none
    Call::Widen(4),
    Call::Widen(1000),
    Call::Waiting(1),
    Call::Taken(4),
    Call::Queued(5),
    Call::At(0, Some(MNum(5))),
    Call::At(4, Some(MNum(9))),
    Call::At(5, None),
];

// Makes room in a further list; whether there is as much then.
fn widens(alloc: Global, notices: &mut Notices, n: u32) -> bool {
    let queued = notices.queued();
    if n > u32::MAX - queued {
        return false;
    }
    let Ok(list) = Vec::with_capacity(alloc, (queued + n) as usize) else {
        return false;
    };
    notices.widen(n, list);
    notices.spare() >= n
}

// Whether the call may be made, and answers so.
fn answers(alloc: Global, notices: &mut Notices, call: &Call) -> bool {
    match *call {
        Call::Widen(n) => widens(alloc, notices, n),
        Call::Reserve(n) => notices.reserve(n).is_ok() && notices.spare() >= n,
        Call::Push(m) => {
            let may = notices.spare() >= 1;
            if may {
                notices.push(m);
            }
            may
        }
        Call::Take(wanted) => notices.take() == wanted,
        Call::Waiting(n) => notices.waiting() == n,
        Call::Taken(n) => notices.taken() == n,
        Call::Queued(n) => notices.queued() == n,
        Call::At(i, wanted) => notices.at(i) == wanted,
        Call::IsEmpty(wanted) => notices.is_empty() == wanted,
    }
}

// The place of the first call that answers otherwise.
fn miss(alloc: Global, notices: &mut Notices) -> Option<usize> {
    for (i, call) in CALLS.as_slice().iter().enumerate() {
        if !answers(alloc, notices, call) {
            return Some(i);
        }
    }
    None
}

#[test]
fn calls_answer_as_the_table_says(rt: HostRuntime) {
    let mut notices = Notices::new(rt.alloc());
    assert_eq!(rt; miss(rt.alloc(), &mut notices), None);
    let all = notices.into_all();
    assert!(rt; all.as_slice() == [MNum(5), MNum(3), MNum(7), MNum(2), MNum(9)].as_slice());
}
