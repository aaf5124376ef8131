// Steps from the opening state, and the verdicts on them.

use crate::cases::{CASES, L, Said};
use joint_model::{Entry, History, JoinFault, MNum, Made, PNum};
use joint_replay::{JointState, Verdict};
use std::alloc::{AllocError, Global};
use std::process::Abort;
use std::test::Fail;

// A history of no entries, in which both objects and both peers are freed.
fn freed(alloc: Global) -> Result<History, JoinFault> {
    History::join(
        alloc,
        Vec::new(alloc),
        [MNum(1), MNum(2)].to_vec(alloc)?,
        [PNum(1), PNum(2)].to_vec(alloc)?,
        Vec::new(alloc),
    )
}

// A step with its reply has that verdict.
fn expect(
    rt: &impl Abort,
    state: &mut JointState,
    h: &History,
    said: Said,
    wanted: Verdict,
) -> Result<(), AllocError> {
    let (caller, op, reply) = said;
    let made = Made {
        caller,
        index: 1,
        op,
        reply,
        cites: None,
    };
    let entry = Entry { number: 0, made };
    let found = state.judge(h, &entry)?;
    assert!(rt; found == wanted, "{said:?} is {found:?}");
    Ok(())
}

#[test]
fn steps_have_their_verdicts(rt: HostRuntime) -> Result<(), Fail> {
    let h = freed(rt.alloc())?;
    for (lawful, judged) in &CASES {
        let mut state = JointState::new(rt.alloc())?;
        for said in *lawful {
            expect(&rt, &mut state, &h, *said, L)?;
        }
        for (said, wanted) in *judged {
            expect(&rt, &mut state, &h, *said, *wanted)?;
        }
    }
    Ok(())
}
