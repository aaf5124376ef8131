// A joint marking of a small graph that is made by hand.

use joint_machine::{MNum, PNum};
use joint_marking::{JointWalked, unreached_peers};
use std::alloc::AllocError;

// The graph `chain` of specs/, which says what leads to what.
#[derive(Drop)]
struct Chain;

impl JointWalked for Chain {
    ghost use Rattle.replay_tests.specs.Chain.{chain};

    ghost graph = { λ _. chain };

    fn objects(&self) -> u32 {
        3
    }

    fn peers(&self) -> u32 {
        5
    }

    fn is_live_object(&self, x: MNum) -> bool {
        1 <= x.0 && x.0 <= 3
    }

    fn is_live_peer(&self, p: PNum) -> bool {
        1 <= p.0 && p.0 <= 4
    }

    fn object_fields(&self, _x: MNum) -> usize {
        1
    }

    fn object_field(&self, x: MNum, _i: usize) -> Option<MNum> {
        if x.0 == 2 { Some(MNum(3)) } else { None }
    }

    fn peer_fields(&self, _p: PNum) -> usize {
        1
    }

    fn peer_field(&self, p: PNum, _i: usize) -> Option<PNum> {
        if p.0 == 1 { Some(PNum(2)) } else { None }
    }

    fn twin(&self, x: MNum) -> Option<PNum> {
        Some(PNum(x.0))
    }
}

#[test]
fn lists_the_one_peer_that_nothing_reaches(rt: HostRuntime) -> Result<(), AllocError> {
    let dead = unreached_peers(rt.alloc(), &Chain, &[MNum(1)], &[])?;
    assert_eq!(rt; dead.as_slice(), [PNum(4)].as_slice());
    Ok(())
}
