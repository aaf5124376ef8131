// The families of lines, each put behind the lines so far.

ghost use Rattle.std.specs.Prelude.{◌≡◌, ◌≤◌, ◌++◌, OnOk};
ghost use Rattle.script_generator.specs.Families.{bridge_circle as bridge_circle_acts, cached_leaf as cached_leaf_acts};
ghost use Rattle.script_generator.specs.Families.{passed_bridge as passed_bridge_acts, peer_circle as peer_circle_acts};
ghost use Rattle.script_generator.specs.Families.{lines_by};
ghost use Rattle.script_generator.specs.Generated.{family, cycle_after};

use joint_model::{Act, Kind, PhaseWord, Sort, StaticNo, Thread, Var};
use std::alloc::{AllocError, Global};

// The variables that families use.
const VAR_A: Var = Var(0);

const VAR_B: Var = Var(1);

const VAR_C: Var = Var(2);

// A user's bridge with one field, whose peer has none.
fn user_bridge(v: Var) -> Act
    ensures { result ≡ Act.Bridge v Kind.Bridge 1 Sort.User 0 }
{
    Act::Bridge {
        v,
        kind: Kind::Bridge,
        fields: 1,
        sort: Sort::User,
        peer_fields: 0,
    }
}

// The first object's first field holds the second object.
fn set(v: Var, w: Var) -> Act
    ensures { result ≡ Act.Set v 0 (Some w) }
{
    Act::Set {
        v,
        i: 0,
        w: Some(w),
    }
}

// Two bridges that hold each other, one of them over a plain object.
fn bridge_circle() -> [Act; 9]
    ensures { result ≡ bridge_circle_acts }
{
    [
        user_bridge(VAR_A),
        Act::New {
            v: VAR_B,
            kind: Kind::Plain,
            fields: 1,
        },
        set(VAR_A, VAR_B),
        user_bridge(VAR_C),
        set(VAR_B, VAR_C),
        set(VAR_C, VAR_A),
        Act::Drop { v: VAR_A },
        Act::Drop { v: VAR_B },
        Act::Drop { v: VAR_C },
    ]
}

// A framework's leaf bridge that a plain object holds, which a static of the managed heap holds.
fn cached_leaf(x: StaticNo) -> [Act; 6]
    ensures { result ≡ cached_leaf_acts x }
{
    [
        Act::Bridge {
            v: VAR_A,
            kind: Kind::LeafBridge,
            fields: 0,
            sort: Sort::Framework,
            peer_fields: 1,
        },
        Act::New {
            v: VAR_B,
            kind: Kind::Plain,
            fields: 1,
        },
        set(VAR_B, VAR_A),
        Act::Store { x, v: Some(VAR_B) },
        Act::Drop { v: VAR_A },
        Act::Drop { v: VAR_B },
    ]
}

// A bridge that holds a leaf, and whose peer a static of the peer heap holds.
fn passed_bridge(x: StaticNo) -> [Act; 6]
    ensures { result ≡ passed_bridge_acts x }
{
    [
        user_bridge(VAR_A),
        Act::New {
            v: VAR_B,
            kind: Kind::Leaf,
            fields: 0,
        },
        set(VAR_A, VAR_B),
        Act::Pass { v: VAR_A, x },
        Act::Drop { v: VAR_A },
        Act::Drop { v: VAR_B },
    ]
}

// Two peers that hold each other.
fn peer_circle() -> [Act; 6]
    ensures { result ≡ peer_circle_acts }
{
    [
        Act::NewPeer {
            v: VAR_A,
            fields: 1,
        },
        Act::NewPeer {
            v: VAR_B,
            fields: 1,
        },
        set(VAR_A, VAR_B),
        set(VAR_B, VAR_A),
        Act::Drop { v: VAR_A },
        Act::Drop { v: VAR_B },
    ]
}

// Puts the lines of a thread last.
fn push_lines(
    lines: &mut Vec<(Thread, Act)>,
    thread: Thread,
    acts: &[Act],
) -> Result<(), AllocError>
    ensures { OnOk result (lines.new.items ≡ lines.old.items ++ lines_by thread acts.now) }
{
    for act in acts {
        lines.push((thread, *act))?;
    }
    Ok(())
}

/// Puts the lines of family `i` last. Its shape is that of `seed + i`, which has no bound.
pub fn push_family(lines: &mut Vec<(Thread, Act)>, seed: u64, i: u32) -> Result<(), AllocError>
    requires { i ≤ 2800 }
    ensures { OnOk result (lines.new.items ≡ lines.old.items ++ family seed i) }
{
    let number = (1 + i % 4) as u8;
    let x = StaticNo((i % 16) as u8);
    match (seed % 4 + i as u64) % 4 {
        0 => push_lines(lines, Thread::M(number), &bridge_circle()),
        1 => push_lines(lines, Thread::M(number), &cached_leaf(x)),
        2 => push_lines(lines, Thread::M(number), &passed_bridge(x)),
        _ => push_lines(lines, Thread::P(number), &peer_circle()),
    }
}

/// Puts the line `c cycle` last where family `i` is a hundredth one.
pub fn push_cycle(lines: &mut Vec<(Thread, Act)>, i: u32) -> Result<(), AllocError>
    ensures { OnOk result (lines.new.items ≡ lines.old.items ++ cycle_after i) }
{
    if i % 100 == 99 {
        let word = PhaseWord::Cycle;
        lines.push((Thread::C, Act::PhaseLine { word }))?;
    }
    Ok(())
}
