// In which phase a word was refused, by the reply, and whether it may be refused there.

ghost use Rattle.std.specs.Prelude.{◌≡◌, ◌↔◌, IsTrue, None};
ghost use Rattle.joint_machine.specs.Phases.{next_phase};
ghost use Rattle.run_check.specs.Phases.{IsRefusedAt, is_weakened, plain_phase, told_phase, weakening_phase};

use caller_turns::Stand;
use joint_model::{Phase, PhaseWord, Reply};

// Whether the word is refused in the phase: its own phase isn't the next one.
fn is_refused(phase: Phase, word: PhaseWord) -> bool
    ensures { IsTrue result ↔ (next_phase phase word ≡ None) }
{
    match word {
        PhaseWord::Cycle | PhaseWord::Snap => !matches!(phase, Phase::Idle),
        PhaseWord::Contract => !matches!(phase, Phase::Snapped),
        PhaseWord::Mirror => !matches!(phase, Phase::Contracted),
        PhaseWord::Weaken => !matches!(phase, Phase::Mirrored),
        PhaseWord::Mark => !matches!(phase, Phase::Weakened),
        PhaseWord::Sweep => !matches!(phase, Phase::Marked),
        PhaseWord::Restore => !matches!(phase, Phase::Swept),
        PhaseWord::Resolve => !matches!(phase, Phase::Restored),
    }
}

// Between the mirror and the own marking: the mirrored phase until the weakened one was seen.
fn weakening(count: u32, weakened: bool, swept: bool, candidates: u32) -> Option<Phase>
    ensures { result ≡ weakening_phase count weakened swept candidates }
{
    if !swept && count == 0 && !weakened {
        Some(Phase::Mirrored)
    } else if !swept && count == candidates {
        Some(Phase::Weakened)
    } else {
        None
    }
}

// The driver's phase; None where a phase is half done.
fn phase_of(stand: Stand, candidates: u32) -> Option<Phase>
    ensures { result ≡ plain_phase stand candidates }
{
    match stand {
        Stand::Idle => Some(Phase::Idle),
        Stand::Snapped(_) => Some(Phase::Snapped),
        Stand::Contracted(_) => Some(Phase::Contracted),
        Stand::Weakening {
            count,
            weakened,
            swept,
            ..
        } => weakening(count, weakened, swept, candidates),
        Stand::Marked(_) => Some(Phase::Marked),
        Stand::Restoring { count, .. } => { if count == 0 { Some(Phase::Swept) } else { None } }
        Stand::Restored { .. } => Some(Phase::Restored),
    }
}

// Whether the driver may have come to the weakened phase.
fn may_be_weakened(stand: Stand, candidates: u32) -> bool
    ensures { result ≡ is_weakened stand candidates }
{
    match stand {
        Stand::Weakening { count, swept, .. } => !swept && count == candidates,
        _ => false,
    }
}

// The phase that a refusal tells.
fn told(stand: Stand, candidates: u32, reply: &Reply) -> Option<Phase>
    ensures { result ≡ told_phase stand candidates reply.now }
{
    match *reply {
        Reply::At(Phase::Weakened) => {
            if may_be_weakened(stand, candidates) {
                Some(Phase::Weakened)
            } else {
                phase_of(stand, candidates)
            }
        }
        _ => phase_of(stand, candidates),
    }
}

/// The phase that a refusal tells: the one that its reply names, if the driver may be in it, and else the plain one.
/// None where the word is due in it, and where a phase is half done.
pub(crate) fn refused_in(
    stand: Stand,
    candidates: u32,
    word: PhaseWord,
    reply: &Reply,
) -> Option<Phase>
    ensures { IsRefusedAt word (told_phase stand candidates reply.now) result }
{
    match told(stand, candidates, reply) {
        None => None,
        Some(phase) => {
            if is_refused(phase, word) {
                Some(phase)
            } else {
                None
            }
        }
    }
}
