// The words for objects, handles and phases, each with a space before it.

ghost use Rattle.std.specs.Prelude.{◌≤◌, ◌∷◌};
ghost use Rattle.byte_streams.specs.Drafts.{AddsText};
ghost use Rattle.history_report.specs.Report.{managed_text, peer_text, handle_text, phase_text};

use byte_streams::Line;
use joint_model::{HNum, MNum, PNum, Phase};

/// A managed object.
#[inline(always)]
pub fn add_managed(line: &mut Line, m: MNum)
    requires { 22 ≤ line.old.room }
    ensures { AddsText line.old line.new (32 ∷ managed_text m) 22 }
{
    line.lettered(b'm', m.0 as u64);
}

/// A peer.
#[inline(always)]
pub fn add_peer(line: &mut Line, p: PNum)
    requires { 22 ≤ line.old.room }
    ensures { AddsText line.old line.new (32 ∷ peer_text p) 22 }
{
    line.lettered(b'p', p.0 as u64);
}

/// A handle.
#[inline(always)]
pub fn add_handle(line: &mut Line, h: HNum)
    requires { 22 ≤ line.old.room }
    ensures { AddsText line.old line.new (32 ∷ handle_text h) 22 }
{
    line.lettered(b'h', h.0 as u64);
}

/// A phase.
pub fn add_phase(line: &mut Line, phase: Phase)
    requires { 11 ≤ line.old.room }
    ensures { AddsText line.old line.new (32 ∷ phase_text phase) 11 }
{
    match phase {
        Phase::Idle => line.word(*b"idle"),
        Phase::Snapped => line.word(*b"snapped"),
        Phase::Contracted => line.word(*b"contracted"),
        Phase::Mirrored => line.word(*b"mirrored"),
        Phase::Weakened => line.word(*b"weakened"),
        Phase::Marked => line.word(*b"marked"),
        Phase::Swept => line.word(*b"swept"),
        Phase::Restored => line.word(*b"restored"),
    }
}
