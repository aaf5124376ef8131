// The words for what stands at the places of a line.

ghost use Rattle.std.specs.Prelude.{◌≤◌, ◌∷◌};
ghost use Rattle.byte_streams.specs.Drafts.{AddsText};
ghost use Rattle.bridge_script.specs.Words.{var_text, optional_text, kind_text, sort_text, peer_static, own_static};
ghost use Rattle.bridge_script.specs.Words.{global_text, cell_text, phase_word_text};

use byte_streams::Line;
use joint_model::{Cell, GName, Kind, PhaseWord, Sort, StaticNo, Thread, Var};

/// Puts a variable behind the line, with a space before it.
pub fn add_var(line: &mut Line, v: Var)
    requires { 2 ≤ line.old.room }
    ensures { AddsText line.old line.new (32 ∷ var_text v) 2 }
{
    line.text(&[b' ', b'a'.saturating_add(v.0)]);
}

/// Puts a variable, or `-` where none is given, behind the line, with a space before it.
pub fn add_optional(line: &mut Line, v: Option<Var>)
    requires { 2 ≤ line.old.room }
    ensures { AddsText line.old line.new (32 ∷ optional_text v) 2 }
{
    match v {
        Some(v) => add_var(line, v),
        None => line.word(*b"-"),
    }
}

/// Puts a kind behind the line, with a space before it.
pub fn add_kind(line: &mut Line, kind: Kind)
    requires { 11 ≤ line.old.room }
    ensures { AddsText line.old line.new (32 ∷ kind_text kind) 11 }
{
    match kind {
        Kind::Plain => line.word(*b"plain"),
        Kind::Leaf => line.word(*b"leaf"),
        Kind::Bridge => line.word(*b"bridge"),
        Kind::LeafBridge => line.word(*b"leafbridge"),
    }
}

/// Puts a sort behind the line, with a space before it.
pub fn add_sort(line: &mut Line, sort: Sort)
    requires { 10 ≤ line.old.room }
    ensures { AddsText line.old line.new (32 ∷ sort_text sort) 10 }
{
    match sort {
        Sort::User => line.word(*b"user"),
        Sort::Framework => line.word(*b"framework"),
    }
}

/// Puts a static of the peer heap behind the line, with a space before it.
pub fn add_peer_static(line: &mut Line, x: StaticNo)
    requires { 22 ≤ line.old.room }
    ensures { AddsText line.old line.new (32 ∷ peer_static x) 22 }
{
    line.lettered(b's', x.0 as u64);
}

/// Puts a static of a thread's own heap behind the line, with a space before it.
pub fn add_own_static(line: &mut Line, thread: Thread, x: StaticNo)
    requires { 22 ≤ line.old.room }
    ensures { AddsText line.old line.new (32 ∷ own_static thread x) 22 }
{
    match thread {
        Thread::M(_) => line.lettered(b'g', x.0 as u64),
        Thread::P(_) | Thread::C => line.lettered(b's', x.0 as u64),
    }
}

/// Puts a global name behind the line, with a space before it.
pub fn add_global(line: &mut Line, g: GName)
    requires { 22 ≤ line.old.room }
    ensures { AddsText line.old line.new (32 ∷ global_text g) 22 }
{
    line.lettered(b'G', g.0 as u64);
}

/// Puts a weak cell behind the line, with a space before it.
pub fn add_cell(line: &mut Line, k: Cell)
    requires { 22 ≤ line.old.room }
    ensures { AddsText line.old line.new (32 ∷ cell_text k) 22 }
{
    line.lettered(b'k', k.0 as u64);
}

/// Puts the word that asks the driver for a phase behind the line, with a space before it.
pub fn add_phase_word(line: &mut Line, word: PhaseWord)
    requires { 9 ≤ line.old.room }
    ensures { AddsText line.old line.new (32 ∷ phase_word_text word) 9 }
{
    match word {
        PhaseWord::Cycle => line.word(*b"cycle"),
        PhaseWord::Snap => line.word(*b"snap"),
        PhaseWord::Contract => line.word(*b"contract"),
        PhaseWord::Mirror => line.word(*b"mirror"),
        PhaseWord::Weaken => line.word(*b"weaken"),
        PhaseWord::Mark => line.word(*b"mark"),
        PhaseWord::Sweep => line.word(*b"sweep"),
        PhaseWord::Restore => line.word(*b"restore"),
        PhaseWord::Resolve => line.word(*b"resolve"),
    }
}
