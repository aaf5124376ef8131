// The words that name something: what stands at the places of a line.

ghost use Rattle.std.specs.Prelude.{◌≡◌, ◌≢◌, ℕ, ◌<◌, ◌≤◌, List, ◌∷◌, Option, MatchOption, decimal};
ghost use Rattle.joint_machine.specs.Lines.{IsThread, IsVar, IsVarOrNone};
ghost use Rattle.bridge_script.specs.Words.{thread_text, var_text, optional_text};
ghost use Rattle.bridge_script.specs.Words.{managed_static as managed_static_text, peer_static as peer_static_text};
ghost use Rattle.bridge_script.specs.Words.{global_text, cell_text};
ghost use Rattle.joint_machine.specs.declared.names.Thread.{Thread};
ghost use Rattle.joint_machine.specs.declared.names.Var.{Var};
ghost use Rattle.joint_machine.specs.declared.names.StaticNo.{StaticNo};
ghost use Rattle.joint_machine.specs.declared.names.GName.{GName};
ghost use Rattle.joint_machine.specs.declared.names.Cell.{Cell};

use joint_model::{Cell, GName, StaticNo, Thread, Var};
use text_words::{Words, is_same, lettered};

/// The static of the managed heap that a word names: `g0` to `g15`.
pub fn managed_static(word: &[u8]) -> Option<StaticNo>
    ensures { MatchOption result ((x : StaticNo) → x.0 < 16 → managed_static_text x ≢ word.now)
        (λ x. (x.0 < 16) × (managed_static_text x ≡ word.now)) }
{
    Some(StaticNo(lettered(word, b'g', 16)? as u8))
}

/// The static of the peer heap that a word names: `s0` to `s15`.
pub fn peer_static(word: &[u8]) -> Option<StaticNo>
    ensures { MatchOption result ((x : StaticNo) → x.0 < 16 → peer_static_text x ≢ word.now)
        (λ x. (x.0 < 16) × (peer_static_text x ≡ word.now)) }
{
    Some(StaticNo(lettered(word, b's', 16)? as u8))
}

/// The global name that a word is: `G0` to `G63`.
pub fn global(word: &[u8]) -> Option<GName>
    ensures { MatchOption result ((g : GName) → g.0 < 64 → global_text g ≢ word.now)
        (λ g. (g.0 < 64) × (global_text g ≡ word.now)) }
{
    Some(GName(lettered(word, b'G', 64)? as u8))
}

/// The weak cell that a word names: `k0` to `k63`.
pub fn cell(word: &[u8]) -> Option<Cell>
    ensures { MatchOption result ((k : Cell) → k.0 < 64 → cell_text k ≢ word.now)
        (λ k. (k.0 < 64) × (cell_text k ≡ word.now)) }
{
    Some(Cell(lettered(word, b'k', 64)? as u8))
}

/// The thread that a word names: `m1` to `m8`, `p1` to `p8`, `c`.
pub fn thread(word: &[u8]) -> Option<Thread>
    ensures { MatchOption result ((t : Thread) → IsThread t → thread_text t ≢ word.now)
        (λ t. IsThread t × (thread_text t ≡ word.now)) }
{
    if is_same(word, b"c") {
        return Some(Thread::C);
    }
    if let Some(n) = thread_number(word, b'm') {
        return Some(Thread::M(n));
    }
    if let Some(n) = thread_number(word, b'p') {
        return Some(Thread::P(n));
    }
    None
}

// The number of a thread, 1 to 8, behind its letter.
fn thread_number(word: &[u8], letter: u8) -> Option<u8>
    ensures { MatchOption result ((n : ℕ) → 1 ≤ n → n ≤ 8 → letter ∷ decimal n ≢ word.now)
        (λ n. (1 ≤ n) × (n ≤ 8) × (letter ∷ decimal n ≡ word.now)) }
{
    match lettered(word, letter, 9) {
        Some(n) if n > 0 => Some(n as u8),
        _ => None,
    }
}

/// The variable that a word names: `a` to `h`.
pub fn var(word: &[u8]) -> Option<Var>
    ensures { MatchOption result ((v : Var) → IsVar v → var_text v ≢ word.now)
        (λ v. IsVar v × (var_text v ≡ word.now)) }
{
    if word.len() != 1 || word[0] < b'a' || word[0] > b'h' {
        return None;
    }
    Some(Var(word[0] - b'a'))
}

/// The variable that a word names, or none for the word `-`.
pub fn optional(word: &[u8]) -> Option<Option<Var>>
    ensures { MatchOption result ((v : Option Var) → IsVarOrNone v → optional_text v ≢ word.now)
        (λ v. IsVarOrNone v × (optional_text v ≡ word.now)) }
{
    if is_same(word, b"-") {
        return Some(None);
    }
    Some(Some(var(word)?))
}

/// Takes a thread; None where the next word is none.
pub fn take_thread(words: &mut Words) -> Option<Thread>
    ensures { MatchOption result ((t : Thread) (rest : List (List ℕ)) → IsThread t → words.old ≢ thread_text t ∷ rest)
        (λ t. IsThread t × (words.old ≡ thread_text t ∷ words.new)) }
{
    thread(words.next()?)
}
