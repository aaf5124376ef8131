// The numbers of a line: objects, handles, cycles, markings, counts, and the place of a thread's line.

ghost use Rattle.std.specs.Prelude.{◌≡◌, ◌≢◌, ◌∷◌, ◌<◌, ◌^◌, ℕ, MatchOption, decimal};
ghost use Rattle.joint_machine.specs.Lines.{IsThread};
ghost use Rattle.joint_machine.specs.declared.names.MNum.{MNum};
ghost use Rattle.joint_machine.specs.declared.names.PNum.{PNum};
ghost use Rattle.joint_machine.specs.declared.names.HNum.{HNum};
ghost use Rattle.joint_machine.specs.declared.names.Thread.{Thread};
ghost use Rattle.history_report.specs.Report.{managed_text, peer_text, handle_text, place_text};
ghost use Rattle.entry_reader.specs.Fitting.{Short};

use bridge_script::thread;
use joint_machine::{HNum, MNum, PNum, Thread};
use text_words::{first_place, lettered, number};

// Numbers of objects, lines and the like are below this one.
const SHORT: u64 = 1 << 32;

/// The managed object that a word names.
pub fn managed(word: &[u8]) -> Option<MNum>
    ensures { MatchOption result ((m : MNum) → Short m.0 → managed_text m ≢ word.now)
        (λ m. Short m.0 × (managed_text m ≡ word.now)) }
{
    Some(MNum(lettered(word, b'm', SHORT)? as u32))
}

/// The peer that a word names.
pub fn peer(word: &[u8]) -> Option<PNum>
    ensures { MatchOption result ((p : PNum) → Short p.0 → peer_text p ≢ word.now)
        (λ p. Short p.0 × (peer_text p ≡ word.now)) }
{
    Some(PNum(lettered(word, b'p', SHORT)? as u32))
}

/// The handle that a word names.
pub fn handle(word: &[u8]) -> Option<HNum>
    ensures { MatchOption result ((h : HNum) → Short h.0 → handle_text h ≢ word.now)
        (λ h. Short h.0 × (handle_text h ≡ word.now)) }
{
    Some(HNum(lettered(word, b'h', SHORT)? as u32))
}

/// The number of 32 bits that a word writes.
pub fn short(word: &[u8]) -> Option<u32>
    ensures { MatchOption result ((n : ℕ) → Short n → decimal n ≢ word.now) (λ n. Short n × (decimal n ≡ word.now)) }
{
    let n = number(word)?;
    if n < SHORT { Some(n as u32) } else { None }
}

/// The thread and the line that a word names: `m1.12`.
pub fn place(word: &[u8]) -> Option<(Thread, u32)>
    ensures { MatchOption result ((t : Thread) (n : ℕ) → IsThread t → Short n → place_text t n ≢ word.now)
        (λ p. IsThread p.0 × Short p.1 × (place_text p.0 p.1 ≡ word.now)) }
{
    let dot = first_place(word, b'.');
    if dot == word.len() {
        return None;
    }
    let caller = thread(&word[..dot])?;
    let index = short(&word[dot + 1..])?;
    Some((caller, index))
}
