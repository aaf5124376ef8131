// The line of an entry.

ghost use Rattle.std.specs.Prelude.{⊤, ◌≡◌, ◌++◌, ℕ, [], ◌∷◌, List, IfOk, MatchOption, codes, decimal};
ghost use Rattle.joint_machine.specs.declared.names.Thread.{Thread};
ghost use Rattle.joint_machine.specs.declared.events.Entry.{Entry};
ghost use Rattle.joint_machine.specs.Lines.{IsThread};
ghost use Rattle.history_report.specs.Report.{event_words, place_text};
ghost use Rattle.entry_reader.specs.Fitting.{Short};
ghost use Rattle.entry_reader.specs.Taking.{Takes};
ghost use Rattle.entry_reader.specs.Events.{IsHead};
ghost use Rattle.entry_reader.specs.Saying.{IsLineOf};
ghost use Rattle.entry_reader.specs.Tailing.{ReadsEntry};

use crate::events::take_event;
use crate::lists::NamedLists;
use crate::places::LastPlace;
use crate::tails::read_tail;
use joint_machine::{Entry, Made, Op, Thread};
use std::alloc::AllocError;
use text_words::{Stretch, Words, number};

// Takes the number of an entry.
fn take_count(count: u64, words: &mut Words) -> Option<()>
    ensures { Takes (λ (u : ⊤). ⊤) (λ u. decimal count ∷ []) words.old words.new result }
{
    let n = number(words.next()?)?;
    if n == count { Some(()) } else { None }
}

// Takes a thread and a line.
fn take_place(last: &mut LastPlace, words: &mut Words) -> Option<(Thread, u32)>
    ensures { Takes (λ (p : Thread × ℕ). IsThread p.0 × Short p.1)
        (λ p. place_text p.0 p.1 ∷ []) words.old words.new result }
{
    last.read(words.next()?)
}

// Takes the words up to the reply: the number, the place, the event and the equals sign.
fn take_head(count: u64, last: &mut LastPlace, words: &mut Words) -> Option<(Thread, u32, Op)>
    ensures { Takes IsHead (λ h. decimal count ∷ place_text h.0 h.1 ∷ (event_words h.0 h.2 ++ codes "=" ∷ []))
        words.old words.new result }
{
    take_count(count, words)?;
    let (caller, index) = take_place(last, words)?;
    let op = take_event(caller, words)?;
    Some((caller, index, op))
}

/// The entry with that number whose line has this text, which is without its newline. None where there is none, and
/// then the lists stay. The list that it names is put behind those before. The place of the last line that was read may
/// be that of any.
pub fn read_entry(
    text: Stretch,
    number: u64,
    lists: &mut NamedLists,
    last: &mut LastPlace,
) -> Result<Option<Entry>, AllocError>
    ensures { IfOk result (λ found. MatchOption found
        ((lists.new ≡ lists.old)
        × ((e : Entry) (ns : List ℕ) → e.number ≡ number → IsLineOf text.entry e ns → ⊥))
        (ReadsEntry text.entry number lists.old lists.new)) }
{
    let mut words = Words::of(text);
    let Some((caller, index, op)) = take_head(number, last, &mut words) else {
        return Ok(None);
    };
    let Some((reply, cites)) = read_tail(&op, &words, lists)? else {
        return Ok(None);
    };
    Ok(Some(Entry {
        number,
        made: Made {
            caller,
            index,
            op,
            reply,
            cites,
        },
    }))
}
