// The part of a line behind the equals sign: the reply that is meant by the event, its list, and what it cites.

ghost use Rattle.std.specs.Prelude.{[], ◌∷◌, IfOk, MatchBool, codes, decimal};
ghost use Rattle.entry_reader.specs.Fitting.{Short};
ghost use Rattle.entry_reader.specs.Taking.{Takes};
ghost use Rattle.entry_reader.specs.Tailing.{Tails};
ghost use Rattle.entry_reader.specs.Replies.{Ends, IsFinalise, IsFreed, IsSnapped, IsSweep, IsSwept, IsTook};
ghost use Rattle.entry_reader.specs.Replies.{IsUnlisted, TailsListed, TailsMeant, TailsNumbered, TailsUnnoticed};

use crate::lists::NamedLists;
use crate::numbers::short;
use crate::replies::{
    Tail, count_tail, handle_tail, keyed_tail, managed_tail, peer_tail, plain_tail,
};
use joint_machine::{Act, Marking, Op, Reply};
use std::alloc::AllocError;
use text_words::{Words, is_same};

// Whether the event takes notices.
fn takes_notices(op: &Op) -> bool
    ensures { MatchBool result (IsFinalise op.now) (IsFinalise op.now → ⊥) }
{
    matches!(op, Op::Line(Act::Finalise { .. }))
}

// Whether the event is a sweep.
fn is_sweep(op: &Op) -> bool
    ensures { MatchBool result (IsSweep op.now) (IsSweep op.now → ⊥) }
{
    matches!(op, Op::Sweep)
}

// The words that are left as a list of notices.
fn notices_tail(words: &Words, lists: &mut NamedLists) -> Result<Option<Tail>, AllocError>
    ensures { IfOk result (λ found. Tails IsTook words.now lists.old lists.new found) }
{
    match lists.read_notices(&mut words.fork())? {
        Some((span, cites)) => Ok(Some((Reply::Took(span), cites))),
        None => Ok(None),
    }
}

// Takes a number and the word `freed`.
fn take_freed_by(words: &mut Words) -> Option<u32>
    ensures { Takes Short (λ n. decimal n ∷ codes "freed" ∷ []) words.old words.new result }
{
    let n = short(words.next()?)?;
    if is_same(words.next()?, b"freed") {
        Some(n)
    } else {
        None
    }
}

// The words that are left as a number and the managed objects that were freed.
fn snapped_tail(words: &Words, lists: &mut NamedLists) -> Result<Option<Tail>, AllocError>
    ensures { IfOk result (λ found. Tails IsSnapped words.now lists.old lists.new found) }
{
    let mut words = words.fork();
    let Some(n) = take_freed_by(&mut words) else {
        return Ok(None);
    };
    match lists.read_freed(&mut words)? {
        Some((span, cites)) => Ok(Some((Reply::Snapped(n, span), cites))),
        None => Ok(None),
    }
}

// The words that are left as a number and the peers that were freed.
fn swept_tail(words: &Words, lists: &mut NamedLists) -> Result<Option<Tail>, AllocError>
    ensures { IfOk result (λ found. Tails IsSwept words.now lists.old lists.new found) }
{
    let mut words = words.fork();
    let Some(n) = take_freed_by(&mut words) else {
        return Ok(None);
    };
    match lists.read_freed_peers(&mut words)? {
        Some((span, cites)) => Ok(Some((Reply::Swept(Marking(n), span), cites))),
        None => Ok(None),
    }
}

// The words that are left as the managed objects that were freed.
fn freed_tail(words: &Words, lists: &mut NamedLists) -> Result<Option<Tail>, AllocError>
    ensures { IfOk result (λ found. Tails IsFreed words.now lists.old lists.new found) }
{
    let mut words = words.fork();
    let Some(first) = words.next() else {
        return Ok(None);
    };
    if !is_same(first, b"freed") {
        return Ok(None);
    }
    match lists.read_freed(&mut words)? {
        Some((span, cites)) => Ok(Some((Reply::Freed(span), cites))),
        None => Ok(None),
    }
}

// Whether the first word that is left is that of a handle that was replaced by a new one, as nearly every other line of
// a cycle has it.
fn begins_alive(words: &Words) -> bool {
    match words.fork().next() {
        Some(word) => is_same(word, b"alive"),
        None => false,
    }
}

// The words that are left as a reply without a list. Which kind is tried first is of no matter.
fn short_tail(words: &Words) -> Option<Tail>
    ensures { Ends IsUnlisted words.now result }
{
    if begins_alive(words) {
        if let Some(tail) = keyed_tail(words) {
            return Some(tail);
        }
    }
    if let Some(tail) = plain_tail(words) {
        return Some(tail);
    }
    if let Some(tail) = managed_tail(words) {
        return Some(tail);
    }
    if let Some(tail) = peer_tail(words) {
        return Some(tail);
    }
    if let Some(tail) = handle_tail(words) {
        return Some(tail);
    }
    if let Some(tail) = count_tail(words) {
        return Some(tail);
    }
    keyed_tail(words)
}

// The words that are left as a number and a list, of a sweep: as what it freed where that can be, else as what a
// snapshot freed.
fn sweep_tail(op: &Op, words: &Words, lists: &mut NamedLists) -> Result<Option<Tail>, AllocError>
    requires { IsSweep op.now }
    ensures { IfOk result (λ found. TailsNumbered op.now words.now lists.old lists.new found) }
{
    match swept_tail(words, lists)? {
        Some(tail) => Ok(Some(tail)),
        None => snapped_tail(words, lists),
    }
}

// The same of all else: as what a snapshot freed where that can be, else as what a sweep freed.
fn snap_tail(op: &Op, words: &Words, lists: &mut NamedLists) -> Result<Option<Tail>, AllocError>
    requires { IsSweep op.now → ⊥ }
    ensures { IfOk result (λ found. TailsNumbered op.now words.now lists.old lists.new found) }
{
    match snapped_tail(words, lists)? {
        Some(tail) => Ok(Some(tail)),
        None => swept_tail(words, lists),
    }
}

// The words that are left as a number and a list, by the event.
fn numbered_tail(op: &Op, words: &Words, lists: &mut NamedLists) -> Result<Option<Tail>, AllocError>
    ensures { IfOk result (λ found. TailsNumbered op.now words.now lists.old lists.new found) }
{
    if is_sweep(op) {
        sweep_tail(op, words, lists)
    } else {
        snap_tail(op, words, lists)
    }
}

// The words that are left as a reply whose list isn't that of a `finalise`.
fn listed_tail(op: &Op, words: &Words, lists: &mut NamedLists) -> Result<Option<Tail>, AllocError>
    ensures { IfOk result (λ found. TailsListed op.now words.now lists.old lists.new found) }
{
    match freed_tail(words, lists)? {
        Some(tail) => Ok(Some(tail)),
        None => numbered_tail(op, words, lists),
    }
}

// The words that are left as a reply whose list, where it has one, isn't that of a `finalise`.
fn unnoticed_tail(
    op: &Op,
    words: &Words,
    lists: &mut NamedLists,
) -> Result<Option<Tail>, AllocError>
    ensures { IfOk result (λ found. TailsUnnoticed op.now words.now lists.old lists.new found) }
{
    match short_tail(words) {
        Some(tail) => Ok(Some(tail)),
        None => listed_tail(op, words, lists),
    }
}

// The words that are left as a reply to a `finalise`: as a list of notices where that can be.
fn finalise_tail(op: &Op, words: &Words, lists: &mut NamedLists) -> Result<Option<Tail>, AllocError>
    requires { IsFinalise op.now }
    ensures { IfOk result (λ found. TailsMeant op.now words.now lists.old lists.new found) }
{
    match notices_tail(words, lists)? {
        Some(tail) => Ok(Some(tail)),
        None => unnoticed_tail(op, words, lists),
    }
}

// The words that are left as a reply to another event: as a list of notices where they are nothing else.
fn other_tail(op: &Op, words: &Words, lists: &mut NamedLists) -> Result<Option<Tail>, AllocError>
    requires { IsFinalise op.now → ⊥ }
    ensures { IfOk result (λ found. TailsMeant op.now words.now lists.old lists.new found) }
{
    match unnoticed_tail(op, words, lists)? {
        Some(tail) => Ok(Some(tail)),
        None => notices_tail(words, lists),
    }
}

/// The reply of that event, and the entry that the line cites, by the words behind the equals sign. None where no reply
/// has these words. Where two have them, it is the one that is meant by the event. The list that it shows is put behind
/// those before.
pub fn read_tail(op: &Op, words: &Words, lists: &mut NamedLists) -> Result<Option<Tail>, AllocError>
    ensures { IfOk result (λ found. TailsMeant op.now words.now lists.old lists.new found) }
{
    if takes_notices(op) {
        finalise_tail(op, words, lists)
    } else {
        other_tail(op, words, lists)
    }
}
