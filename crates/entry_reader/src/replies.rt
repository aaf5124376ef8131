// The replies of lines, each with what stands behind it to the end of its line.

ghost use Rattle.std.specs.Prelude.{◌≡◌, ◌≢◌, ◌<◌, ◌^◌, ◌++◌, [], ◌∷◌, ℕ, Option, MatchOption, codes, decimal};
ghost use Rattle.joint_machine.specs.declared.names.Phase.{Phase};
ghost use Rattle.joint_machine.specs.declared.events.Reply.{Reply};
ghost use Rattle.history_report.specs.Report.{managed_text, peer_text, phase_text, reply_words, cite_words};
ghost use Rattle.entry_reader.specs.Fitting.{Short, FitsReply, FitsCites};
ghost use Rattle.entry_reader.specs.Replies.{IsPlain, IsManaged, IsPeer, IsHandle, IsKeyed, IsCount, IsNew, IsHeld};
ghost use Rattle.entry_reader.specs.Replies.{IsComponents, IsCounted, Ends, EndsAs};

use crate::events::sort;
use crate::numbers::{handle, managed, peer, short};
use joint_machine::{Cycle, MNum, Marking, PNum, Phase, Reply};
use text_words::{Words, is_same, number};

/// A reply, and the entry that its line cites.
pub type Tail = (Reply, Option<u64>);

// The entry that a word cites: `@12`.
fn cited(word: &[u8]) -> Option<u64>
    ensures { MatchOption result ((n : ℕ) → n < 2 ^ 64 → 64 ∷ decimal n ≢ word.now)
        (λ n. (n < 2 ^ 64) × (64 ∷ decimal n ≡ word.now)) }
{
    if word.is_empty() || word[0] != b'@' {
        return None;
    }
    let n = number(&word[1..])?;
    Some(n)
}

/// What stands behind a reply: the entry that is cited, or nothing. None where it is something else.
pub fn read_cites(words: &mut Words) -> Option<Option<u64>>
    ensures { MatchOption result ((c : Option ℕ) → FitsCites c → words.old ≢ cite_words c)
        (λ c. FitsCites c × (words.old ≡ cite_words c)) }
{
    let Some(word) = words.next() else {
        return Some(None);
    };
    let n = cited(word)?;
    if words.is_empty() {
        Some(Some(n))
    } else {
        None
    }
}

// The reply, where the line ends behind it.
fn end_of(reply: Reply, words: &mut Words) -> Option<Tail>
    ensures { EndsAs reply words.old result }
{
    Some((reply, read_cites(words)?))
}

// The reply that is this one word, and always the same.
fn plain_reply(word: &[u8]) -> Option<Reply>
    ensures { MatchOption result ((r : Reply) → IsPlain r → reply_words r ≢ word.now ∷ [])
        (λ r. IsPlain r × (reply_words r ≡ word.now ∷ [])) }
{
    if is_same(word, b"ok") {
        return Some(Reply::Ok);
    }
    if is_same(word, b"empty") {
        return Some(Reply::Empty);
    }
    if is_same(word, b"range") {
        return Some(Reply::Range);
    }
    if is_same(word, b"null") {
        return Some(Reply::Null);
    }
    if is_same(word, b"taken") {
        return Some(Reply::Taken);
    }
    if is_same(word, b"gone") {
        return Some(Reply::Gone);
    }
    if is_same(word, b"unset") {
        return Some(Reply::Unset);
    }
    if is_same(word, b"full") {
        return Some(Reply::Full);
    }
    if is_same(word, b"plain") {
        return Some(Reply::Plain);
    }
    if is_same(word, b"nomark") {
        return Some(Reply::NoMark);
    }
    if is_same(word, b"more") {
        return Some(Reply::More);
    }
    if is_same(word, b"done") {
        return Some(Reply::Done);
    }
    if is_same(word, b"cleared") {
        return Some(Reply::Cleared);
    }
    None
}

/// The words that are left as a reply of one word that is always the same.
pub fn plain_tail(words: &Words) -> Option<Tail>
    ensures { Ends IsPlain words.now result }
{
    let mut words = words.fork();
    let reply = plain_reply(words.next()?)?;
    end_of(reply, &mut words)
}

// What stands behind a managed object as the word that says what it is.
fn named_tail(m: MNum, words: &mut Words) -> Option<Tail>
    requires { Short m.0 }
    ensures { Ends (IsNew m) (managed_text m ∷ words.old) result }
{
    let word = words.next()?;
    if is_same(word, b"new") {
        return end_of(Reply::New(m), words);
    }
    if !is_same(word, b"twin") {
        return None;
    }
    end_of(Reply::Twin(m), words)
}

/// The words that are left as a reply that names a managed object.
pub fn managed_tail(words: &Words) -> Option<Tail>
    ensures { Ends IsManaged words.now result }
{
    let mut words = words.fork();
    let m = managed(words.next()?)?;
    if let Some(tail) = end_of(Reply::M(m), &mut words.fork()) {
        return Some(tail);
    }
    named_tail(m, &mut words)
}

// A number of a byte that a word writes.
fn byte(word: &[u8]) -> Option<u8>
    ensures { MatchOption result ((n : ℕ) → n < 2 ^ 8 → decimal n ≢ word.now)
        (λ n. (n < 2 ^ 8) × (decimal n ≡ word.now)) }
{
    let n = number(word)?;
    if n <= 255 { Some(n as u8) } else { None }
}

// What stands behind a peer as its handle, and as the sort and the number of fields of its class where these follow.
fn held_tail(p: PNum, words: &mut Words) -> Option<Tail>
    requires { Short p.0 }
    ensures { Ends (IsHeld p) (peer_text p ∷ words.old) result }
{
    let h = handle(words.next()?)?;
    if let Some(tail) = end_of(Reply::Made(p, h), &mut words.fork()) {
        return Some(tail);
    }
    let sort = sort(words.next()?)?;
    let n = byte(words.next()?)?;
    end_of(Reply::Gripped(p, h, sort, n), words)
}

/// The words that are left as a reply that names a peer first.
pub fn peer_tail(words: &Words) -> Option<Tail>
    ensures { Ends IsPeer words.now result }
{
    let mut words = words.fork();
    let p = peer(words.next()?)?;
    if let Some(tail) = end_of(Reply::P(p), &mut words.fork()) {
        return Some(tail);
    }
    held_tail(p, &mut words)
}

/// The words that are left as a reply that is a handle.
pub fn handle_tail(words: &Words) -> Option<Tail>
    ensures { Ends IsHandle words.now result }
{
    let mut words = words.fork();
    let h = handle(words.next()?)?;
    end_of(Reply::H(h), &mut words)
}

// The phase that a word names.
fn phase(word: &[u8]) -> Option<Phase>
    ensures { MatchOption result ((p : Phase) → phase_text p ≢ word.now) (λ p. phase_text p ≡ word.now) }
{
    if is_same(word, b"idle") {
        return Some(Phase::Idle);
    }
    if is_same(word, b"snapped") {
        return Some(Phase::Snapped);
    }
    if is_same(word, b"contracted") {
        return Some(Phase::Contracted);
    }
    if is_same(word, b"mirrored") {
        return Some(Phase::Mirrored);
    }
    if is_same(word, b"weakened") {
        return Some(Phase::Weakened);
    }
    if is_same(word, b"marked") {
        return Some(Phase::Marked);
    }
    if is_same(word, b"swept") {
        return Some(Phase::Swept);
    }
    if is_same(word, b"restored") {
        return Some(Phase::Restored);
    }
    None
}

// The reply of these two words, the first of which tells what the second one is.
fn keyed_reply(key: &[u8], word: &[u8]) -> Option<Reply>
    ensures { MatchOption result ((r : Reply) → IsKeyed r → FitsReply r → reply_words r ≢ key.now ∷ word.now ∷ [])
        (λ r. IsKeyed r × FitsReply r × (reply_words r ≡ key.now ∷ word.now ∷ [])) }
{
    if is_same(key, b"pending") {
        return Some(Reply::Pending(Cycle(short(word)?)));
    }
    if is_same(key, b"pinned") {
        return Some(Reply::Pinned(managed(word)?));
    }
    if is_same(key, b"marking") {
        return Some(Reply::MarkOpen(Marking(short(word)?)));
    }
    if is_same(key, b"open") {
        return Some(Reply::CycleOpen(Cycle(short(word)?)));
    }
    if is_same(key, b"at") {
        return Some(Reply::At(phase(word)?));
    }
    if is_same(key, b"alive") {
        return Some(Reply::Renewed(handle(word)?));
    }
    None
}

/// The words that are left as a reply whose first word tells what the second one is.
pub fn keyed_tail(words: &Words) -> Option<Tail>
    ensures { Ends IsKeyed words.now result }
{
    let mut words = words.fork();
    let key = words.next()?;
    let word = words.next()?;
    let reply = keyed_reply(key, word)?;
    end_of(reply, &mut words)
}

// What stands behind a number of components: the number of cross-references.
fn components_tail(n: u32, words: &mut Words) -> Option<Tail>
    ensures { Ends (IsComponents n) (decimal n ∷ codes "sccs" ∷ words.old) result }
{
    let m = short(words.next()?)?;
    if !is_same(words.next()?, b"xrefs") {
        return None;
    }
    end_of(Reply::Sccs(n, m), words)
}

// What stands behind a number as what it counts.
fn counted_tail(n: u32, words: &mut Words) -> Option<Tail>
    ensures { Ends (IsCounted n) (decimal n ∷ words.old) result }
{
    let word = words.next()?;
    if is_same(word, b"refs") {
        return end_of(Reply::Refs(n), words);
    }
    if !is_same(word, b"sccs") {
        return None;
    }
    components_tail(n, words)
}

/// The words that are left as a reply that begins with a number and has no list.
pub fn count_tail(words: &Words) -> Option<Tail>
    ensures { Ends IsCount words.now result }
{
    let mut words = words.fork();
    let n = short(words.next()?)?;
    if let Some(tail) = end_of(Reply::Mark(Marking(n)), &mut words.fork()) {
        return Some(tail);
    }
    counted_tail(n, &mut words)
}
