// The event of a line.

ghost use Rattle.std.specs.Prelude.{⊤, ◌≡◌, ◌≢◌, ◌<◌, ◌≤◌, ℕ, ◌++◌, [], ◌∷◌, codes, List, MatchOption, MatchBool};
ghost use Rattle.std.specs.Prelude.{decimal};
ghost use Rattle.joint_machine.specs.declared.lines.Act.{Act};
ghost use Rattle.joint_machine.specs.declared.names.PNum.{PNum};
ghost use Rattle.joint_machine.specs.declared.names.HNum.{HNum};
ghost use Rattle.joint_machine.specs.declared.names.Cycle.{Cycle};
ghost use Rattle.joint_machine.specs.declared.names.StaticNo.{StaticNo};
ghost use Rattle.joint_machine.specs.declared.names.Sort.{Sort};
ghost use Rattle.joint_machine.specs.declared.names.Kind.{Kind};
ghost use Rattle.joint_machine.specs.declared.names.PhaseWord.{PhaseWord};
ghost use Rattle.joint_machine.specs.Lines.{IsThread, IsVar, IsLine, IsOneEvent, IsAdoptable};
ghost use Rattle.bridge_script.specs.Words.{var_text, peer_static as peer_static_text, kind_text, sort_text};
ghost use Rattle.bridge_script.specs.Words.{phase_word_text, act_words};
ghost use Rattle.history_report.specs.Report.{peer_text, handle_text, event_words};
ghost use Rattle.entry_reader.specs.Fitting.{Short};
ghost use Rattle.entry_reader.specs.Taking.{Takes};
ghost use Rattle.entry_reader.specs.declared.events.EventWord.{EventWord};
ghost use Rattle.entry_reader.specs.Events.{IsEventOf, IsLineEvent, IsOfCycle, IsOfHandle, IsReadable, IsStep, others};
ghost use Rattle.entry_reader.specs.Events.{step_words, with_cycle, with_handle, word_text};

use crate::numbers::{handle, peer, short};
use bridge_script::{peer_static, take_act, var};
use joint_machine::{Act, Cycle, HNum, Kind, Op, PNum, PhaseWord, Sort, StaticNo, Thread, Var};
use text_words::{Words, is_same, number};

/// The sort that a word names.
pub fn sort(word: &[u8]) -> Option<Sort>
    ensures { MatchOption result ((s : Sort) → sort_text s ≢ word.now) (λ s. sort_text s ≡ word.now) }
{
    if is_same(word, b"user") {
        return Some(Sort::User);
    }
    if is_same(word, b"framework") {
        return Some(Sort::Framework);
    }
    None
}

// The kind that a word names.
fn kind(word: &[u8]) -> Option<Kind>
    ensures { MatchOption result ((k : Kind) → kind_text k ≢ word.now) (λ k. kind_text k ≡ word.now) }
{
    if is_same(word, b"plain") {
        return Some(Kind::Plain);
    }
    if is_same(word, b"leaf") {
        return Some(Kind::Leaf);
    }
    if is_same(word, b"bridge") {
        return Some(Kind::Bridge);
    }
    if is_same(word, b"leafbridge") {
        return Some(Kind::LeafBridge);
    }
    None
}

// The word of a line of thread `c` that a word is.
fn phase_word(word: &[u8]) -> Option<PhaseWord>
    ensures { MatchOption result ((w : PhaseWord) → phase_word_text w ≢ word.now) (λ w. phase_word_text w ≡ word.now) }
{
    if is_same(word, b"cycle") {
        return Some(PhaseWord::Cycle);
    }
    if is_same(word, b"snap") {
        return Some(PhaseWord::Snap);
    }
    if is_same(word, b"contract") {
        return Some(PhaseWord::Contract);
    }
    if is_same(word, b"mirror") {
        return Some(PhaseWord::Mirror);
    }
    if is_same(word, b"weaken") {
        return Some(PhaseWord::Weaken);
    }
    if is_same(word, b"mark") {
        return Some(PhaseWord::Mark);
    }
    if is_same(word, b"sweep") {
        return Some(PhaseWord::Sweep);
    }
    if is_same(word, b"restore") {
        return Some(PhaseWord::Restore);
    }
    if is_same(word, b"resolve") {
        return Some(PhaseWord::Resolve);
    }
    None
}

// A number of fields, up to 16.
fn fields(word: &[u8]) -> Option<u8>
    ensures { MatchOption result ((n : ℕ) → n ≤ 16 → decimal n ≢ word.now) (λ n. (n ≤ 16) × (decimal n ≡ word.now)) }
{
    let n = number(word)?;
    if n <= 16 { Some(n as u8) } else { None }
}

// Whether an object of the kind that is adopted can have so many fields, of up to 16.
fn is_adoptable(kind: Kind, fields: u8) -> bool
    requires { fields ≤ 16 }
    ensures { MatchBool result (IsAdoptable kind fields) (IsAdoptable kind fields → ⊥) }
{
    fields == 0 || !matches!(kind, Kind::LeafBridge)
}

fn take_var(words: &mut Words) -> Option<Var>
    ensures { Takes IsVar (λ v. var_text v ∷ []) words.old words.new result }
{
    var(words.next()?)
}

fn take_static(words: &mut Words) -> Option<StaticNo>
    ensures { Takes (λ (x : StaticNo). x.0 < 16) (λ x. peer_static_text x ∷ []) words.old words.new result }
{
    peer_static(words.next()?)
}

fn take_peer(words: &mut Words) -> Option<PNum>
    ensures { Takes (λ (p : PNum). Short p.0) (λ p. peer_text p ∷ []) words.old words.new result }
{
    peer(words.next()?)
}

fn take_handle(words: &mut Words) -> Option<HNum>
    ensures { Takes (λ (h : HNum). Short h.0) (λ h. handle_text h ∷ []) words.old words.new result }
{
    handle(words.next()?)
}

fn take_cycle(words: &mut Words) -> Option<Cycle>
    ensures { Takes (λ (k : Cycle). Short k.0) (λ k. decimal k.0 ∷ []) words.old words.new result }
{
    Some(Cycle(short(words.next()?)?))
}

fn take_sort(words: &mut Words) -> Option<Sort>
    ensures { Takes (λ (s : Sort). ⊤) (λ s. sort_text s ∷ []) words.old words.new result }
{
    sort(words.next()?)
}

fn take_fields(words: &mut Words) -> Option<u8>
    ensures { Takes (λ (n : ℕ). n ≤ 16) (λ n. decimal n ∷ []) words.old words.new result }
{
    fields(words.next()?)
}

fn take_kind(words: &mut Words) -> Option<Kind>
    ensures { Takes (λ (k : Kind). ⊤) (λ k. kind_text k ∷ []) words.old words.new result }
{
    kind(words.next()?)
}

fn take_phase_word(words: &mut Words) -> Option<PhaseWord>
    ensures { Takes (λ (w : PhaseWord). ⊤) (λ w. phase_word_text w ∷ []) words.old words.new result }
{
    phase_word(words.next()?)
}

// The word of an event that is no line's.
#[derive(Clone, Copy)]
enum EventWord {
    Make,
    Adopt,
    Lend,
    Land,
    Grip,
    Meet,
    Give,
    Release,
    Snap,
    Contract,
    Mirror,
    Weaken,
    Begin,
    Sweep,
    Restore,
    Clear,
    Resolve,
    Abandon,
    Refused,
}

// The event that a word names, but for those of lines.
fn event_word(word: &[u8]) -> Option<EventWord>
    ensures { MatchOption result ((w : EventWord) → word_text w ≢ word.now) (λ w. word_text w ≡ word.now) }
{
    if is_same(word, b"make") {
        return Some(EventWord::Make);
    }
    if is_same(word, b"adopt") {
        return Some(EventWord::Adopt);
    }
    if is_same(word, b"lend") {
        return Some(EventWord::Lend);
    }
    if is_same(word, b"land") {
        return Some(EventWord::Land);
    }
    if is_same(word, b"grip") {
        return Some(EventWord::Grip);
    }
    if is_same(word, b"meet") {
        return Some(EventWord::Meet);
    }
    if is_same(word, b"give") {
        return Some(EventWord::Give);
    }
    if is_same(word, b"release") {
        return Some(EventWord::Release);
    }
    if is_same(word, b"snap") {
        return Some(EventWord::Snap);
    }
    if is_same(word, b"contract") {
        return Some(EventWord::Contract);
    }
    if is_same(word, b"mirror") {
        return Some(EventWord::Mirror);
    }
    if is_same(word, b"weaken") {
        return Some(EventWord::Weaken);
    }
    if is_same(word, b"begin") {
        return Some(EventWord::Begin);
    }
    if is_same(word, b"sweep") {
        return Some(EventWord::Sweep);
    }
    if is_same(word, b"restore") {
        return Some(EventWord::Restore);
    }
    if is_same(word, b"clear") {
        return Some(EventWord::Clear);
    }
    if is_same(word, b"resolve") {
        return Some(EventWord::Resolve);
    }
    if is_same(word, b"abandon") {
        return Some(EventWord::Abandon);
    }
    if is_same(word, b"refused") {
        return Some(EventWord::Refused);
    }
    None
}

// What stands behind `make`.
fn take_make(words: &mut Words) -> Option<Op>
    ensures { Takes (IsEventOf EventWord.Make) others words.old words.new result }
{
    let sort = take_sort(words)?;
    let fields = take_fields(words)?;
    Some(Op::Make { sort, fields })
}

// What stands behind `adopt`.
fn take_adopt(words: &mut Words) -> Option<Op>
    ensures { Takes (IsEventOf EventWord.Adopt) others words.old words.new result }
{
    let v = take_var(words)?;
    let kind = take_kind(words)?;
    let fields = take_fields(words)?;
    let p = take_peer(words)?;
    let h = take_handle(words)?;
    if !is_adoptable(kind, fields) {
        return None;
    }
    Some(Op::Adopt {
        v,
        kind,
        fields,
        p,
        h,
    })
}

// What stands behind `lend`.
fn take_lend(words: &mut Words) -> Option<Op>
    ensures { Takes (IsEventOf EventWord.Lend) others words.old words.new result }
{
    let v = take_var(words)?;
    let x = take_static(words)?;
    Some(Op::Lend { v, x })
}

// What stands behind `land`.
fn take_land(words: &mut Words) -> Option<Op>
    ensures { Takes (IsEventOf EventWord.Land) others words.old words.new result }
{
    let h = take_handle(words)?;
    let x = take_static(words)?;
    Some(Op::Land { h, x })
}

// What stands behind `grip`.
fn take_grip(words: &mut Words) -> Option<Op>
    ensures { Takes (IsEventOf EventWord.Grip) others words.old words.new result }
{
    let x = take_static(words)?;
    Some(Op::Grip { x })
}

// What stands behind `meet`.
fn take_meet(words: &mut Words) -> Option<Op>
    ensures { Takes (IsEventOf EventWord.Meet) others words.old words.new result }
{
    let v = take_var(words)?;
    let p = take_peer(words)?;
    let h = take_handle(words)?;
    let sort = take_sort(words)?;
    let fields = take_fields(words)?;
    Some(Op::Meet {
        v,
        sort,
        fields,
        p,
        h,
    })
}

// What stands behind `give`.
fn take_give(words: &mut Words) -> Option<Op>
    ensures { Takes (IsEventOf EventWord.Give) others words.old words.new result }
{
    let v = take_var(words)?;
    Some(Op::Give { v })
}

// What stands behind `refused`.
fn take_refused(words: &mut Words) -> Option<Op>
    ensures { Takes (IsEventOf EventWord.Refused) others words.old words.new result }
{
    let word = take_phase_word(words)?;
    Some(Op::Refused { word })
}

// The event of that word with a handle; None where it has none.
fn with_handle(word: EventWord, h: HNum) -> Option<Op>
    ensures { result ≡ with_handle word h }
{
    match word {
        EventWord::Release => Some(Op::Release { h }),
        EventWord::Weaken => Some(Op::Weaken { h }),
        EventWord::Restore => Some(Op::Restore { h }),
        _ => None,
    }
}

// The event of that word with a cycle; None where it has none.
fn with_cycle(word: EventWord, cycle: Cycle) -> Option<Op>
    ensures { result ≡ with_cycle word cycle }
{
    match word {
        EventWord::Snap => Some(Op::Snap { cycle }),
        EventWord::Contract => Some(Op::Contract { cycle }),
        EventWord::Mirror => Some(Op::Mirror { cycle }),
        EventWord::Clear => Some(Op::Clear { cycle }),
        EventWord::Resolve => Some(Op::Resolve { cycle }),
        EventWord::Abandon => Some(Op::Abandon { cycle }),
        _ => None,
    }
}

// The handle behind the word of an event that has no more.
fn take_of_handle(word: EventWord, words: &mut Words) -> Option<Op>
    requires { IsOfHandle word }
    ensures { Takes (IsEventOf word) others words.old words.new result }
{
    let h = take_handle(words)?;
    with_handle(word, h)
}

// The cycle behind the word of an event that has no more.
fn take_of_cycle(word: EventWord, words: &mut Words) -> Option<Op>
    requires { IsOfCycle word }
    ensures { Takes (IsEventOf word) others words.old words.new result }
{
    let cycle = take_cycle(words)?;
    with_cycle(word, cycle)
}

// The event of that word, which was taken: what stands behind it.
fn event_of(word: EventWord, words: &mut Words) -> Option<Op>
    ensures { Takes (IsEventOf word) others words.old words.new result }
{
    match word {
        EventWord::Make => take_make(words),
        EventWord::Adopt => take_adopt(words),
        EventWord::Lend => take_lend(words),
        EventWord::Land => take_land(words),
        EventWord::Grip => take_grip(words),
        EventWord::Meet => take_meet(words),
        EventWord::Give => take_give(words),
        EventWord::Refused => take_refused(words),
        EventWord::Begin => Some(Op::Begin),
        EventWord::Sweep => Some(Op::Sweep),
        EventWord::Release | EventWord::Weaken | EventWord::Restore => take_of_handle(word, words),
        EventWord::Snap
        | EventWord::Contract
        | EventWord::Mirror
        | EventWord::Clear
        | EventWord::Resolve
        | EventWord::Abandon => take_of_cycle(word, words),
    }
}

// Whether the operation is one event.
fn is_one_event(act: &Act) -> bool
    ensures { MatchBool result (IsOneEvent act.now) (IsOneEvent act.now → ⊥) }
{
    !matches!(
        act,
        Act::Bridge { .. }
            | Act::Pass { .. }
            | Act::Surface { .. }
            | Act::Dispose { .. }
            | Act::Collect
            | Act::BeginMark
            | Act::SweepMark
            | Act::PhaseLine { .. }
    )
}

// Takes the word `=`.
fn take_equals(words: &mut Words) -> Option<()>
    ensures { Takes (λ (u : ⊤). ⊤) (λ u. codes "=" ∷ []) words.old words.new result }
{
    if is_same(words.next()?, b"=") {
        Some(())
    } else {
        None
    }
}

// Takes the event of a line of the thread that is one event, and the equals sign.
fn take_line(thread: Thread, words: &mut Words) -> Option<Op>
    requires { IsThread thread }
    ensures { Takes (λ o. IsLineEvent thread o)
        (λ o. event_words thread o ++ codes "=" ∷ []) words.old words.new result }
{
    let act = take_act(thread, words)?;
    if !is_one_event(&act) {
        return None;
    }
    take_equals(words)?;
    Some(Op::Line(act))
}

// Takes an event that is no line's, and the equals sign.
fn take_step(words: &mut Words) -> Option<Op>
    ensures { Takes IsStep (λ o. step_words o ++ codes "=" ∷ []) words.old words.new result }
{
    let word = event_word(words.next()?)?;
    let op = event_of(word, words)?;
    take_equals(words)?;
    Some(op)
}

// Takes an event that thread `c` can name, and the equals sign. Nearly all of its events are no line's, so these are
// tried first.
fn take_driver_event(words: &mut Words) -> Option<Op>
    ensures { Takes (IsReadable Thread.C) (λ o. event_words Thread.C o ++ codes "=" ∷ []) words.old words.new result }
{
    let all = words.fork();
    if let Some(op) = take_step(words) {
        return Some(op);
    }
    *words = all;
    take_line(Thread::C, words)
}

/// Takes an event that the thread can name, and the equals sign behind it; None where the words that are left don't
/// begin with these.
pub fn take_event(thread: Thread, words: &mut Words) -> Option<Op>
    requires { IsThread thread }
    ensures { Takes (IsReadable thread) (λ o. event_words thread o ++ codes "=" ∷ []) words.old words.new result }
{
    if let Thread::C = thread {
        return take_driver_event(words);
    }
    let mut ahead = words.fork();
    if let Some(op) = take_line(thread, &mut ahead) {
        *words = ahead;
        return Some(op);
    }
    take_step(words)
}
