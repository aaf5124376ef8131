// The check: entry by entry.

ghost use Rattle.std.specs.Prelude.{◌≡◌, ◌↔◌, [], IfOk, List};
ghost use Rattle.joint_machine.specs.Told.{Noted};
ghost use Rattle.check_laws.specs.Knows.{AreKnown};
ghost use Rattle.run_check.specs.Follows.{Follows};
ghost use Rattle.run_check.specs.Judging.{FindsSoFar, GoesOnFrom, IsFoundAtEnd, IsWalked};
ghost use Rattle.joint_model.specs.Leaders.{entry_of as entry_at};
ghost use Rattle.joint_machine.specs.LinkedHistories.{IsLinked};
ghost use Rattle.check_laws.specs.Found.{as_named};
ghost use Rattle.check_laws.specs.Findings.{HasSoundAndCompleteRun, IsFinding};

use crate::named::is_named;
use crate::replays::Replay;
use check_laws::{Finding, Why};
use joint_model::{Entry, History, Step};
use std::alloc::{AllocError, Global};

// The entry that a walk came to.
fn entry_of(step: &Step) -> Entry
    ensures { result ≡ entry_at step.now }
{
    match step {
        Step::Kept(packed) => packed.unpack(),
        Step::Spelled(entry) => *entry,
    }
}

// The most entries that are judged: more than any history has, since none has as many as 2^34.
const MOST: u64 = 1 << 62;

// Judges the entry that comes with that number. (A history's entry has the number of its place, which no clause of a
// history says, so it is looked at here; and a caller or an event that no entry can name is nobody's turn.)
fn judge_next(
    replay: &mut Replay,
    h: &History,
    entry: &Entry,
    number: u64,
) -> Result<Option<Why>, AllocError>
    requires { (past : List Noted) × IsWalked h.now past replay.old number }
    ensures { IfOk result (λ why. GoesOnFrom h.now entry.now replay.old replay.new number why) }
{
    if entry.number != number || number >= MOST {
        return Err(AllocError);
    }
    if !is_named(entry.made.caller, &entry.made.op) {
        return Ok(Some(Why::Caller));
    }
    replay.judge(h, entry)
}

// Judges the entries of a history one after another: None where all are in order, and else what is found.
fn judge_all(replay: &mut Replay, h: &History) -> Result<Option<Finding>, AllocError>
    requires { Follows [] replay.old }
    ensures { IfOk result (λ f. FindsSoFar h.now replay.new f) }
{
    let mut walk = h.walk();
    let mut number = 0;
    while let Some(step) = walk.next() {
        let entry = entry_of(&step);
        if let Some(why) = judge_next(replay, h, &entry, number)? {
            return Ok(Some(Finding::Illegal { entry: number, why }));
        }
        number += 1;
    }
    Ok(None)
}

// What is found where all entries are in order.
fn found_at_end(replay: &Replay) -> Finding
    ensures { (past : List Noted) → AreKnown past → Follows past replay.now → IsFoundAtEnd past result }
{
    if replay.is_whole() {
        Finding::Legal
    } else {
        Finding::Unfinished
    }
}

// What the history is found to be, by a replay before its first entry.
fn found_in(replay: &mut Replay, h: &History) -> Result<Finding, AllocError>
    requires { Follows [] replay.old }
    ensures found { IfOk result (λ f. IsFinding h.now f) }
    ensures legal { IfOk result (λ f. (f ≡ Finding.Legal) ↔ IsLinked (as_named h.now)) }
    ensures run { IfOk result (λ f. f ≡ Finding.Legal → HasSoundAndCompleteRun (as_named h.now)) }
{
    match judge_all(replay, h)? {
        Some(found) => Ok(found),
        None => Ok(found_at_end(replay)),
    }
}

/// What the history is: legal, illegal at the first entry that isn't in order behind those before it, or unfinished.
/// Answers `AllocError` where there is no memory; also where the components of a cycle's dead part, with their members
/// and cross-references, are more than 4,294,967,295 together.
pub fn check(alloc: Global, h: &History) -> Result<Finding, AllocError>
    ensures found { IfOk result (λ f. IsFinding h.now f) }
    ensures legal { IfOk result (λ f. (f ≡ Finding.Legal) ↔ IsLinked (as_named h.now)) }
    ensures run { IfOk result (λ f. f ≡ Finding.Legal → HasSoundAndCompleteRun (as_named h.now)) }
{
    let mut replay = Replay::new(alloc)?;
    let found = found_in(&mut replay, h);
    drop(replay);
    found
}
