// What the restores of the open cycle's candidates have answered.

ghost use Rattle.std.specs.Prelude.{◌≡◌, ◌+◌, ◌<◌, ◌↔◌, IsTrue, IfOk, All, replicate, slice_get, None, Some};
ghost use Rattle.std.specs.Option.{option_map};
ghost use Rattle.joint_machine.specs.Run.{answered_for};
ghost use Rattle.joint_replay.specs.Answers.{said_as, answers_as, handle_in, put_where, renew_one, renewed_by, IsGiven};
ghost use Rattle.joint_replay.specs.Answers.{IsMissing};

use crate::managed::ManagedPart;
use std::alloc::{AllocError, Global};

/// What a candidate's restore answered: alive, with the handle that it gave, or cleared.
#[derive(Clone, Copy)]
pub(crate) enum Said {
    Alive(u32),
    Cleared,
}

/// No answers yet, for so many candidates. Answers `AllocError` where there is no memory.
pub(crate) fn waiting(alloc: Global, count: usize) -> Result<Vec<Option<Said>>, AllocError>
    ensures { IfOk result (λ v. answers_as v.items ≡ replicate count None) }
{
    let mut answers = Vec::new(alloc);
    for i in 0..count {
        let _place = i;
        answers.push(None)?;
    }
    Ok(answers)
}

/// Whether each candidate has had its restore.
pub(crate) fn are_given(answers: &[Option<Said>]) -> bool
    ensures { IsTrue result ↔ All IsGiven answers.now }
{
    answers.iter().all(|a| is_given(*a))
}

/// Whether none has.
pub(crate) fn are_missing(answers: &[Option<Said>]) -> bool
    ensures { IsTrue result ↔ All IsMissing answers.now }
{
    answers.iter().all(|a| is_missing(*a))
}

fn is_given(a: Option<Said>) -> bool
    ensures { IsTrue result ↔ IsGiven a }
{
    match a {
        None => false,
        Some(_) => true,
    }
}

fn is_missing(a: Option<Said>) -> bool
    ensures { IsTrue result ↔ IsMissing a }
{
    match a {
        None => true,
        Some(_) => false,
    }
}

/// Each candidate of a list that holds handle `h` has had that answer.
pub(crate) fn answer_each(
    managed: &ManagedPart,
    candidates: &[u32],
    h: u32,
    said: Said,
    answers: &mut Vec<Option<Said>>,
)
    ensures { answers_as answers.new.items ≡ answered_for managed.now h
        (said_as said) candidates.now (answers_as answers.old.items) }
{
    for i in 0..candidates.len() {
        put_answer(managed.gives(candidates[i], h), i, said, answers);
    }
}

// The answer at a place, where it is wanted and there is such a place.
fn put_answer(wanted: bool, i: usize, said: Said, answers: &mut Vec<Option<Said>>)
    ensures { answers_as answers.new.items ≡ put_where wanted (answers_as answers.old.items) i (said_as said) }
{
    if wanted && i < answers.len() {
        answers[i] = Some(said);
    }
}

/// Each candidate that was answered alive holds the handle that its restore gave.
pub(crate) fn renew_each(candidates: &[u32], answers: &[Option<Said>], held: &mut Vec<Option<u32>>)
    ensures { held.new.items ≡ renewed_by held.old.items candidates.now (answers_as answers.now) }
{
    for i in 0..candidates.len() {
        renew_row(candidates[i], given_at(answers, i), held);
    }
}

// The handle that the answer at a place gave.
fn given_at(answers: &[Option<Said>], i: usize) -> Option<u32>
    ensures { result ≡ handle_in (slice_get (answers_as answers.now) i) }
{
    if i < answers.len() {
        given_by(answers[i])
    } else {
        None
    }
}

// The handle that an answer gave.
fn given_by(answer: Option<Said>) -> Option<u32>
    ensures { result ≡ handle_in (Some (option_map said_as answer)) }
{
    match answer {
        Some(Said::Alive(h)) => Some(h),
        _ => None,
    }
}

// An object holds that handle, if there is one.
fn renew_row(m: u32, back: Option<u32>, held: &mut Vec<Option<u32>>)
    ensures { held.new.items ≡ renew_one held.old.items m back }
{
    if let Some(h) = back {
        if m != 0 && m as usize <= held.len() {
            held[m as usize - 1] = Some(h);
        }
    }
}
