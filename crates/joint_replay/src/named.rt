// The lists of a history that the spans of its replies name.

ghost use Rattle.std.specs.Prelude.{◌≡◌, ℕ, ◌+◌, ◌<◌, ◌≤◌, IfOk, MatchOption, length, take, drop};
ghost use Rattle.joint_machine.specs.Histories.{managed_numbers, peer_numbers, stretch};

use joint_model::{History, Span};
use std::alloc::{AllocError, Global};

/// The managed objects that a span names in the history's list of freed ones; None exactly where the span doesn't lie
/// in the list. Answers `AllocError` where there is no memory, and where a place past 4,294,967,295 is asked for, since
/// no list is so long.
pub(crate) fn freed_objects(
    alloc: Global,
    h: &History,
    span: Span,
) -> Result<Option<Vec<u32>>, AllocError>
    ensures { IfOk result (λ o. MatchOption o
        (length (managed_numbers (stretch h.now.freed_managed span)) ≡ span.count → ⊥)
        (λ v. (v.items ≡ managed_numbers (stretch h.now.freed_managed span)) × (length v.items ≡ span.count))) }
{
    let mut numbers = Vec::new(alloc);
    for i in 0..span.count {
        if span.first > u32::MAX - i {
            return Err(AllocError);
        }
        match h.freed_managed(span.first + i) {
            None => return Ok(None),
            Some(m) => numbers.push(m.0)?,
        }
    }
    Ok(Some(numbers))
}

/// The peers that a span names in the history's list of freed ones; None exactly where the span doesn't lie in
/// the list. Answers `AllocError` where there is no memory, and where a place past 4,294,967,295 is asked for, since no
/// list is so long.
pub(crate) fn freed_peers(
    alloc: Global,
    h: &History,
    span: Span,
) -> Result<Option<Vec<u32>>, AllocError>
    ensures { IfOk result (λ o. MatchOption o (length (peer_numbers (stretch h.now.freed_peers span)) ≡ span.count → ⊥)
        (λ v. (v.items ≡ peer_numbers (stretch h.now.freed_peers span)) × (length v.items ≡ span.count))) }
{
    let mut numbers = Vec::new(alloc);
    for i in 0..span.count {
        if span.first > u32::MAX - i {
            return Err(AllocError);
        }
        match h.freed_peer(span.first + i) {
            None => return Ok(None),
            Some(p) => numbers.push(p.0)?,
        }
    }
    Ok(Some(numbers))
}
