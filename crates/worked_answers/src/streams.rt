// What is told of sources and sinks.

ghost use Rattle.worked_answers.specs.Streams.{CountsAreTold, PartsAreTold, TakingIsTold};

/// A count of faults that stands still rose only at its type's end; no call lets it fall, and none fails without it.
pub fn counts_are_told()
    ensures { CountsAreTold }
{}

/// A text that is no beginning of another is no part of it, and a part stands behind what the sink held.
pub fn parts_are_told()
    ensures { PartsAreTold }
{}

/// What is taken of a source stood at its front, and ends with it or one byte past the limit.
pub fn taking_is_told()
    ensures { TakingIsTold }
{}
