// Laws for a checker of histories, over the definitions alone: what a history is found to be, and that this is what
// linked histories ask.
//
// A history may come from anywhere. Of each entry three tests are made, in this order: is it its caller's turn, does it
// cite what it has to, and does it answer, free and take what it may. The first entry that fails one is what the
// history is found to be illegal by; where none fails, and nothing has to follow, it is legal, and else unfinished.
//
// `specs/` read alone tells what is true: Order has the three tests in a state, Behind of an entry behind a past, and
// Found what a history is found to be. Laws, Reads, Known, Counts and Knows have the laws on the way:
//
// - the three tests are nothing else than "may come next", and but for refusals what an entry answers is one;
// - what a read may answer over a whole history is told by what stands before it and by the snap that a `pending` waits
//   for, and that by a few counts of managed entries: at a caller's last entry, at a cycle's end, at the setting of a
//   cell;
// - the entries so far are a past that somebody knows, so that what the calls of both sides ask for holds behind them;
// - a history has one finding, and it is legal exactly where it is linked, as far as its replies name its freed lists.
//
// No value is made but a finding, and nothing runs.
#![tactic(auto)]

mod findings;

ghost use Rattle.check_laws.specs.Counts.{ReadsAreCounted};
ghost use Rattle.check_laws.specs.Found.{HistoryHasOneFinding, LegalIsLinked, LinkedRuns, NamesAreLists};
ghost use Rattle.check_laws.specs.Knows.{PastsInOrderAreKnown};
ghost use Rattle.check_laws.specs.Known.{KnownIsCounted, PendingIsOwed, UnknownIsTested};
ghost use Rattle.check_laws.specs.Laws.{OrderIsTested, RepliesAreOne};
ghost use Rattle.check_laws.specs.Reads.{ReaderOrderIsTested, ReadersAreTested};
ghost use Rattle.check_laws.specs.Worked.{HasTwoReplies};

pub use findings::{Finding, Why};

/// The three tests of an entry, that it is its caller's turn, that it cites what it has to, and that its reply is
/// right, are together the one test of linked histories.
pub fn order_is_tested()
    ensures { OrderIsTested }
{}

/// But for a refusal, a reply is a function of what came before, and so is what is told of its entry.
pub fn replies_are_one()
    ensures { RepliesAreOne }
{}

/// What a caller knows of later managed entries is told by two counts.
pub fn known_is_counted()
    ensures { KnownIsCounted }
{}

/// What the rules of `pending` and `unset` ask of a whole history is told by two counts of what stands before the read.
pub fn unknown_is_tested()
    ensures { UnknownIsTested }
{}

/// A `pending` of a cycle that isn't snapped yet is right exactly where the next managed entry is that snap.
pub fn pending_is_owed()
    ensures { PendingIsOwed }
{}

/// After the mirror of a cycle without candidates a word may be refused with either of two replies.
pub fn refusals_have_two_replies()
    ensures { HasTwoReplies }
{}

/// What a reader's entry may answer over a whole history is told by what stands before it, and by the snap that it
/// waits for. Its turn and what it cites are tested as those of any other entry.
pub fn readers_are_tested()
    ensures order { ReaderOrderIsTested }
    ensures replies { ReadersAreTested }
{}

/// What a read may answer that is set aside is told by counts: how many managed entries there were at its caller's last
/// entry, with the end of each cycle, and with the setting of each cell.
pub fn reads_are_counted()
    ensures { ReadsAreCounted }
{}

/// The entries so far, each in order, are a past that somebody knows, with the pins of the state told; and all that
/// every known past keeps holds of the state behind them, but for the pins. So what each call of both sides asks for
/// follows of it, by what a thread has in hand or where the driver stands.
pub fn checked_pasts_are_known()
    ensures { PastsInOrderAreKnown }
{}

/// A history has one finding.
pub fn a_history_has_one_finding()
    ensures { HistoryHasOneFinding }
{}

/// Where all entries are in order, what the replies name of the history's lists is what was freed and taken.
pub fn names_are_lists()
    ensures { NamesAreLists }
{}

/// A history is legal exactly where it is linked, as far as its replies name its freed lists; and its joint projection
/// is then a run, sound and complete.
pub fn legal_is_linked()
    ensures linked { LegalIsLinked }
    ensures runs { LinkedRuns }
{}
