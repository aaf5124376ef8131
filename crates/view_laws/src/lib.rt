// Laws of what a seat of the order knows: its view is a past, which grows and is joined as the order promises, pins'
// words stand, and at the end of a run it is a linked history.
//
// A law is a function with an empty body, whose clauses are statements of `specs/`: Knowing, and ExactReads for reads
// by the owner of the managed list. No value is made, and nothing runs.
#![tactic(auto)]

ghost use Rattle.view_laws.specs.ExactReads.{ExactReadsAreReplies};
ghost use Rattle.view_laws.specs.Knowing.{DrawnViewsGrow, DrawnViewsJoin, FirstIsKnown, OwnLinesAreMadeByCallers};
ghost use Rattle.view_laws.specs.Knowing.{PinsOfViewsStand, SameIsKnown, TargetsAgree, ViewsGrow, ViewsJoin};
ghost use Rattle.view_laws.specs.Knowing.{ViewsSayStates, WholeListsAreJoined, WholeListsAreShuffle, WholeViewIsGated, WholeViewIsLinked};

/// The first seat knows nothing; a seat that makes an entry which may come, takes another seat in, or gives lines away
/// knows a past again, with what was drawn too; and a seat that knows the whole of a finished order knows a linked
/// history, whose reads are such as the gate lets in.
pub fn views_are_pasts()
    ensures first { FirstIsKnown }
    ensures grow { ViewsGrow }
    ensures join { ViewsJoin }
    ensures same { SameIsKnown }
    ensures grow_drawn { DrawnViewsGrow }
    ensures join_drawn { DrawnViewsJoin }
    ensures whole { WholeViewIsLinked }
    ensures gated { WholeViewIsGated }
{}

/// Pins that are given by words which the owner of the managed list loaded stand at its past: what they name is live,
/// and in no open cycle's dead part.
pub fn pins_of_views_stand()
    ensures { PinsOfViewsStand }
{}

/// The owner of the managed list finds in its words what its state has: cells, freed objects, whether a cycle is open,
/// and which is the next.
pub fn views_say_states()
    ensures states { ViewsSayStates }
    ensures targets { TargetsAgree }
{}

/// A read by the owner of the managed list answers as the one machine does.
pub fn exact_reads_are_replies()
    ensures { ExactReadsAreReplies }
{}

/// The lists of both sides and of the readers, of a seat that knows the whole of a finished order, are a shuffle of the
/// history, and are joined to it; and each thread's line is what that thread made.
pub fn whole_lists_are_joined()
    ensures shuffle { WholeListsAreShuffle }
    ensures joined { WholeListsAreJoined }
    ensures own { OwnLinesAreMadeByCallers }
{}
