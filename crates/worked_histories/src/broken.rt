// What no lawful history has.

ghost use Rattle.worked_histories.specs.Broken.{SweepsUnderWeak, ClearsLast, KeepsPromoted};
ghost use Rattle.worked_histories.specs.Meeting.{TemporaryHolds};
ghost use Rattle.worked_histories.specs.PlainBetween.{MirrorHoldsSecond};

/// The own sweep of a cycle frees both peers that only weak handles and one another lead to: a sweep that takes a weak
/// handle for a root isn't lawful.
pub fn weak_handle_is_no_root()
    ensures { SweepsUnderWeak }
{}

/// The mirror stands until the last restore: clearing it before isn't lawful, neither in the driver's order nor for the
/// peers' own list; clearing it after is.
pub fn mirror_outlasts_the_restores()
    ensures { ClearsLast }
{}

/// A mirrored reference keeps the second of two peers, of which a static has the first: a mirror that leaves it out
/// isn't lawful, nor a later sweep that frees the second peer, which is what a sweep without the reference would do.
pub fn mirror_holds_the_second_peer()
    ensures { MirrorHoldsSecond }
{}

/// A peer that a weak name gave back during a marking isn't freed by its sweep, also where no slot keeps it.
pub fn promoted_peer_is_kept()
    ensures { KeepsPromoted }
{}

/// A peer that only a temporary peer leads to isn't freed: a sweep by a marking that doesn't go on through temporaries
/// isn't lawful.
pub fn temporary_holds_what_it_leads_to()
    ensures { TemporaryHolds }
{}
