// Small pasts and states, computed, on which a premise of a law fails: there its conclusion fails too.

ghost use Rattle.std.specs.Prelude.{◌≡◌, ℕ, false, List, [], ◌∷◌, None};
ghost use Rattle.joint_machine.specs.declared.names.Phase.TheVariants as at;
ghost use Rattle.joint_machine.specs.Control.{opening_control, snapped, OpenSnap};
ghost use Rattle.joint_machine.specs.Histories.{NumberedFrom};
ghost use Rattle.joint_machine.specs.Linked.{MayCome, opening_linkage};
ghost use Rattle.joint_machine.specs.Managed.{OpenCycle};
ghost use Rattle.joint_machine.specs.ManagedReplay.{MayContract, opening_replay};
ghost use Rattle.joint_machine.specs.PeerReplay.{MayClear, MayRelease, MayRestore, MayWeaken, opening_peer_replay};
ghost use Rattle.joint_machine.specs.Told.{Noted, phase_of};
ghost use Rattle.known_laws.specs.Conditions.{IsOpenHere};
ghost use Rattle.known_laws.specs.Driving.{PastInvariant};
ghost use Rattle.known_laws.specs.Drawn.{AreDrawn};
ghost use Rattle.known_laws.specs.Growing.{AreKnown, IsTurnedPast, entries_kept, grown, kept_in, shown};
ghost use Rattle.known_laws.specs.Known.{Comes};
ghost use Rattle.known_laws.specs.PastEntries.{TellsPlainly};
ghost use Rattle.known_laws.specs.Pasts.{HasSameDeadPart, Joined, Lawful, PastRunsFrom, Within, end_of, line};
ghost use Rattle.known_laws.specs.Pasts.{driver_line};
ghost use Rattle.known_laws.specs.Worked.{a_drop, a_peer_drop, a_read, a_refusal, a_snap, a_take, lines_of};
ghost use Rattle.known_laws.specs.Worked.{released_twice, turned_numbers, two_drops, without_candidates, wrong_lines};

/// Two pasts with one number for two entries are joined by none, and are pasts of no one run.
pub fn numbers_must_differ()
    ensures one { Lawful (a_drop 5 ∷ []) }
    ensures other { Lawful (a_peer_drop 5 ∷ []) }
    ensures no_run { (whole : List Noted) → PastRunsFrom 0 whole
        → Within whole (a_drop 5 ∷ []) → Within whole (a_peer_drop 5 ∷ []) → ⊥ }
    ensures no_join { Joined (a_drop 5 ∷ []) (a_peer_drop 5 ∷ []) → ⊥ }
{}

/// Known lines don't grow by an entry that may come with a number that isn't above all that is known.
pub fn numbers_must_rise()
    ensures comes { Comes false (end_of (a_drop 5 ∷ [])) (a_peer_drop 5) }
    ensures unknown { AreKnown (grown (lines_of (a_drop 5 ∷ [])) (shown (a_peer_drop 5))) → ⊥ }
{}

/// Known whole lines are no history of a list of entries whose numbers aren't those from 0 on.
pub fn numbers_must_leave_none_out()
    ensures lawful { Lawful two_drops }
    ensures managed { lines_of two_drops 0 ≡ kept_in 0 turned_numbers }
    ensures peer { lines_of two_drops 1 ≡ kept_in 1 turned_numbers }
    ensures unnumbered { NumberedFrom 0 (entries_kept turned_numbers) → ⊥ }
    ensures no_history { IsTurnedPast turned_numbers two_drops → ⊥ }
{}

/// Who doesn't know the snap doesn't know the cycle's dead part, and has another managed state.
pub fn the_snap_must_be_known()
    ensures lawful { Lawful (a_snap ∷ []) }
    ensures other_line { line driver_line [] ≡ line driver_line (a_snap ∷ []) → ⊥ }
    ensures other_part { HasSameDeadPart (end_of []).managed.managed (end_of (a_snap ∷ [])).managed.managed → ⊥ }
    ensures other_state { (end_of []).managed ≡ (end_of (a_snap ∷ [])).managed → ⊥ }
{}

/// In a cycle without candidates a refusal may be told of two phases, of which only the mirrored one is told plainly.
pub fn refusals_must_be_told_plainly()
    ensures mirrored { MayCome without_candidates (a_refusal at.Mirrored) }
    ensures weakened { MayCome without_candidates (a_refusal at.Weakened) }
    ensures differ { phase_of at.Mirrored ≡ phase_of at.Weakened → ⊥ }
    ensures not_plain { TellsPlainly without_candidates.control.stand
        (a_refusal at.Weakened).entry.made.op (phase_of at.Weakened) → ⊥ }
{}

/// A list in which two releases cite one give is no past.
pub fn gives_are_cited_once()
    ensures { Lawful released_twice → ⊥ }
{}

/// Lines with a target that their entries don't have are no drawn lines.
pub fn targets_must_be_told()
    ensures { AreDrawn wrong_lines → ⊥ }
{}

/// Before the first entry all that a past keeps holds, no thread has anything in hand and the driver is idle: no call
/// has its condition that asks for a handle, an open cycle or a mirror. And once the driver has snapped, the condition
/// of a snap is gone.
pub fn calls_need_their_stand()
    ensures kept { PastInvariant opening_linkage }
    ensures release { (h : ℕ) → MayRelease opening_peer_replay h → ⊥ }
    ensures contracted { (k : ℕ) (comps : List (List ℕ)) (heavy : List ℕ) (xrefs : List (ℕ × ℕ))
        → MayContract opening_replay k comps heavy xrefs → ⊥ }
    ensures weaken { (h : ℕ) → MayWeaken opening_peer_replay h None → ⊥ }
    ensures restore { (h : ℕ) → MayRestore opening_peer_replay h → ⊥ }
    ensures clear { (k : ℕ) → MayClear opening_peer_replay k → ⊥ }
    ensures open_cycle { (o : OpenSnap) → IsOpenHere opening_linkage o → ⊥ }
    ensures snapped { (end_of (a_snap ∷ [])).control.stand ≡ snapped record { cycle = 1; snap = 0 } }
    ensures snap { (end_of (a_snap ∷ [])).managed.managed.cycle ≡ None → ⊥ }
{}

/// A list with a `take` whose pin holds an object that isn't there is no past: the pins that are told have to stand.
pub fn pins_must_stand()
    ensures { Lawful (a_take ∷ []) → ⊥ }
{}

/// A read with whatever reply is a past: replies of reads are judged over the whole history alone.
pub fn replies_wait_for_the_whole()
    ensures { Lawful (a_read ∷ []) }
{}
