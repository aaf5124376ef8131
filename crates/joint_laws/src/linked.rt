// Laws of both sides together.

ghost use Rattle.joint_laws.specs.LinkedLaws.{AdoptedPeerHasNoTwin, AliveLeadToAlive, HeldByPhase};
ghost use Rattle.joint_laws.specs.LinkedLaws.{LinkageInvariantHolds};
ghost use Rattle.joint_laws.specs.LinkedLaws.{ReachedIsNotSwept, ReachedIsSpared, TwinIsRegistered};

/// At every state of a lawful list of entries: no slot and no field of an unfreed object names a freed object, on
/// either side; a handle of the table is cleared exactly where its peer is freed; each handle that a managed row holds
/// is strong unless the row is a candidate, and a candidate's has the strength of the driver's phase; what a thread has
/// in hand is held by no row; the registry has exactly the rows that hold a handle; and what an open marking doesn't
/// spare is named by no slot, no strong handle and no peer that it spares.
pub fn both_invariants_hold()
    ensures { LinkageInvariantHolds }
{}

/// At every state of a lawful list of entries each handle that a managed row holds is in the table and strong, unless
/// its row is a candidate of the open cycle. A candidate's handle is strong up to the mirror. From then on candidates'
/// handles are weakened one by one, all are weak while the driver's marking is open, and they are restored one by one:
/// strong where the answer was alive, and out of the table, with a freed peer, where it was cleared.
pub fn held_handles_by_phase()
    ensures { HeldByPhase }
{}

/// Once all handles of a cycle are restored, no candidate that was answered alive leads to one that was answered
/// cleared.
pub fn alive_candidates_lead_to_alive_ones()
    ensures { AliveLeadToAlive }
{}

/// The peer of an `adopt` has no twin yet.
pub fn adopted_peer_has_no_twin()
    ensures { AdoptedPeerHasNoTwin }
{}

/// At every state at which a marking is open it spares each peer that the joint graph reaches: the peer was made since
/// its begin, or it marks the peer. So the sweep that ends it frees no peer that was reached at any state while it was
/// open.
pub fn reached_peers_are_spared()
    ensures spared { ReachedIsSpared }
    ensures unswept { ReachedIsNotSwept }
{}

/// The joint twin of a peer is what the registry answers, at every state, whichever handles are flagged as removed.
pub fn joint_twin_is_registered()
    ensures { TwinIsRegistered }
{}
