// Laws of the managed side.

ghost use Rattle.joint_laws.specs.ManagedLaws.{DeadPartIsFrozen, DeadPartIsMirrored, ManagedInvariantHolds};

/// At every state of a lawful list of entries no slot, no pin and no field of an unfreed row names a freed row; an open
/// cycle's dead part is cut off; each handle that a row holds was adopted, and is held by that row alone; each pair of
/// the registry has a row that holds a handle; and no peer and no row stands in two pairs.
pub fn managed_invariant_holds()
    ensures { ManagedInvariantHolds }
{}

/// While a cycle is open its dead part is frozen: no field and no handle of a row of it changes, and no slot and no
/// field from outside comes to hold one of its rows.
pub fn dead_part_is_frozen()
    ensures { DeadPartIsFrozen }
{}

/// Between the candidates of an open cycle the mirror edges of its dead part lead exactly where managed fields lead, in
/// any managed state that keeps what `managed_invariant_holds` says of every state.
pub fn dead_part_is_mirrored()
    ensures { DeadPartIsMirrored }
{}
