// A cycle between whose phases another caller's lines come, in each of its seven gaps: every history is a whole linked
// one, and its projection is a run.

ghost use Rattle.worked_histories.specs.Gaps.{BeginsInGaps, CollectsInGaps, DropsInGaps, ReadsInGaps, StoresInGaps};
ghost use Rattle.worked_histories.specs.Gaps.{WaitsInGaps};

/// A collection of the peer thread: before the weakening it frees nothing, after it both peers in the cycle's place,
/// and in the cycle's own marking it is told of that one.
pub fn collections_in_gaps()
    ensures { CollectsInGaps }
{}

/// A read of a weak name into a variable keeps both objects, until the sweep has freed their peers.
pub fn reads_in_gaps()
    ensures { ReadsInGaps }
{}

/// A read of a weak name into a variable that is emptied again keeps both objects only where it comes after the begin
/// of the cycle's marking.
pub fn drops_in_gaps()
    ensures { DropsInGaps }
{}

/// A read of a weak name that ends in a static keeps both objects wherever it comes before the sweep.
pub fn stores_in_gaps()
    ensures { StoresInGaps }
{}

/// A read of a weak cell is pending wherever it comes, and after the cycle the object is gone.
pub fn waits_in_gaps()
    ensures { WaitsInGaps }
{}

/// A begin of the peer thread: the marking that it opened is swept before the cycle's own begins, and frees what a
/// collection in its place would.
pub fn begins_in_gaps()
    ensures { BeginsInGaps }
{}
